//! The events in which a process lets a document act, and takes up an order.
ghost use Rattle.std.specs.Prelude.{◌≡◌, Bool, ◌++◌, ◌<◌, ◌∷◌, [], length, take, IsSome, None, IfOk, IfSome, IfErr, OnErr, OnOk, option_map};
ghost use Rattle.doc_view.specs.Jobs.{IsForView};
ghost use Rattle.log_model.specs.declared.change.Change.TheVariants as changes;
ghost use Rattle.log_model.specs.declared.outcome.Ending.TheVariants as ends;
ghost use Rattle.log_model.specs.declared.row_kind.Actor.TheVariants as actors;
ghost use Rattle.log_model.specs.declared.row_kind.RowKind.TheVariants as rows;
ghost use Rattle.log_model.specs.Views.{after_task};
ghost use Rattle.proc_tables.specs.Desks.{desk_at};
ghost use Rattle.proc_tables.specs.Views.{HasRoom, view_at};
ghost use Rattle.proc_work.specs.Work.{outcome_of_task};
ghost use Rattle.proc_work.specs.Work as worked;
ghost use Rattle.world.specs.declared.event.Event.TheVariants as events;
ghost use Rattle.world.specs.Notes.{ended_in, row_with};
ghost use Rattle.world.specs.Open.{IsOpen, row_limit};
ghost use Rattle.world.specs.Shows.{Shows, shown_after};
ghost use Rattle.world.specs.Steps as spec;
ghost use Rattle.world.specs.Turns.{HasGone, Shuts};

use crate::endings::end;
use crate::error::StepError;
use crate::event::Reply;
use crate::logging::log_row;
use crate::reading::{is_dirty, runs};
use crate::state::State;
use address::OutOfMemory;
use doc_view::{ActError, View};
use history_log::Log;
use log_model::{
    Actor, Change, Denial, Ending, Header, Job, Made, Order, Outcome, Report, RowKind, Task,
    Verdict, What,
};
use proc_tables::{Item, Views};
use tab_ids::{ProcId, ReqId};

/// A document of the process acts on the first poke.
pub(crate) fn act(
    log: &mut Log,
    header: &Header,
    state: &mut State,
    proc: ProcId,
) -> Result<Reply, StepError>
    requires open { IsOpen header.now log.old state.old }
    requires short { length log.old < row_limit }
    requires due { 0 < length (desk_at state.old.desks proc).input }
    ensures gone { IfOk result (λ reply. HasGone header.now (events.Act proc) reply log.old log.new state.new) }
    ensures shuts { IfErr result Shuts }
    ensures front { OnErr result (take (length log.old) log.new ≡ log.old) }
{
    let event = state.events;
    let Some(poke) = state.desks.next_poke(proc) else {
        unreachable!()
    };
    if !runs(&state.views, poke.doc) {
        refuse(
            log,
            &mut state.endings,
            event,
            proc,
            poke.req,
            Denial::NoDocument,
        )?;
        state.events += 1;
        return Ok(Reply::Acted);
    }
    match state.views.act(&poke) {
        Ok(made) => {
            // An edit isn't reported.
            if is_edit(&made.what) {
                log_edit(log, &mut state.endings, event, proc, made)?;
                state.events += 1;
                return Ok(Reply::Acted);
            }
            let told = made.copy()?;
            state.desks.add(proc, Item::Report(Report::Made(told)))?;
            log_row(log, event, Actor::Proc(proc), RowKind::Made { proc, made })?;
            state.events += 1;
            Ok(Reply::Acted)
        }
        Err(ActError::NotRewritable) => {
            refuse(
                log,
                &mut state.endings,
                event,
                proc,
                poke.req,
                Denial::BadAddress,
            )?;
            state.events += 1;
            Ok(Reply::Acted)
        }
        Err(ActError::NotRunning) => unreachable!(),
        Err(ActError::UrlOverflow(overflowed)) => Err(StepError::UrlOverflow(overflowed)),
        Err(ActError::OutOfMemory) => Err(StepError::OutOfMemory),
    }
}

/// Whether a document edited itself.
fn is_edit(what: &What) -> bool
    ensures { result ≡ spec.is_edit what.now }
{
    match what {
        What::Edit => true,
        What::Push { .. }
        | What::Replace { .. }
        | What::AddFrame { .. }
        | What::RemoveFrame { .. }
        | What::Go { .. } => false,
    }
}

/// An edit is logged, and applied at once.
fn log_edit(
    log: &mut Log,
    endings: &mut Vec<Option<Ending>>,
    event: u32,
    proc: ProcId,
    made: Made,
) -> Result<(), OutOfMemory>
    ensures log { OnOk result (log.new ≡ log.old ++ row_with event (actors.Proc proc) (rows.Made proc made) ∷ row_with event (actors.Proc proc) (rows.Applied made.req changes.Edit) ∷ []) }
    ensures endings { endings.new.items ≡ ended_in endings.old.items made.req ends.Applied }
    ensures front { OnErr result (take (length log.old) log.new ≡ log.old) }
{
    let actor = Actor::Proc(proc);
    let req = made.req;
    end(endings, req, Ending::Applied);
    log_row(log, event, actor, RowKind::Made { proc, made })?;
    let applied = RowKind::Applied {
        req,
        change: Change::Edit,
    };
    log_row(log, event, actor, applied)?;
    Ok(())
}

/// The process refuses a poke.
fn refuse(
    log: &mut Log,
    endings: &mut Vec<Option<Ending>>,
    event: u32,
    proc: ProcId,
    req: ReqId,
    reason: Denial,
) -> Result<(), OutOfMemory>
    ensures log { OnOk result (log.new ≡ log.old ++ row_with event (actors.Proc proc) (rows.Refused req reason) ∷ []) }
    ensures endings { endings.new.items ≡ ended_in endings.old.items req (ends.Refused reason) }
    ensures err { OnErr result (log.new ≡ log.old) }
{
    end(endings, req, Ending::Refused(reason));
    log_row(
        log,
        event,
        Actor::Proc(proc),
        RowKind::Refused { req, reason },
    )?;
    Ok(())
}

/// A process takes up the first order of its mail.
pub(crate) fn begin(
    log: &mut Log,
    header: &Header,
    state: &mut State,
    proc: ProcId,
) -> Result<Reply, StepError>
    requires open { IsOpen header.now log.old state.old }
    requires short { length log.old < row_limit }
    requires free { (desk_at state.old.desks proc).in_hand ≡ None }
    requires due { 0 < length (desk_at state.old.desks proc).mail }
    ensures gone { IfOk result (λ reply. HasGone header.now (events.Begin proc) reply log.old log.new state.new) }
    ensures shuts { IfErr result Shuts }
    ensures front { OnErr result (take (length log.old) log.new ≡ log.old) }
{
    let Some(job) = state.desks.next_job(proc) else {
        unreachable!()
    };
    let dirty = is_dirty(&state.views, job.doc);
    let nr = job.nr;
    let order = Order { job, dirty };
    let taken = order.copy()?;
    state.desks.add(proc, Item::Order(order))?;
    let own = RowKind::Taken {
        proc,
        job: nr,
        live: true,
        dirty,
    };
    log_row(log, state.events, Actor::Proc(proc), own)?;
    state.events += 1;
    Ok(Reply::Took(taken))
}
