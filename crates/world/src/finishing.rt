//! The event in which a process finishes the order in hand.
ghost use Rattle.std.specs.Prelude.{◌≡◌, ◌++◌, ◌<◌, ◌∷◌, length, map, take, IsSomeAnd, None, IfOk, IfSome, IfErr, OnErr, OnOk};
ghost use Rattle.doc_view.specs.Jobs.{IsForView};
ghost use Rattle.log_model.specs.declared.row_kind.Actor.TheVariants as actors;
ghost use Rattle.log_model.specs.declared.row_kind.RowKind.TheVariants as rows;
ghost use Rattle.proc_tables.specs.Desks.{desk_at};
ghost use Rattle.proc_tables.specs.Views.{HasRoom, view_at};
ghost use Rattle.proc_work.specs.Work.{Done, done_of};
ghost use Rattle.world.specs.declared.event.Event.TheVariants as events;
ghost use Rattle.world.specs.Finishing.{IsWorkedOutcome};
ghost use Rattle.world.specs.Notes.{row_with};
ghost use Rattle.world.specs.Open.{IsOpen, row_limit};
ghost use Rattle.world.specs.Shows.{IsTabTask, Shows, made_at_end, shown_after};
ghost use Rattle.world.specs.Steps.{rows_of_made};
ghost use Rattle.world.specs.Turns.{HasGone, Shuts};

use crate::error::StepError;
use crate::event::Reply;
use crate::logging::log_row;
use crate::state::State;
use address::OutOfMemory;
use doc_view::View;
use history_log::Log;
use log_model::{Actor, Header, Job, Made, Order, Outcome, Report, RowKind, Task};
use proc_tables::{Item, Views};
use tab_ids::{JobId, ProcId};

/// A process finishes the order in hand. What its document made of a fragment order is logged behind it.
pub(crate) fn finish(
    log: &mut Log,
    header: &Header,
    state: &mut State,
    proc: ProcId,
    outcome: Outcome,
) -> Result<Reply, StepError>
    requires open { IsOpen header.now log.old state.old }
    requires short { length log.old < row_limit }
    requires due { IsSomeAnd (desk_at state.old.desks proc).in_hand (λ order. IsWorkedOutcome order outcome) }
    ensures gone { (done : Done) → IsSomeAnd (desk_at state.old.desks proc).in_hand (λ order. done ≡ done_of order done.kind) → done.outcome ≡ outcome → IfOk result (λ reply. HasGone header.now (events.Finish proc done) reply log.old log.new state.new) }
    ensures shuts { IfErr result Shuts }
    ensures front { OnErr result (take (length log.old) log.new ≡ log.old) }
{
    let Some(order) = state.desks.let_go(proc) else {
        unreachable!()
    };
    let Order { job, dirty: _ } = order;
    let made = work(&mut state.views, &job)?;
    state.runners.do_job(&job)?;
    log_end(log, state.events, proc, job.nr, outcome, &made)?;
    state
        .desks
        .add(proc, Item::Report(Report::Done(job, outcome, made)))?;
    state.events += 1;
    Ok(Reply::Finished)
}

/// Logs that an order was finished, and what its document made of it, if anything.
fn log_end(
    log: &mut Log,
    event: u32,
    proc: ProcId,
    job: JobId,
    outcome: Outcome,
    made: &Option<Made>,
) -> Result<(), OutOfMemory>
    ensures log { OnOk result (log.new ≡ log.old ++ row_with event (actors.Proc proc) (rows.Finished proc job outcome) ∷ map (row_with event (actors.Proc proc)) (rows_of_made proc made.now)) }
    ensures front { OnErr result (take (length log.old) log.new ≡ log.old) }
{
    let actor = Actor::Proc(proc);
    log_row(log, event, actor, RowKind::Finished { proc, job, outcome })?;
    if let Some(made) = made {
        let made = made.copy()?;
        log_row(log, event, actor, RowKind::Made { proc, made })?;
    }
    Ok(())
}

/// Does an order at its document, and answers what the document made of it, if anything.
fn work(views: &mut Views, job: &Job) -> Result<Option<Made>, OutOfMemory>
    requires room { IfSome (view_at views.old job.now.doc) HasRoom }
    requires doc { IfSome (view_at views.old job.now.doc) (λ view. job.now.doc ≡ view.doc) }
    requires task { IsTabTask job.now.task }
    ensures made { IfOk result (λ made. made ≡ made_at_end (view_at views.old job.now.doc) job.now.task) }
    ensures view { OnOk result (Shows job.now.doc (shown_after job.now.doc (view_at views.old job.now.doc) job.now.task) views.old views.new) }
{
    match &job.task {
        Task::Populate {
            address,
            initial,
            ..
        } => {
            let address = address.copy()?;
            views.add(job.doc, View::fresh(job.doc, address, *initial))?;
            Ok(None)
        }
        Task::Discard => {
            views.remove(job.doc);
            Ok(None)
        }
        Task::Activate { .. } => tell(views, job),
        Task::Update { .. } => tell(views, job),
        Task::Freeze => tell(views, job),
        Task::DoFragment { .. } => tell(views, job),
        Task::Ask { .. } => unreachable!(),
    }
}

/// Lets the document of an order do it, where it is there.
fn tell(views: &mut Views, job: &Job) -> Result<Option<Made>, OutOfMemory>
    requires room { IfSome (view_at views.old job.now.doc) HasRoom }
    requires doc { IfSome (view_at views.old job.now.doc) (λ view. job.now.doc ≡ view.doc) }
    requires task { IsForView job.now.task }
    ensures made { IfOk result (λ made. made ≡ made_at_end (view_at views.old job.now.doc) job.now.task) }
    ensures view { OnOk result (Shows job.now.doc (shown_after job.now.doc (view_at views.old job.now.doc) job.now.task) views.old views.new) }
{
    if views.of(job.doc).is_none() {
        return Ok(None);
    }
    views.do_job(job)
}
