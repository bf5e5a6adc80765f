//! The events in which the user asks for something: a load or a traversal, which the coordinator carries out, or that a document acts.
ghost use Rattle.std.specs.Prelude.{◌≡◌, ◌<◌, ◌+◌, [], Some, length, take, IfOk, IfErr, OnOk, OnErr};
ghost use Rattle.coord.specs.Standing.{HasActed, IsOpenTo, asked_for};
ghost use Rattle.log_model.specs.Causes.{denial_of_poke};
ghost use Rattle.log_model.specs.Logs.{seen_of};
ghost use Rattle.seen_laws.specs.InEvent.{InEvent};
ghost use Rattle.world.specs.declared.event.Event.TheVariants as events;
ghost use Rattle.world.specs.Asking.{asking, event_asking};
ghost use Rattle.world.specs.Open.{IsOpen, row_limit};
ghost use Rattle.world.specs.Reaching.{Reaches};
ghost use Rattle.world.specs.Turns.{HasGone, Shuts};

use crate::endings::{add, next_request};
use crate::error::StepError;
use crate::event::Reply;
use crate::logging::{log_row, log_work};
use crate::reading::{home_of, reached};
use crate::state::State;
use address::OutOfMemory;
use coord::{Ask, Coordinator};
use history_log::Log;
use log_model::{Action, Actor, Denial, Ending, Header, Out, Poke, Request, RowKind};
use proc_tables::Item;
use std::alloc::Global;
use tab_ids::{DocId, NavId, ReqId};

/// A load or a traversal is accepted, and the coordinator carries it out.
pub(crate) fn accept_ask(
    log: &mut Log,
    header: &Header,
    state: &mut State,
    ask: &Ask,
) -> Result<Reply, StepError>
    requires open { IsOpen header.now log.old state.old }
    requires short { length log.old < row_limit }
    ensures gone { IfOk result (λ reply. HasGone header.now (event_asking ask.now) reply log.old log.new state.new) }
    ensures shuts { IfErr result Shuts }
    ensures front { OnErr result (take (length log.old) log.new ≡ log.old) }
{
    let alloc = *state.endings.allocator();
    let req = next_request(&state.endings);
    let what = request_of(ask)?;
    let mut out = Out::new(alloc);
    carry_out(
        log,
        header,
        &mut state.coordinator,
        alloc,
        &mut out,
        req,
        ask,
    )?;
    add(&mut state.endings, None)?;
    let event = state.events;
    let own = RowKind::Accepted {
        req,
        doc: None,
        what,
    };
    log_row(log, event, Actor::Ui, own)?;
    log_work(
        log,
        &mut state.desks,
        &mut state.endings,
        event,
        Actor::Ui,
        &out,
    )?;
    state.events += 1;
    Ok(Reply::Accepted(req))
}

/// The request as the log has it.
fn request_of(ask: &Ask) -> Result<Request, OutOfMemory>
    ensures { IfOk result (λ request. request ≡ asked_for ask.now) }
{
    match ask {
        Ask::Load { nav, mode, address } => {
            let address = address.copy()?;
            Ok(Request::Load {
                nav: *nav,
                mode: *mode,
                address,
            })
        }
        Ask::Go { delta } => Ok(Request::Go { delta: *delta }),
    }
}

/// Hands it to the coordinator.
fn carry_out(
    log: &Log,
    header: &Header,
    coordinator: &mut Coordinator,
    alloc: Global,
    out: &mut Out,
    req: ReqId,
    ask: &Ask,
) -> Result<(), OutOfMemory>
    ghost e: { InEvent }
    requires is { e ≡ asking header.now log.now req ask.now }
    requires open_ { IsOpenTo e coordinator.old }
    requires next { req.0 ≡ length (seen_of log.now).requests + 1 }
    requires first { out.old ≡ [] }
    ensures acted { OnOk result (HasActed (asking header.now log.now req ask.now) out.new coordinator.new) }
{
    coordinator.request(alloc, out, req, ask)?;
    Ok(())
}

/// A poke is accepted: it waits in the process of the document that it reaches, or is refused where it reaches none.
pub(crate) fn accept_poke(
    log: &mut Log,
    header: &Header,
    state: &mut State,
    nav: NavId,
    action: Action,
) -> Result<Reply, StepError>
    requires open { IsOpen header.now log.old state.old }
    requires short { length log.old < row_limit }
    ensures gone { IfOk result (λ reply. HasGone header.now (events.Poke nav action) reply log.old log.new state.new) }
    ensures shuts { IfErr result Shuts }
    ensures front { OnErr result (take (length log.old) log.new ≡ log.old) }
{
    match reached(&state.coordinator, &state.runners, nav) {
        Ok(doc) => accept_here(log, header, state, nav, action, doc),
        Err(reason) => refuse_stray(log, header, state, nav, action, reason),
    }
}

/// A poke that reaches a document waits in the document's process.
fn accept_here(
    log: &mut Log,
    header: &Header,
    state: &mut State,
    nav: NavId,
    action: Action,
    doc: DocId,
) -> Result<Reply, StepError>
    requires open { IsOpen header.now log.old state.old }
    requires short { length log.old < row_limit }
    requires reached { Reaches (seen_of log.old) nav doc }
    ensures gone { IfOk result (λ reply. HasGone header.now (events.Poke nav action) reply log.old log.new state.new) }
    ensures shuts { IfErr result Shuts }
    ensures front { OnErr result (take (length log.old) log.new ≡ log.old) }
{
    let req = next_request(&state.endings);
    let proc = home_of(&state.coordinator, doc);
    let kept = action.copy()?;
    add(&mut state.endings, None)?;
    let poke = Poke {
        req,
        doc,
        action: kept,
    };
    state.desks.add(proc, Item::Poke(poke))?;
    let own = RowKind::Accepted {
        req,
        doc: Some(doc),
        what: Request::Poke { nav, action },
    };
    log_row(log, state.events, Actor::Ui, own)?;
    state.events += 1;
    Ok(Reply::Accepted(req))
}

/// A poke that reaches no document is refused.
fn refuse_stray(
    log: &mut Log,
    header: &Header,
    state: &mut State,
    nav: NavId,
    action: Action,
    reason: Denial,
) -> Result<Reply, StepError>
    requires open { IsOpen header.now log.old state.old }
    requires short { length log.old < row_limit }
    requires denied { denial_of_poke (seen_of log.old) nav ≡ Some reason }
    ensures gone { IfOk result (λ reply. HasGone header.now (events.Poke nav action) reply log.old log.new state.new) }
    ensures shuts { IfErr result Shuts }
    ensures front { OnErr result (take (length log.old) log.new ≡ log.old) }
{
    let req = next_request(&state.endings);
    add(&mut state.endings, Some(Ending::Refused(reason)))?;
    let event = state.events;
    let own = RowKind::Accepted {
        req,
        doc: None,
        what: Request::Poke { nav, action },
    };
    log_row(log, event, Actor::Ui, own)?;
    log_row(log, event, Actor::Ui, RowKind::Refused { req, reason })?;
    state.events += 1;
    Ok(Reply::Accepted(req))
}
