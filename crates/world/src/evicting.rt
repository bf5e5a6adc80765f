//! The event in which the user has the document discarded that is kept longest.
ghost use Rattle.std.specs.Prelude.{◌≡◌, ◌<◌, [], Some, IsSome, length, take, IfOk, IfErr, OnOk, OnErr};
ghost use Rattle.coord.specs.Evicting.{InEviction, longest_in};
ghost use Rattle.coord.specs.Standing.{HasActed, IsOpenTo};
ghost use Rattle.log_model.specs.Logs.{seen_of};
ghost use Rattle.coord.specs.PassedOn.{IsEvictAsk};
ghost use Rattle.world.specs.declared.event.Event.TheVariants as events;
ghost use Rattle.world.specs.Asking.{evicting};
ghost use Rattle.world.specs.Open.{IsOpen, row_limit};
ghost use Rattle.world.specs.Turns.{HasGone, Shuts};

use crate::error::StepError;
use crate::event::Reply;
use crate::logging::{log_row, log_work};
use crate::state::State;
use address::OutOfMemory;
use coord::Coordinator;
use history_log::Log;
use log_model::{Actor, Header, Out, RowKind};
use std::alloc::Global;
use tab_ids::StateId;

/// The document that is kept longest is evicted.
pub(crate) fn evict(log: &mut Log, header: &Header, state: &mut State) -> Result<Reply, StepError>
    requires open { IsOpen header.now log.old state.old }
    requires short { length log.old < row_limit }
    requires due { IsSome (longest_in (seen_of log.old)) }
    ensures gone { IfOk result (λ reply. HasGone header.now events.Evict reply log.old log.new state.new) }
    ensures shuts { IfErr result Shuts }
    ensures front { OnErr result (take (length log.old) log.new ≡ log.old) }
{
    let alloc = *state.endings.allocator();
    let Some(longest) = state.coordinator.longest_kept() else {
        unreachable!()
    };
    let mut out = Out::new(alloc);
    discard(
        log,
        header,
        &mut state.coordinator,
        alloc,
        &mut out,
        longest,
    )?;
    let event = state.events;
    log_row(log, event, Actor::Ui, RowKind::Evicted { state: longest })?;
    log_work(
        log,
        &mut state.desks,
        &mut state.endings,
        event,
        Actor::Ui,
        &out,
    )?;
    state.events += 1;
    Ok(Reply::Evicted)
}

/// Has the coordinator discard it.
fn discard(
    log: &Log,
    header: &Header,
    coordinator: &mut Coordinator,
    alloc: Global,
    out: &mut Out,
    state: StateId,
) -> Result<(), OutOfMemory>
    ghost v: { InEviction }
    requires is { v ≡ evicting header.now log.now state }
    requires asks { IsEvictAsk v.event state }
    requires open_ { IsOpenTo v.event coordinator.old }
    requires first { out.old ≡ [] }
    ensures acted { OnOk result (HasActed (evicting header.now log.now state).event out.new coordinator.new) }
{
    coordinator.evict(alloc, out)?;
    Ok(())
}
