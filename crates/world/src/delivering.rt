//! The event in which the coordinator takes a report.
ghost use Rattle.std.specs.Prelude.{◌≡◌, ◌<◌, [], length, slice_get, take, Some, IfErr, IfOk, OnErr, OnOk};
ghost use Rattle.coord.specs.Delivering.{InDelivery};
ghost use Rattle.coord.specs.Standing.{HasActed, IsOpenTo};
ghost use Rattle.log_model.specs.Logs.{seen_of};
ghost use Rattle.log_model.specs.Seen.{desk_of};
ghost use Rattle.proc_tables.specs.Desks.{desk_at};
ghost use Rattle.world.specs.declared.event.Event.TheVariants as events;
ghost use Rattle.world.specs.Asking.{delivering};
ghost use Rattle.world.specs.Open.{IsOpen, row_limit};
ghost use Rattle.world.specs.Turns.{HasGone, Shuts};

use crate::error::StepError;
use crate::event::Reply;
use crate::logging::{log_row, log_work};
use crate::state::State;
use address::OutOfMemory;
use coord::Coordinator;
use history_log::Log;
use log_model::{Actor, Header, Out, Report, RowKind};
use std::alloc::Global;
use tab_ids::ProcId;

/// The coordinator takes the first report of a process.
pub(crate) fn deliver(
    log: &mut Log,
    header: &Header,
    state: &mut State,
    proc: ProcId,
) -> Result<Reply, StepError>
    requires open { IsOpen header.now log.old state.old }
    requires short { length log.old < row_limit }
    requires due { 0 < length (desk_at state.old.desks proc).reports }
    ensures gone { IfOk result (λ reply. HasGone header.now (events.Deliver proc) reply log.old log.new state.new) }
    ensures shuts { IfErr result Shuts }
    ensures front { OnErr result (take (length log.old) log.new ≡ log.old) }
{
    let alloc = *state.endings.allocator();
    let Some(report) = state.desks.next_report(proc) else {
        unreachable!()
    };
    let mut out = Out::new(alloc);
    take(
        log,
        header,
        &mut state.coordinator,
        alloc,
        &mut out,
        proc,
        &report,
    )?;
    let event = state.events;
    log_row(log, event, Actor::Coord, RowKind::Delivered { proc })?;
    log_work(
        log,
        &mut state.desks,
        &mut state.endings,
        event,
        Actor::Coord,
        &out,
    )?;
    state.events += 1;
    Ok(Reply::Delivered)
}

/// Hands the report of a process to the coordinator.
fn take(
    log: &Log,
    header: &Header,
    coordinator: &mut Coordinator,
    alloc: Global,
    out: &mut Out,
    proc: ProcId,
    report: &Report,
) -> Result<(), OutOfMemory>
    ghost d: { InDelivery }
    requires is { d ≡ delivering header.now log.now proc report.now }
    requires open_ { IsOpenTo d.event coordinator.old }
    requires waits { slice_get (desk_of (seen_of log.now) proc).reports 0 ≡ Some report.now }
    requires first { out.old ≡ [] }
    ensures acted { OnOk result (HasActed (delivering header.now log.now proc report.now).event out.new coordinator.new) }
{
    coordinator.deliver(alloc, out, proc, report)
}
