//! The events that log nothing.
ghost use Rattle.std.specs.Prelude.{◌≡◌, ◌==◌, None, Some, is_some, length, not, if◌then◌else◌};
ghost use Rattle.log_model.specs.Equal.{holds};
ghost use Rattle.coord.specs.Standing.{StandsFor};
ghost use Rattle.log_model.specs.Seen.{Seen};
ghost use Rattle.proc_tables.specs.Desks.{desk_at};
ghost use Rattle.proc_work.specs.Answers.{has_kind_of};
ghost use Rattle.world.specs.Steps.{idle_at, is_work_on};

use crate::event::{Event, Reply};
use crate::reading::{in_hand, waiting};
use coord::Coordinator;
use log_model::{HandlerKind, Order, Task};
use proc_tables::Desks;
use proc_work::Done;
use tab_ids::ProcId;

/// The answer to an event that logs nothing.
pub(crate) fn idle(
    desks: &Desks,
    coordinator: &Coordinator,
    kinds: &[HandlerKind],
    event: &Event,
) -> Option<Reply>
    ensures { (s : Seen) → StandsFor s coordinator.now → result ≡ idle_at kinds.now (desk_at desks.now) s event.now }
{
    match event {
        Event::Load { .. } | Event::Go { .. } | Event::Poke { .. } => None,
        Event::Answer { req, .. } => unless(coordinator.is_prompt_up(*req), Reply::NoPrompt),
        Event::Evict => unless(has_kept(coordinator), Reply::NothingKept),
        Event::Act { proc } => unless(has_poke(desks, *proc), Reply::Empty),
        Event::Begin { proc } => {
            if is_busy(desks, *proc) {
                return Some(Reply::Busy);
            }
            unless(has_mail(desks, *proc), Reply::Empty)
        }
        Event::Finish { proc, done } => {
            unless(has_in_hand(desks, kinds, *proc, done), Reply::Stale)
        }
        Event::Deliver { proc } => unless(has_report(desks, *proc), Reply::Empty),
    }
}

/// Whether a document is kept.
fn has_kept(coordinator: &Coordinator) -> bool
    ensures { (s : Seen) → StandsFor s coordinator.now → result ≡ not (length s.kept == 0) }
{
    coordinator.longest_kept().is_some()
}

/// Whether a poke waits in a process.
fn has_poke(desks: &Desks, proc: ProcId) -> bool
    ensures { result ≡ not (length (desk_at desks.now proc).input == 0) }
{
    waiting(desks, proc).input != 0
}

/// Whether an order waits in it.
fn has_mail(desks: &Desks, proc: ProcId) -> bool
    ensures { result ≡ not (length (desk_at desks.now proc).mail == 0) }
{
    waiting(desks, proc).mail != 0
}

/// Whether a report waits in it.
fn has_report(desks: &Desks, proc: ProcId) -> bool
    ensures { result ≡ not (length (desk_at desks.now proc).reports == 0) }
{
    waiting(desks, proc).reports != 0
}

/// Whether it has an order in hand.
fn is_busy(desks: &Desks, proc: ProcId) -> bool
    ensures { result ≡ is_some (desk_at desks.now proc).in_hand }
{
    in_hand(desks, proc).is_some()
}

/// Whether a finished order is the one in hand, and a handler of the kind of its slot was asked, if one was.
fn has_in_hand(desks: &Desks, kinds: &[HandlerKind], proc: ProcId, done: &Done) -> bool
    ensures { result ≡ holds (is_work_on kinds.now done.now) (desk_at desks.now proc).in_hand }
{
    match in_hand(desks, proc) {
        Some(order) => is_work_on(kinds, done, order),
        None => false,
    }
}

/// Whether this order was worked on, with a handler of the kind of its slot, if it asks one.
fn is_work_on(kinds: &[HandlerKind], done: &Done, order: &Order) -> bool
    ensures { result ≡ is_work_on kinds.now done.now order.now }
{
    done.is_of(order) && has_kind_of(kinds, &order.job.task, done.kind())
}

/// Whether this is the kind of the slot that a task asks, if it asks one.
fn has_kind_of(kinds: &[HandlerKind], task: &Task, kind: Option<HandlerKind>) -> bool
    ensures { result ≡ has_kind_of kinds.now task.now kind }
{
    match task {
        Task::Ask { slot, .. } => kind == kinds.get(*slot as usize).copied(),
        Task::Populate { .. }
        | Task::Activate { .. }
        | Task::Update { .. }
        | Task::Freeze
        | Task::Discard
        | Task::DoFragment { .. } => true,
    }
}

/// The reply, unless something is due.
fn unless(due: bool, reply: Reply) -> Option<Reply>
    ensures { result ≡ (if due then None else Some reply) }
{
    if due { None } else { Some(reply) }
}
