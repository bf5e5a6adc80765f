//! The next step of the queue has its turn, where one may.
ghost use Rattle.std.specs.Prelude.{◌≡◌, [], None, OnOk, IfOk, IfNone, IfSome};
ghost use Rattle.leave_questions.specs.Questions.{HasSlots};
ghost use Rattle.seen_laws.specs.InEvent.{log_of, now_of};
ghost use Rattle.tab_begins.specs.Queueing.{AreUndue, CameTo, FewerWait, HasGrown, HasQueue, HasStood, IsAtRest, IsFirstDue, LeavesInNeed, is_due_in, is_ready_in, is_there};
ghost use Rattle.tab_begins.specs.Taking.{KeepsMade};
ghost use Rattle.tab_one_pass.specs.PassedOn.{InPass, IsPassing};
ghost use Rattle.tab_applies.specs.PassedOn.{IsTurning};

use crate::taking::take_load;
use crate::traversing::{asks_somebody, take_traversal};
use crate::turn::Turn;
use address::OutOfMemory;
use entry_store::Store;
use indexmap::IndexMap;
use load_table::{LoadTable, Phase};
use log_model::Out;
use move_queue::{MoveQueue, QueueStep};
use std::alloc::Global;
use tab_doors::Tables;
use tab_ids::{DocId, NavId, ReqId, StateId};
use tab_turns::stand_at;

/// Whether a load's document is there.
fn is_there(phase: &Phase) -> bool
    ensures { result ≡ is_there phase.now }
{
    match phase {
        Phase::Ready(_) => true,
        Phase::Asking | Phase::Populating(_) => false,
    }
}

/// Whether the request is a navigable's ongoing load, and its document is there.
fn is_ready(loads: &LoadTable, nav: NavId, req: ReqId) -> bool
    ensures { result ≡ is_ready_in loads.now nav req }
{
    match loads.of(nav) {
        Some(load) => load.req == req && is_there(&load.phase),
        None => false,
    }
}

/// Whether the step's turn is due.
fn is_due(loads: &LoadTable, step: &QueueStep) -> bool
    ensures { result ≡ is_due_in loads.now step.now }
{
    match step {
        QueueStep::Ready(req, nav) => is_ready(loads, *nav, *req),
        QueueStep::Traverse(..) | QueueStep::Reload(..) => true,
    }
}

/// The first step that is due is taken off the queue, and so are those of loads that have ended before it.
fn next_due(queue: &mut MoveQueue, loads: &LoadTable) -> Option<QueueStep>
    ensures next { IfSome result (λ step. IsFirstDue loads.now queue.old.waiting step queue.new.waiting) }
    ensures none { IfNone result (AreUndue loads.now queue.old.waiting) }
    ensures empty { IfNone result (queue.new.waiting ≡ []) }
    ensures parked { queue.new.parked ≡ queue.old.parked }
{
    'steps: while let Some(step) = queue.next() {
        if is_due(loads, &step) {
            return Some(step);
        }
    }
    None
}

/// Where all stand at the current step, the first step of the queue that is due has its turn: a traversal begins, or is refused, and a ready load is applied. A traversal that asks somebody before it begins waits on, and nothing is done. `slots` has the slots of the unload handlers. No traversal runs, and nothing is held back. In `blame` a request is noted under the state of each document that is stray then. HTML Standard, "session history traversal queue".
pub fn begin_next(
    alloc: Global,
    tables: &mut Tables,
    queue: &mut MoveQueue,
    blame: &mut IndexMap<StateId, ReqId>,
    slots: &IndexMap<DocId, u8>,
    out: &mut Out,
) -> Result<Turn, OutOfMemory>
    ghost p: { InPass }
    requires passing { IsPassing p out.old tables.old }
    requires turning { IsTurning p.event out.old }
    requires none { (now_of p.event out.old).parked ≡ [] }
    requires rest { IsAtRest p.event tables.old.running blame.old.entries (now_of p.event out.old) }
    requires queued { HasQueue (now_of p.event out.old) None queue.old.waiting }
    requires slots { HasSlots (log_of p.event out.old) slots.now.entries }
    ensures passing { OnOk result (IsPassing p out.new tables.new) }
    ensures turning { OnOk result (IsTurning p.event out.new) }
    ensures none { OnOk result ((now_of p.event out.new).parked ≡ []) }
    ensures queued { OnOk result (HasQueue (now_of p.event out.new) tables.new.running queue.new.waiting) }
    ensures came { IfOk result (λ turn. CameTo p.event tables.old tables.new blame.old.entries blame.new.entries out.old out.new queue.new.waiting turn) }
    ensures fewer { IfOk result (λ turn. FewerWait queue.old.waiting queue.new.waiting turn) }
    ensures stood { IfOk result (λ turn. HasStood (now_of p.event out.old) turn) }
    ensures made { OnOk result (KeepsMade (now_of p.event out.old) (now_of p.event out.new)) }
    ensures keep { OnOk result (tables.new.kept.keep ≡ tables.old.kept.keep) }
    ensures grown { OnOk result (HasGrown out.old out.new) }
    ensures needs { OnOk result (LeavesInNeed p.event out.old out.new) }
    ensures parked { queue.new.parked ≡ queue.old.parked }
{
    let current = tables.store.current();
    if !stand_at(tables, current) {
        return Ok(Turn::Rests);
    }
    let Some(step) = next_due(queue, &tables.loads) else {
        return Ok(Turn::Rests);
    };
    match step {
        QueueStep::Traverse(req, delta) => {
            if asks_somebody(alloc, tables, slots, delta)? {
                queue.put_back(step)?;
                return Ok(Turn::Asks(req));
            }
            take_traversal(tables, out, req, delta)?;
            match tables.running {
                Some(run) => Ok(Turn::Went(run)),
                None => Ok(Turn::Refused),
            }
        }
        QueueStep::Ready(req, nav) => {
            take_load(alloc, tables, blame, out, nav, req)?;
            Ok(Turn::Went(req))
        }
        QueueStep::Reload(..) => unreachable!(),
    }
}
