//! One turn of the queue: the traversal that runs ends, or the next step has its turn.
ghost use Rattle.std.specs.Prelude.{◌≡◌, ◌<◌, IfOk, None, OnOk, false, is_some, true};
ghost use Rattle.seen_laws.specs.InEvent.{log_of, now_of};
ghost use Rattle.tab_releases.specs.Releasing.{InPass};
ghost use Rattle.tab_releases.specs.PassedOn.{IsNoneDue};
ghost use Rattle.slot_facts.specs.Slots.{AreSlots};
ghost use Rattle.tab_settles.specs.Settling.{HasPut, HasSettled, HasTurned, IsOver, IsReady, MayDiscardIn, turns_left};

use crate::reasons::Reasons;
use address::OutOfMemory;
use indexmap::IndexMap;
use log_model::Out;
use move_queue::MoveQueue;
use std::alloc::Global;
use tab_doors::Tables;
use tab_ids::{DocId, ReqId, StateId};
use tab_releases::{Turn, begin_next, end_running, release};

/// The traversal that runs ends where all stand at the step that it leads to, and what was held back for it is taken up. Answers whether it ended; else nothing is done.
fn finish(
    alloc: Global,
    tables: &mut Tables,
    queue: &mut MoveQueue,
    blame: &mut IndexMap<StateId, ReqId>,
    out: &mut Out,
    reasons: &mut Reasons,
) -> Result<bool, OutOfMemory>
    ghost p: { InPass }
    requires at { HasSettled p out.old tables.old queue.old blame.old.entries reasons.old.cause }
    requires runs { is_some tables.old.running ≡ true }
    requires free { MayDiscardIn false p.event }
    ensures ready { IfOk result (λ ended. ended ≡ true → IsReady p out.new tables.new queue.new blame.new.entries reasons.new.cause) }
    ensures fewer { IfOk result (λ ended. ended ≡ true → turns_left tables.new.running queue.new.waiting < turns_left tables.old.running queue.old.waiting) }
    ensures turned { IfOk result (λ ended. ended ≡ true → HasTurned p.event out.old out.new) }
    ensures still { IfOk result (λ ended. ended ≡ false → out.new ≡ out.old) }
    ensures rested { IfOk result (λ ended. ended ≡ false → HasSettled p out.new tables.new queue.new blame.new.entries reasons.new.cause) }
    ensures due { IfOk result (λ ended. ended ≡ false → IsNoneDue (now_of p.event out.new) tables.new.running queue.new.waiting) }
    ensures put { OnOk result (HasPut p.event out.old out.new) }
    ensures handled { reasons.new.handled ≡ reasons.old.handled }
{
    let running = tables.running;
    if end_running(tables, out)? {
        reasons.logged = running;
        let last = release(alloc, tables, queue, blame, out)?;
        reasons.follow(last);
        return Ok(true);
    }
    Ok(false)
}

/// Where no traversal runs, the next step of the queue has its turn, if one is due and asks nobody. Answers whether it had; else nothing is put out.
fn begin(
    alloc: Global,
    tables: &mut Tables,
    queue: &mut MoveQueue,
    blame: &mut IndexMap<StateId, ReqId>,
    slots: &IndexMap<DocId, u8>,
    out: &mut Out,
    reasons: &mut Reasons,
) -> Result<bool, OutOfMemory>
    ghost p: { InPass }
    requires at { HasSettled p out.old tables.old queue.old blame.old.entries reasons.old.cause }
    requires idle { tables.old.running ≡ None }
    requires slots { AreSlots (log_of p.event out.old) slots.now.entries }
    requires free { MayDiscardIn false p.event }
    ensures ready { IfOk result (λ did. did ≡ true → IsReady p out.new tables.new queue.new blame.new.entries reasons.new.cause) }
    ensures fewer { IfOk result (λ did. did ≡ true → turns_left tables.new.running queue.new.waiting < turns_left tables.old.running queue.old.waiting) }
    ensures turned { IfOk result (λ did. did ≡ true → HasTurned p.event out.old out.new) }
    ensures still { IfOk result (λ did. did ≡ false → out.new ≡ out.old) }
    ensures rested { IfOk result (λ did. did ≡ false → HasSettled p out.new tables.new queue.new blame.new.entries reasons.new.cause) }
    ensures due { IfOk result (λ did. did ≡ false → IsOver p.event out.new tables.new.running queue.new.waiting) }
    ensures put { OnOk result (HasPut p.event out.old out.new) }
    ensures handled { reasons.new.handled ≡ reasons.old.handled }
{
    match begin_next(alloc, tables, queue, blame, slots, out)? {
        Turn::Rests => Ok(false),
        Turn::Asks(_) => Ok(false),
        Turn::Refused => Ok(true),
        Turn::Went(req) => {
            if tables.running.is_none() {
                reasons.logged = Some(req);
            }
            reasons.follow(Some(req));
            Ok(true)
        }
    }
}

/// The traversal that runs ends, or, where none runs, the next step has its turn, where that is due; not that of a traversal that is to ask somebody before it begins. Answers whether one had a turn; else nothing is put out.
pub fn take_turn(
    alloc: Global,
    tables: &mut Tables,
    queue: &mut MoveQueue,
    blame: &mut IndexMap<StateId, ReqId>,
    slots: &IndexMap<DocId, u8>,
    out: &mut Out,
    reasons: &mut Reasons,
) -> Result<bool, OutOfMemory>
    ghost p: { InPass }
    requires at { HasSettled p out.old tables.old queue.old blame.old.entries reasons.old.cause }
    requires slots { AreSlots (log_of p.event out.old) slots.now.entries }
    requires free { MayDiscardIn false p.event }
    ensures ready { IfOk result (λ did. did ≡ true → IsReady p out.new tables.new queue.new blame.new.entries reasons.new.cause) }
    ensures fewer { IfOk result (λ did. did ≡ true → turns_left tables.new.running queue.new.waiting < turns_left tables.old.running queue.old.waiting) }
    ensures turned { IfOk result (λ did. did ≡ true → HasTurned p.event out.old out.new) }
    ensures still { IfOk result (λ did. did ≡ false → out.new ≡ out.old) }
    ensures rested { IfOk result (λ did. did ≡ false → HasSettled p out.new tables.new queue.new blame.new.entries reasons.new.cause) }
    ensures due { IfOk result (λ did. did ≡ false → IsOver p.event out.new tables.new.running queue.new.waiting) }
    ensures put { OnOk result (HasPut p.event out.old out.new) }
    ensures handled { reasons.new.handled ≡ reasons.old.handled }
{
    if tables.running.is_some() {
        return finish(alloc, tables, queue, blame, out, reasons);
    }
    begin(alloc, tables, queue, blame, slots, out, reasons)
}
