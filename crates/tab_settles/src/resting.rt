//! One pass after the other, until nothing is due.
ghost use Rattle.std.specs.Prelude.{◌≡◌, OnOk, false};
ghost use Rattle.seen_laws.specs.InEvent.{log_of};
ghost use Rattle.tab_releases.specs.Releasing.{InPass};
ghost use Rattle.slot_facts.specs.Slots.{AreSlots};
ghost use Rattle.tab_settles.specs.Settling.{HasPut, HasSettled, IsOver, IsReady, LeavesOff, MayDiscardIn};

use crate::reasons::Reasons;
use crate::turning::take_turn;
use address::OutOfMemory;
use indexmap::IndexMap;
use log_model::{Header, Out};
use move_queue::MoveQueue;
use std::alloc::Global;
use tab_doors::Tables;
use tab_ids::{DocId, ReqId, StateId};
use tab_releases::pass;

/// Brings the tab to rest: loads give way, stray documents are discarded, who needs it is shown a document or has one made, who is awake is told length and index; the traversal that runs ends where all stand, with what was held back for it, and the next step of the queue has its turn; then once more, until nothing is due. A traversal that is to ask somebody before it begins waits on: there the tab rests, too. `slots` has the slots of the unload handlers. Not for events in which a traversal is in its unload check. HTML Standard, "apply the history step" and "session history traversal queue".
pub fn settle(
    alloc: Global,
    header: &Header,
    tables: &mut Tables,
    queue: &mut MoveQueue,
    blame: &mut IndexMap<StateId, ReqId>,
    slots: &IndexMap<DocId, u8>,
    out: &mut Out,
    reasons: &mut Reasons,
) -> Result<(), OutOfMemory>
    ghost p: { InPass }
    requires header { header.now ≡ p.event.header }
    requires ready { IsReady p out.old tables.old queue.old blame.old.entries reasons.old.cause }
    requires slots { AreSlots (log_of p.event out.old) slots.now.entries }
    requires free { MayDiscardIn false p.event }
    ensures settled { OnOk result (HasSettled p out.new tables.new queue.new blame.new.entries reasons.new.cause) }
    ensures due { OnOk result (IsOver p.event out.new tables.new.running queue.new.waiting) }
    ensures put { OnOk result (HasPut p.event out.old out.new) }
    ensures off { OnOk result (LeavesOff p.event out.old out.new) }
    ensures handled { OnOk result (reasons.new.handled ≡ reasons.old.handled) }
{
    'passes: loop {
        let (cause, tells) = (reasons.cause, reasons.tells());
        pass(alloc, header, tables, blame, out, cause, tells)?;
        let had = take_turn(alloc, tables, queue, blame, slots, out, reasons)?;
        if !had {
            return Ok(());
        }
    }
}
