//! The traversal that waits first has its turn, and a pass may follow.
ghost use Rattle.std.specs.Prelude.{◌≡◌, [], None, OnOk, IfOk, true};
ghost use Rattle.log_model.specs.Places.{all_stand};
ghost use Rattle.seen_laws.specs.InEvent.{now_of};
ghost use Rattle.tab_begins.specs.Taking.{AreOldLoads, GoesOn, KeepsStrays};
ghost use Rattle.tab_one_pass.specs.Passing.{HasPassed};
ghost use Rattle.tab_one_pass.specs.PassedOn.{InPass, IsPassing};
ghost use Rattle.tab_applies.specs.PassedOn.{HasGone, IsFirst, IsTurning, MayGoUnasked};
ghost use Rattle.tab_begins.specs.Queueing.{are_asked_by};

use address::OutOfMemory;
use entry_store::Store;
use indexmap::IndexMap;
use leave_questions::traverse_questions;
use log_model::Out;
use std::alloc::Global;
use tab_doors::Tables;
use tab_ids::{DocId, ReqId};
use tab_turns::{begin_traversal, goal_of};

/// Whether a traversal by the delta asks somebody before it begins: a document that it leaves has an unload handler. HTML Standard, "checking if unloading is canceled".
pub(crate) fn asks_somebody(
    alloc: Global,
    tables: &Tables,
    slots: &IndexMap<DocId, u8>,
    delta: i32,
) -> Result<bool, OutOfMemory>
    ensures { IfOk result (λ asks. asks ≡ are_asked_by slots.now.entries tables.now delta) }
{
    let Some(goal) = goal_of(tables, delta) else {
        return Ok(false);
    };
    let questions = traverse_questions(alloc, &tables.store, &tables.tree, slots, goal)?;
    Ok(!questions.is_empty())
}

/// The traversal that joined first has its turn, after a pass: it is refused where its delta leads nowhere, and all is as after that pass; else it begins, asking nobody, and a pass may follow. No traversal runs, nothing is held back, and all stand at the current step. HTML Standard, "traverse the history by a delta".
pub fn take_traversal(
    tables: &mut Tables,
    out: &mut Out,
    req: ReqId,
    delta: i32,
) -> Result<(), OutOfMemory>
    ghost p: { InPass }
    requires passing { IsPassing p out.old tables.old }
    requires turning { IsTurning p.event out.old }
    requires idle { tables.old.running ≡ None }
    requires first { IsFirst (now_of p.event out.old) req delta }
    requires stand { all_stand (now_of p.event out.old) (now_of p.event out.old).history.current ≡ true }
    requires none { (now_of p.event out.old).parked ≡ [] }
    requires passed { HasPassed p.event (now_of p.event out.old) }
    requires unasked { MayGoUnasked p.event out.old req delta }
    ensures passing { OnOk result (IsPassing p out.new tables.new) }
    ensures turning { OnOk result (IsTurning p.event out.new) }
    ensures gone { OnOk result (HasGone p.event out.old out.new tables.old tables.new req delta) }
    ensures goes { OnOk result (GoesOn p.event tables.new.running (now_of p.event out.new)) }
    ensures loads { OnOk result (AreOldLoads (now_of p.event out.old) (now_of p.event out.new)) }
    ensures strays { OnOk result (KeepsStrays (now_of p.event out.old) (now_of p.event out.new)) }
{
    begin_traversal(tables, out, req, delta)?;
    Ok(())
}
