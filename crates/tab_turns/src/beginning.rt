//! The traversal that waits first has its turn.
ghost use Rattle.std.specs.Prelude.{◌≡◌, [], None, OnOk, true, option_map};
ghost use Rattle.log_model.specs.Places.{all_stand};
ghost use Rattle.seen_laws.specs.InEvent.{now_of};
ghost use Rattle.step_index.specs.Held.{history_held};
ghost use Rattle.tab_facts.specs.FrameWhole.Tab.{AreAwakeWithRows};
ghost use Rattle.tab_passes.specs.Passing.{InPass, IsPassing};
ghost use Rattle.tab_turns.specs.Beginning.{HasGone, IsFirst, MayGoUnasked, step_by};
ghost use Rattle.tab_turns.specs.Turning.{IsTurning};

use address::OutOfMemory;
use entry_store::Store;
use log_model::Out;
use tab_doors::Tables;
use tab_ids::{ReqId, Step};

/// The used step that a delta leads to from the current one.
pub fn goal_of(tables: &Tables, delta: i32) -> Option<Step>
    ensures { option_map (λ step. step.0) result ≡ step_by (history_held tables.now.store) delta }
{
    let current = tables.store.current();
    let (_, index) = tables.store.length_index(current);
    let place = i64::from(index) + i64::from(delta);
    if place < 0 {
        return None;
    }
    tables.store.step_of(place as usize)
}

/// The traversal that joined first is refused where its delta leads nowhere, else it begins, with the used step that it leads to; it asks nobody. No traversal runs, nothing is held back, all stand at the current step, and whoever is awake has an entry. HTML Standard, "traverse the history by a delta".
pub fn begin_traversal(
    tables: &mut Tables,
    out: &mut Out,
    req: ReqId,
    delta: i32,
) -> Result<(), OutOfMemory>
    ghost p: { InPass }
    requires passing { IsPassing p out.old tables.old }
    requires turning { IsTurning p.event out.old }
    requires idle { tables.old.running ≡ None }
    requires first { IsFirst (now_of p.event out.old) req delta }
    requires stand { all_stand (now_of p.event out.old) (now_of p.event out.old).history.current ≡ true }
    requires none { (now_of p.event out.old).parked ≡ [] }
    requires rows { AreAwakeWithRows (now_of p.event out.old) }
    requires unasked { MayGoUnasked p.event out.old req delta }
    ensures passing { OnOk result (IsPassing p out.new tables.new) }
    ensures turning { OnOk result (IsTurning p.event out.new) }
    ensures gone { OnOk result (HasGone p.event out.old out.new tables.old tables.new req delta) }
{
    match goal_of(tables, delta) {
        None => {
            tables.refuse(out, req)?;
            Ok(())
        }
        Some(goal) => {
            tables.begin(out, req, goal)?;
            Ok(())
        }
    }
}
