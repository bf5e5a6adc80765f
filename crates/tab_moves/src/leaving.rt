//! A navigable leaves the document that it is awake on.
ghost use Rattle.std.specs.Prelude.{◌≡◌, ◌∷◌, [], OnOk, Some};
ghost use Rattle.seen_laws.specs.InEvent.{now_of};
ghost use Rattle.tab_doors.specs.Working.{KeepsStore};
ghost use Rattle.tab_moves.specs.Moving.{AreLeftUnder, HasLeft, InLeft, IsToLeave};
ghost use Rattle.tab_passes.specs.Leaving.{HasOnlyFrozen, IsLeaving, left_then};
ghost use Rattle.tab_passes.specs.Sleepers.{docs_below};

use address::OutOfMemory;
use log_model::{Out, Why};
use std::alloc::Global;
use tab_doors::Tables;
use tab_ids::{DocId, NavId};
use tab_passes::{docs_below, freeze, freeze_each};

/// A navigable leaves the document that it is awake on, to be kept: that one is frozen, and then those that are shown below it, in the order of the walk. All of these navigables fall asleep.
pub fn freeze_left(
    alloc: Global,
    tables: &mut Tables,
    out: &mut Out,
    nav: NavId,
    doc: DocId,
    why: Why,
) -> Result<(), OutOfMemory>
    ghost l: { InLeft }
    requires leaving { IsLeaving l.moving.pass (Some l.moving.move) [] out.old tables.old }
    requires nav { l.nav ≡ nav }
    requires rest { l.left ≡ left_then (now_of l.moving.pass.event out.old) doc [] }
    requires leaves { IsToLeave l.moving tables.old.running (now_of l.moving.pass.event out.old) nav doc why }
    requires lefts { AreLeftUnder l.moving.pass.event out.old nav why }
    ensures leaving { OnOk result (IsLeaving l.moving.pass (Some l.moving.move) [] out.new tables.new) }
    ensures only { OnOk result (HasOnlyFrozen why (doc ∷ docs_below tables.old.tree nav) out.old out.new) }
    ensures left { OnOk result (HasLeft (doc ∷ docs_below tables.old.tree nav) why (now_of l.moving.pass.event out.old) (now_of l.moving.pass.event out.new) nav) }
    ensures kept { OnOk result (KeepsStore tables.old tables.new) }
{
    let below = docs_below(alloc, &tables.tree, nav)?;
    freeze(alloc, tables, out, doc, why)?;
    freeze_each(alloc, tables, out, &below, why)?;
    Ok(())
}
