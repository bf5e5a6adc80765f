//! A navigable leaves what it was shown, for another document.
ghost use Rattle.std.specs.Prelude.{◌≡◌, [], OnOk, Some};
ghost use Rattle.seen_facts.specs.Kept.Keeping.{kept_states};
ghost use Rattle.seen_laws.specs.InEvent.{now_of};
ghost use Rattle.tab_doors.specs.Working.{KeepsStore};
ghost use Rattle.tab_moves.specs.Showing.{IsToShow};
ghost use Rattle.tab_moves.specs.Moving.{AreLeftUnder};
ghost use Rattle.tab_moves.specs.PassedOn.{IsLeaving};
ghost use Rattle.tab_walk.specs.Cutting.{OffAreLeft};
ghost use Rattle.tab_walk.specs.Moving.{HasOnlyLeft, HasSetOff, InMove, IsPart, MayMakeRoom, MaySetOff, is_up_in, move_of};

use address::OutOfMemory;
use log_model::{Out, Why};
use nav_tree::{NavStatus, NavTree};
use std::alloc::Global;
use tab_doors::Tables;
use tab_evicts::evict;
use tab_ids::{DocId, NavId, StateId};
use tab_moves::freeze_left;

/// Whether the navigable is awake.
fn is_up(tree: &NavTree, nav: NavId) -> bool
    ensures { result ≡ is_up_in tree.now nav }
{
    match tree.nav(nav) {
        Some(fields) => match fields.status {
            NavStatus::Awake(_) => true,
            NavStatus::Lost => false,
            NavStatus::Asleep => false,
        },
        None => false,
    }
}

/// The navigable leaves the document that it was shown last: where it is awake on it, that one and those below are frozen.
pub(crate) fn set_off(
    alloc: Global,
    tables: &mut Tables,
    out: &mut Out,
    nav: NavId,
    left: DocId,
    why: Why,
) -> Result<(), OutOfMemory>
    ghost m: { InMove }
    requires leaving { IsLeaving m.pass (Some (move_of m)) [] out.old tables.old }
    requires may { MaySetOff m tables.old.running (now_of m.pass.event out.old) nav left why }
    requires lefts { AreLeftUnder m.pass.event out.old nav why }
    ensures leaving { OnOk result (IsLeaving m.pass (Some (move_of m)) [] out.new tables.new) }
    ensures off { OnOk result (HasSetOff m tables.new.running (now_of m.pass.event out.new)) }
    ensures states { OnOk result (kept_states (now_of m.pass.event out.new) ≡ kept_states (now_of m.pass.event out.old)) }
    ensures part { OnOk result (IsPart (now_of m.pass.event out.old) (now_of m.pass.event out.new) nav) }
    ensures left { OnOk result (HasOnlyLeft why out.old out.new) }
    ensures kept { OnOk result (KeepsStore tables.old tables.new) }
{
    if is_up(&tables.tree, nav) {
        freeze_left(alloc, tables, out, nav, left, why)?;
    }
    Ok(())
}

/// Where more documents would be kept than may be, the one that is kept longest is discarded, with those below it, unless it is the one that is to be shown.
pub(crate) fn make_room(
    alloc: Global,
    tables: &mut Tables,
    out: &mut Out,
    gone: Option<StateId>,
    state: StateId,
    why: Why,
) -> Result<(), OutOfMemory>
    ghost m: { InMove }
    requires leaving { IsLeaving m.pass (Some (move_of m)) [] out.old tables.old }
    requires may { MayMakeRoom m tables.old.running tables.old.kept.keep (now_of m.pass.event out.old) gone state why }
    requires off { OffAreLeft m.pass.event out.old why }
    ensures leaving { OnOk result (IsLeaving m.pass (Some (move_of m)) [] out.new tables.new) }
    ensures shows { OnOk result (IsToShow (Some (move_of m)) tables.new.running tables.new.kept.keep (now_of m.pass.event out.new) m.nav m.doc m.entry m.cause) }
    ensures part { OnOk result (IsPart (now_of m.pass.event out.old) (now_of m.pass.event out.new) m.nav) }
    ensures left { OnOk result (HasOnlyLeft why out.old out.new) }
    ensures kept { OnOk result (KeepsStore tables.old tables.new) }
{
    match gone {
        Some(gone) => {
            if gone.0 != state.0 {
                evict(alloc, tables, out, gone, why)?;
            }
        }
        None => {}
    }
    Ok(())
}
