//! `Need`, what a navigable needs to be where a step has it.
ghost use Rattle.std.specs.Prelude.{◌≡◌};
ghost use Rattle.apply_plan.specs.Needs.{has_document, is_to_move, need_of};

use crate::reach::{Reach, has_target, is_reached, target_row};
use entry_store::Store;
use nav_tree::{Nav, NavStatus, NavTree, ReloadPhase};
use tab_ids::{EntryId, NavId, Step};

/// What a navigable needs first to be shown its target entry.
#[derive(Clone, Copy, PartialEq, Eq, Debug)]
pub enum Need {
    /// A document is to be made for the entry.
    Populate(NavId, EntryId),
    /// The document of the entry is live, as the new one of a reload or as that of the entry's document state, and is to be shown.
    Move(NavId, EntryId),
}

/// What a navigable needs at a step, where a walk from the top visits it: each navigable above it is awake on its target there. A document that is being made already counts as to be made. None where it needs nothing. It takes no memory.
pub fn need_of<S: Store>(store: &S, tree: &NavTree, aim: Step, nav: NavId) -> Option<Need>
    ensures { result ≡ need_of (S.history store.now).rows aim.0 tree.now nav }
{
    let fields = tree.nav(nav)?;
    let row = target_row(store, nav, aim)?;
    if !is_to_move(store, nav, fields, aim) || !is_reached(store, tree, nav, aim, Reach::Visited) {
        return None;
    }
    if has_document(fields.reload, tree.is_live(row.state)) {
        Some(Need::Move(nav, row.entry))
    } else {
        Some(Need::Populate(nav, row.entry))
    }
}

/// Whether there is a document to show: of a pending reload the new one, else the live one.
fn has_document(reload: ReloadPhase, live: bool) -> bool
    ensures { result ≡ has_document reload live }
{
    match reload {
        ReloadPhase::Idle => live,
        ReloadPhase::Due => false,
        ReloadPhase::Ready => true,
    }
}

/// Whether the navigable is asleep, is to be reloaded, or wasn't given its target.
fn is_to_move<S: Store>(store: &S, nav: NavId, fields: &Nav, aim: Step) -> bool
    ensures { result ≡ is_to_move (S.history store.now).rows aim.0 nav fields.now }
{
    fields.status == NavStatus::Asleep
        || fields.reload != ReloadPhase::Idle
        || !has_target(store, nav, fields, aim)
}
