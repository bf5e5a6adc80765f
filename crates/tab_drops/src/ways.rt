//! What the tables tell of the way up from a navigable.
ghost use Rattle.std.specs.Prelude.{◌≡◌};
ghost use Rattle.apply_plan.specs.Order.{parent_in};
ghost use Rattle.step_index.specs.Held.{history_held};
ghost use Rattle.tab_doors.specs.Dues.{has_none};
ghost use Rattle.tab_drops.specs.Ways.{is_needing_in, is_unsettled_in};
ghost use Rattle.tab_moves.specs.PassedOn.{is_below_in};

use apply_plan::need_of;
use entry_store::Store;
use nav_tree::NavTree;
use step_index::StepIndex;
use tab_doors::Tables;
use tab_ids::{NavId, Step};
use tab_passes::aim;

/// Whether the walk visits the navigable at the aim, and it needs something.
fn is_needing(tables: &Tables, nav: NavId) -> bool
    ensures { result ≡ is_needing_in tables.now nav }
{
    need_of(&tables.store, &tables.tree, aim(tables), nav).is_some()
}

/// The navigable to which one was added.
fn parent_of(tree: &NavTree, nav: NavId) -> Option<NavId>
    ensures { result ≡ parent_in tree.now nav }
{
    tree.nav(nav)?.parent
}

/// Whether the walk visits the navigable, or one of those above it, at the aim, and it needs something.
pub fn is_unsettled(tables: &Tables, nav: NavId) -> bool
    ensures { result ≡ is_unsettled_in tables.now nav }
{
    let mut at = nav;
    for i in 0..tables.tree.len() {
        if is_needing(tables, at) {
            return true;
        }
        match parent_of(&tables.tree, at) {
            Some(parent) => at = parent,
            None => return false,
        }
    }
    is_needing(tables, at)
}

/// Whether one of those above the navigable is this one.
pub fn is_below(tree: &NavTree, top: NavId, nav: NavId) -> bool
    ensures { result ≡ is_below_in tree.now top nav }
{
    let mut at = nav;
    for i in 0..tree.len() {
        match parent_of(tree, at) {
            Some(parent) => {
                if parent == top {
                    return true;
                }
                at = parent;
            }
            None => return false,
        }
    }
    false
}

/// Whether the navigable has no entry at the last step that there may be.
pub fn is_bare(store: &StepIndex, nav: NavId) -> bool
    ensures { result ≡ has_none (history_held store.now).rows nav }
{
    store.target(nav, Step(4294967295)).is_none()
}
