//! `settled`, whether all stand.
ghost use Rattle.std.specs.Prelude.{◌≡◌};
ghost use Rattle.apply_plan.specs.Standing.{has_arrived, is_standing, stands_if_wanted, are_settled};

use crate::reach::{Reach, has_target, is_reached};
use entry_store::Store;
use nav_tree::{Nav, NavStatus, NavTree, ReloadPhase};
use tab_ids::{NavId, Step};

/// Whether each navigable that is shown at the step, and isn't below a known lost one, stands there: it was given its target, no reload of it is pending, and it is known lost, or awake with its last Activate finished and told. It takes no memory.
pub fn settled<S: Store>(store: &S, tree: &NavTree, aim: Step) -> bool
    ensures { result ≡ are_settled (S.history store.now).rows aim.0 tree.now }
{
    for i in 0..tree.len() {
        if !stands_if_wanted(store, tree, aim, tree.at(i)) {
            return false;
        }
    }
    true
}

/// Whether the navigable stands, or isn't to stand.
fn stands_if_wanted<S: Store>(store: &S, tree: &NavTree, aim: Step, nav: NavId) -> bool
    ensures { result ≡ stands_if_wanted (S.history store.now).rows aim.0 tree.now nav }
{
    if !is_reached(store, tree, nav, aim, Reach::Wanted) {
        return true;
    }
    match tree.nav(nav) {
        Some(fields) => is_standing(store, nav, fields, aim),
        None => false,
    }
}

/// Whether the navigable stands.
fn is_standing<S: Store>(store: &S, nav: NavId, fields: &Nav, aim: Step) -> bool
    ensures { result ≡ is_standing (S.history store.now).rows aim.0 nav fields.now }
{
    has_target(store, nav, fields, aim) && fields.reload == ReloadPhase::Idle && has_arrived(fields)
}

/// Whether the navigable is known lost, or shown its document.
fn has_arrived(fields: &Nav) -> bool
    ensures { result ≡ has_arrived fields.now }
{
    match fields.status {
        NavStatus::Awake(_) => fields.stands,
        NavStatus::Lost => true,
        NavStatus::Asleep => false,
    }
}
