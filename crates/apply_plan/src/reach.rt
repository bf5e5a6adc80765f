//! `Reach`, which navigables a walk from the top reaches.
ghost use Rattle.std.specs.Prelude.{◌≡◌, Some, length, option_copied};
ghost use Rattle.log_model.specs.History.{target_entry};
ghost use Rattle.log_model.specs.Places.{targets_state};
ghost use Rattle.apply_plan.specs.Reaches.{has_target, leads_on, way_up, is_reached_within, is_reached};

use entry_store::Store;
use log_model::Row;
use nav_tree::{Nav, NavStatus, NavTree};
use tab_ids::{NavId, StateId, Step};

/// Below which navigables the walk goes on. It always goes on only where the lower one hangs on the document state of the upper one's target.
#[derive(Clone, Copy, PartialEq, Eq, Debug)]
pub enum Reach {
    /// Below those that are awake on their target.
    Visited,
    /// Below those that aren't known lost.
    Wanted,
    /// Below all.
    Shown,
}

/// The row of the navigable's target entry at a step.
pub fn target_row<S: Store>(store: &S, nav: NavId, step: Step) -> Option<&Row>
    ensures { option_copied result ≡ target_entry (S.history store.now).rows nav step.0 }
{
    match store.target(nav, step) {
        Some(entry) => store.row(entry),
        None => None,
    }
}

/// Whether the navigable was given its target at a step.
pub fn has_target<S: Store>(store: &S, nav: NavId, fields: &Nav, step: Step) -> bool
    ensures { result ≡ has_target (S.history store.now).rows step.0 nav fields.now }
{
    match target_row(store, nav, step) {
        Some(row) => match fields.given {
            Some(given) => row.entry == given,
            None => false,
        },
        None => false,
    }
}

/// Whether the navigable's target at a step has the document state.
fn targets_state<S: Store>(store: &S, nav: NavId, state: StateId, step: Step) -> bool
    ensures { result ≡ targets_state (S.history store.now).rows step.0 nav state }
{
    match target_row(store, nav, step) {
        Some(row) => row.state == state,
        None => false,
    }
}

/// Whether the walk goes on below the navigable.
fn leads_on<S: Store>(store: &S, nav: NavId, fields: &Nav, step: Step, reach: Reach) -> bool
    ensures { result ≡ leads_on reach (S.history store.now).rows step.0 nav fields.now }
{
    match reach {
        Reach::Visited => match fields.status {
            NavStatus::Awake(_) => has_target(store, nav, fields, step),
            NavStatus::Lost => false,
            NavStatus::Asleep => false,
        },
        Reach::Wanted => match fields.status {
            NavStatus::Awake(_) => true,
            NavStatus::Lost => false,
            NavStatus::Asleep => true,
        },
        Reach::Shown => true,
    }
}

/// The navigable from which the walk comes down to this one, where it comes there.
fn way_up<S: Store>(
    store: &S,
    tree: &NavTree,
    nav: NavId,
    step: Step,
    reach: Reach,
) -> Option<NavId>
    ensures { result ≡ way_up reach (S.history store.now).rows step.0 tree.now nav }
{
    let fields = tree.nav(nav)?;
    let parent = fields.parent?;
    let owner = fields.owner?;
    let above = tree.nav(parent)?;
    if targets_state(store, parent, owner, step) && leads_on(store, parent, above, step, reach) {
        Some(parent)
    } else {
        None
    }
}

/// Whether the top is reached by going up from the navigable.
fn is_below_top<S: Store>(store: &S, tree: &NavTree, nav: NavId, step: Step, reach: Reach) -> bool
    ensures { result ≡ is_reached_within (length tree.now.navs) reach (S.history store.now).rows step.0 tree.now (Some nav) }
{
    let mut at = nav;
    for up in 0..tree.len() {
        if at.0 == 0 {
            return true;
        }
        match way_up(store, tree, at, step, reach) {
            Some(parent) => at = parent,
            None => return false,
        }
    }
    at.0 == 0
}

/// Whether the walk reaches the navigable, which then has a target there.
pub fn is_reached<S: Store>(store: &S, tree: &NavTree, nav: NavId, step: Step, reach: Reach) -> bool
    ensures { result ≡ is_reached reach (S.history store.now).rows step.0 tree.now nav }
{
    match store.target(nav, step) {
        Some(_) => is_below_top(store, tree, nav, step, reach),
        None => false,
    }
}
