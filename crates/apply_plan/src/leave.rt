//! `leaving`, the documents that a traversal leaves.
ghost use Rattle.std.specs.Prelude.{◌≡◌, IfOk, filter_map};
ghost use Rattle.apply_plan.specs.Leaving.{stays_on, leaving_of, leaving_in};

use crate::order::walk;
use crate::reach::{Reach, is_reached, target_row};
use address::OutOfMemory;
use entry_store::Store;
use log_model::{Docs, Navs};
use nav_tree::{NavStatus, NavTree};
use std::alloc::Global;
use tab_ids::{DocId, NavId, Step};

/// The documents that a traversal to the step leaves, in the order of the walk: those of the awake navigables that aren't shown there, or whose target there has another document state. HTML Standard, "Checking if unloading is canceled".
pub fn leaving<S: Store>(
    alloc: Global,
    store: &S,
    tree: &NavTree,
    goal: Step,
) -> Result<Docs, OutOfMemory>
    ensures { IfOk result (λ docs. docs ≡ leaving_in (S.history store.now).rows goal.0 tree.now) }
{
    let navs = walk(alloc, tree)?;
    leaving_among(alloc, store, tree, goal, &navs)
}

/// The documents of these navigables that are left.
fn leaving_among<S: Store>(
    alloc: Global,
    store: &S,
    tree: &NavTree,
    goal: Step,
    navs: &Navs,
) -> Result<Docs, OutOfMemory>
    ensures { IfOk result (λ docs. docs ≡ filter_map (leaving_of (S.history store.now).rows goal.0 tree.now) navs.now) }
{
    let mut docs = Docs::new(alloc);
    for i in 0..navs.len() {
        match leaving_of(store, tree, goal, *navs.at(i)) {
            Some(doc) => docs.push(doc)?,
            None => {}
        }
    }
    Ok(docs)
}

/// The navigable's document, where the navigable is awake and leaves it.
fn leaving_of<S: Store>(store: &S, tree: &NavTree, goal: Step, nav: NavId) -> Option<DocId>
    ensures { result ≡ leaving_of (S.history store.now).rows goal.0 tree.now nav }
{
    let fields = tree.nav(nav)?;
    match fields.status {
        NavStatus::Awake(doc) => {
            if stays_on(store, tree, goal, nav, doc) {
                None
            } else {
                Some(doc)
            }
        }
        NavStatus::Lost => None,
        NavStatus::Asleep => None,
    }
}

/// Whether the navigable is shown at the step, and the document is the live one of its target's document state.
fn stays_on<S: Store>(store: &S, tree: &NavTree, goal: Step, nav: NavId, doc: DocId) -> bool
    ensures { result ≡ stays_on (S.history store.now).rows goal.0 tree.now nav doc }
{
    match target_row(store, nav, goal) {
        Some(row) => match tree.doc_of(row.state) {
            Some(place) => place.doc == doc && is_reached(store, tree, nav, goal, Reach::Shown),
            None => false,
        },
        None => false,
    }
}
