//! The documents below a navigable that are shown.
ghost use Rattle.std.specs.Prelude.{◌≡◌, IfOk, filter_map};
ghost use Rattle.apply_plan.specs.Order.{walk_of};
ghost use Rattle.tab_passes.specs.Sleepers.{doc_below, docs_below, doc_on};

use crate::sleeping::is_below;
use address::OutOfMemory;
use apply_plan::walk;
use log_model::{Docs, Navs};
use nav_tree::{NavStatus, NavTree};
use std::alloc::Global;
use tab_ids::{DocId, NavId};

/// The document that the navigable is awake on: the active document of a navigable that is shown. HTML Standard, "active document".
pub fn doc_on(tree: &NavTree, nav: NavId) -> Option<DocId>
    ensures { result ≡ doc_on tree.now nav }
{
    match tree.nav(nav)?.status {
        NavStatus::Awake(doc) => Some(doc),
        NavStatus::Lost => None,
        NavStatus::Asleep => None,
    }
}

/// The document that it is awake on, where it is below the other navigable.
fn doc_below(tree: &NavTree, top: NavId, nav: NavId) -> Option<DocId>
    ensures { result ≡ doc_below tree.now top nav }
{
    if is_below(tree, top, nav) {
        doc_on(tree, nav)
    } else {
        None
    }
}

/// The documents of those of these navigables that are below one.
fn docs_among(alloc: Global, tree: &NavTree, top: NavId, navs: &Navs) -> Result<Docs, OutOfMemory>
    ensures { IfOk result (λ docs. docs ≡ filter_map (doc_below tree.now top) navs.now) }
{
    let mut docs = Docs::new(alloc);
    for i in 0..navs.len() {
        match doc_below(tree, top, *navs.at(i)) {
            Some(doc) => docs.push(doc)?,
            None => {}
        }
    }
    Ok(docs)
}

/// The documents that the navigables below this one are awake on, in the order of the walk.
pub fn docs_below(alloc: Global, tree: &NavTree, top: NavId) -> Result<Docs, OutOfMemory>
    ensures { IfOk result (λ docs. docs ≡ docs_below tree.now top) }
{
    let navs = walk(alloc, tree)?;
    docs_among(alloc, tree, top, &navs)
}
