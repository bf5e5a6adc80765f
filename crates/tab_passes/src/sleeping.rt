//! Who falls asleep with a document that is left.
ghost use Rattle.std.specs.Prelude.{◌≡◌, ◌++◌, OnOk, IfOk, filter, find, not};
ghost use Rattle.apply_plan.specs.Needs.{is_asleep};
ghost use Rattle.apply_plan.specs.Order.{made_in, parent_in};
ghost use Rattle.log_model.specs.Equal.{holds};
ghost use Rattle.nav_tree.specs.Tree.{nav_of};
ghost use Rattle.tab_passes.specs.Sleepers.{falls_below, is_below_in, sleepers_in, wakes_on};

use address::OutOfMemory;
use log_model::Navs;
use nav_tree::{NavStatus, NavTree};
use std::alloc::Global;
use tab_ids::{DocId, NavId};

/// Whether the navigable is awake on the document.
fn wakes_on(tree: &NavTree, doc: DocId, nav: NavId) -> bool
    ensures { result ≡ wakes_on tree.now doc nav }
{
    match tree.nav(nav) {
        Some(fields) => fields.status == NavStatus::Awake(doc),
        None => false,
    }
}

/// The navigable that is awake on the document.
fn shower(tree: &NavTree, doc: DocId) -> Option<NavId>
    ensures { result ≡ find (wakes_on tree.now doc) (made_in tree.now) }
{
    for i in 0..tree.len() {
        let nav = tree.at(i);
        if wakes_on(tree, doc, nav) {
            return Some(nav);
        }
    }
    None
}

/// The navigable to which one was added.
fn parent_of(tree: &NavTree, nav: NavId) -> Option<NavId>
    ensures { result ≡ parent_in tree.now nav }
{
    tree.nav(nav)?.parent
}

/// Whether one of those above the navigable is this one.
pub(crate) fn is_below(tree: &NavTree, top: NavId, nav: NavId) -> bool
    ensures { result ≡ is_below_in tree.now top nav }
{
    let mut at = nav;
    for i in 0..tree.len() {
        match parent_of(tree, at) {
            Some(parent) => {
                if parent == top {
                    return true;
                }
                at = parent;
            }
            None => return false,
        }
    }
    false
}

/// Whether the navigable isn't asleep.
fn is_up(tree: &NavTree, nav: NavId) -> bool
    ensures { result ≡ not (holds (λ n. is_asleep n.status) (nav_of nav tree.now)) }
{
    match tree.nav(nav) {
        Some(fields) => fields.status != NavStatus::Asleep,
        None => true,
    }
}

/// Whether the navigable is below this one, and isn't asleep.
fn falls_below(tree: &NavTree, top: NavId, nav: NavId) -> bool
    ensures { result ≡ falls_below tree.now top nav }
{
    is_below(tree, top, nav) && is_up(tree, nav)
}

/// The navigables below this one that aren't asleep, after those that are in the list.
fn push_below(tree: &NavTree, top: NavId, navs: &mut Navs) -> Result<(), OutOfMemory>
    ensures { OnOk result (navs.new ≡ navs.old ++ filter (falls_below tree.now top) (made_in tree.now)) }
{
    for i in 0..tree.len() {
        let nav = tree.at(i);
        if falls_below(tree, top, nav) {
            navs.push(nav)?;
        }
    }
    Ok(())
}

/// Who falls asleep with the document: who is awake on it, and who is below that one and not asleep.
pub(crate) fn sleepers(alloc: Global, tree: &NavTree, doc: DocId) -> Result<Navs, OutOfMemory>
    ensures { IfOk result (λ navs. navs ≡ sleepers_in tree.now doc) }
{
    let mut navs = Navs::new(alloc);
    match shower(tree, doc) {
        Some(nav) => {
            navs.push(nav)?;
            push_below(tree, nav, &mut navs)?;
        }
        None => {}
    }
    Ok(navs)
}
