//! `walk`, the navigables in the order of a walk from the top down.
ghost use Rattle.std.specs.Prelude.{◌≡◌, OnOk, IfOk, ◌∷◌, length};
ghost use Rattle.std.specs.BTreeMap.{insert_entry, values};
ghost use Rattle.apply_plan.specs.Order.{parent_in, rest, way_cmp, way_in, keyed, sorted_in, made_in, walk_of};

use address::OutOfMemory;
use log_model::Navs;
use nav_tree::NavTree;
use std::alloc::Global;
use std::collections::BTreeMap;
use tab_ids::NavId;

/// The navigable to which one was added.
fn parent_of(tree: &NavTree, nav: NavId) -> Option<NavId>
    ensures { result ≡ parent_in tree.now nav }
{
    tree.nav(nav)?.parent
}

/// Puts one navigable in its place.
fn put(sorted: &mut BTreeMap<Vec<u32>, NavId>, way: Vec<u32>, nav: NavId) -> Result<(), OutOfMemory>
    ensures { OnOk result (sorted.new.entries ≡ insert_entry way_cmp sorted.old.entries way nav) }
{
    sorted.insert(way, nav)?;
    Ok(())
}

/// The numbers of the navigable and of those above it, from itself up.
fn ups(alloc: Global, tree: &NavTree, nav: NavId) -> Result<Vec<u32>, OutOfMemory>
    ensures { IfOk result (λ way. way.items ≡ nav.0 ∷ rest (length tree.now.navs) tree.now nav) }
{
    let mut way = Vec::new(alloc);
    way.push(nav.0)?;
    let mut at = nav;
    for up in 0..tree.len() {
        match parent_of(tree, at) {
            Some(parent) => {
                way.push(parent.0)?;
                at = parent;
            }
            None => return Ok(way),
        }
    }
    Ok(way)
}

/// The same from the top down.
fn way_of(alloc: Global, tree: &NavTree, nav: NavId) -> Result<Vec<u32>, OutOfMemory>
    ensures { IfOk result (λ way. way.items ≡ way_in tree.now nav) }
{
    let mut way = ups(alloc, tree, nav)?;
    way.reverse();
    Ok(way)
}

/// All navigables under their ways from the top, which are compared number by number.
fn sorted(alloc: Global, tree: &NavTree) -> Result<BTreeMap<Vec<u32>, NavId>, OutOfMemory>
    ensures { IfOk result (λ m. keyed m.entries ≡ sorted_in tree.now (made_in tree.now)) }
{
    let mut sorted = BTreeMap::new(alloc);
    let count = tree.len();
    for i in 0..count {
        let nav = tree.at(count - 1 - i);
        let way = way_of(alloc, tree, nav)?;
        put(&mut sorted, way, nav)?;
    }
    Ok(sorted)
}

/// The navigables of the map, in its order.
fn nav_list(alloc: Global, sorted: BTreeMap<Vec<u32>, NavId>) -> Result<Navs, OutOfMemory>
    ensures { IfOk result (λ navs. navs ≡ values sorted) }
{
    let mut navs = Navs::new(alloc);
    for nav in sorted.into_values() {
        navs.push(nav)?;
    }
    Ok(navs)
}

/// All navigables ever made, in the order of the walk: each before those below it, and children in the order of their numbers.
pub fn walk(alloc: Global, tree: &NavTree) -> Result<Navs, OutOfMemory>
    ensures { IfOk result (λ navs. navs ≡ walk_of tree.now) }
{
    let sorted = sorted(alloc, tree)?;
    let navs = nav_list(alloc, sorted)?;
    Ok(navs)
}
