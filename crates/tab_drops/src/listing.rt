//! The navigables with an ongoing load, in the order of the loads' requests.
ghost use Rattle.std.specs.Prelude.{◌≡◌, OnOk, IfOk};
ghost use Rattle.std.specs.BTreeMap.{values};
ghost use Rattle.apply_plan.specs.Order.{made_in};
ghost use Rattle.tab_drops.specs.Listing.{AreListed, AreOwn, AreUnder, with_load};

use address::OutOfMemory;
use load_table::LoadTable;
use log_model::Navs;
use nav_tree::NavTree;
use std::alloc::Global;
use std::collections::BTreeMap;
use tab_ids::NavId;

/// Puts a navigable under the number of its load's request, if it has one.
fn put(sorted: &mut BTreeMap<u32, NavId>, loads: &LoadTable, nav: NavId) -> Result<(), OutOfMemory>
    ensures { OnOk result (sorted.new.entries ≡ with_load loads.now sorted.old.entries nav) }
{
    match loads.of(nav) {
        Some(load) => {
            sorted.insert(load.req.0, nav)?;
        }
        None => {}
    }
    Ok(())
}

/// All navigables that have loads, under the numbers of these loads' requests.
fn sorted(
    alloc: Global,
    tree: &NavTree,
    loads: &LoadTable,
) -> Result<BTreeMap<u32, NavId>, OutOfMemory>
    requires { AreOwn loads.now }
    ensures { IfOk result (λ m. AreUnder loads.now (made_in tree.now) m.entries) }
{
    let mut sorted = BTreeMap::new(alloc);
    for i in 0..tree.len() {
        put(&mut sorted, loads, tree.at(i))?;
    }
    Ok(sorted)
}

/// The navigables of the map, in its order.
fn nav_list(alloc: Global, sorted: BTreeMap<u32, NavId>) -> Result<Navs, OutOfMemory>
    ensures { IfOk result (λ navs. navs ≡ values sorted) }
{
    let mut navs = Navs::new(alloc);
    for nav in sorted.into_values() {
        navs.push(nav)?;
    }
    Ok(navs)
}

/// The navigables with an ongoing load, in the order of the loads' requests.
pub fn loading(alloc: Global, tree: &NavTree, loads: &LoadTable) -> Result<Navs, OutOfMemory>
    requires { AreOwn loads.now }
    ensures { IfOk result (λ navs. AreListed tree.now loads.now navs) }
{
    let sorted = sorted(alloc, tree, loads)?;
    // Its clause says that the numbers ascend.
    let _count = sorted.len();
    let navs = nav_list(alloc, sorted)?;
    Ok(navs)
}
