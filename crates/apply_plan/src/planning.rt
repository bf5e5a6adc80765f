//! `plan`, the next need of the walk.
ghost use Rattle.std.specs.Prelude.{◌≡◌, IfOk, drop};
ghost use Rattle.apply_plan.specs.Plans.{rest_after, first_need, planned};

use crate::need::{Need, need_of};
use crate::order::walk;
use crate::reach::{Reach, is_reached};
use address::OutOfMemory;
use entry_store::Store;
use log_model::Navs;
use nav_tree::NavTree;
use std::alloc::Global;
use tab_ids::{NavId, Step};

/// The first need among the navigables that a walk at the step visits after `after`, or among all where that is None; where the walk doesn't visit `after` there is none. A Populate is named also where such a document is being made. HTML Standard, "Apply the history step".
pub fn plan<S: Store>(
    alloc: Global,
    store: &S,
    tree: &NavTree,
    aim: Step,
    after: Option<NavId>,
) -> Result<Option<Need>, OutOfMemory>
    ensures { IfOk result (λ need. need ≡ planned (S.history store.now).rows aim.0 tree.now after) }
{
    let navs = walk(alloc, tree)?;
    let from = match after {
        Some(last) => {
            if !is_reached(store, tree, last, aim, Reach::Visited) {
                return Ok(None);
            }
            place_after(&navs, last)
        }
        None => 0,
    };
    Ok(first_from(store, tree, aim, &navs, from))
}

/// The place in the walk that follows a navigable.
fn place_after(navs: &Navs, last: NavId) -> usize
    ensures { drop result navs.now ≡ rest_after last navs.now }
{
    for i in 0..navs.len() {
        let nav = *navs.at(i);
        if nav.0 == last.0 {
            return i + 1;
        }
    }
    navs.len()
}

/// The first need from a place of the walk on.
fn first_from<S: Store>(
    store: &S,
    tree: &NavTree,
    aim: Step,
    navs: &Navs,
    from: usize,
) -> Option<Need>
    ensures { result ≡ first_need (S.history store.now).rows aim.0 tree.now (drop from navs.now) }
{
    for i in from..navs.len() {
        match need_of(store, tree, aim, *navs.at(i)) {
            Some(need) => return Some(need),
            None => {}
        }
    }
    None
}
