//! The stray documents, as the tables tell.
ghost use Rattle.std.specs.Prelude.{◌≡◌, IfOk, filter};
ghost use Rattle.tab_sweeps.specs.Sweeping.{is_stray_in, loads_state, stray_in};

use address::OutOfMemory;
use entry_store::Store;
use load_table::LoadTable;
use log_model::Docs;
use std::alloc::Global;
use tab_doors::Tables;
use tab_ids::{DocId, NavId, StateId};

/// Whether the ongoing load of the navigable has the document state.
fn loads_state(loads: &LoadTable, nav: NavId, state: StateId) -> bool
    ensures { result ≡ loads_state loads.now nav state }
{
    match loads.of(nav) {
        Some(load) => load.state == state,
        None => false,
    }
}

/// The state of a document that is there, where it has neither an entry nor a load.
fn stray_state(tables: &Tables, doc: DocId) -> Option<StateId>
    ensures { result ≡ stray_in tables.now doc }
{
    let nav = tables.nav_of(doc)?;
    let state = tables.tree.state_of(doc)?;
    if tables.store.has_state(state) || loads_state(&tables.loads, nav, state) {
        None
    } else {
        Some(state)
    }
}

/// Those of these documents that are stray.
pub(crate) fn strays_among(alloc: Global, tables: &Tables, docs: &Docs) -> Result<Docs, OutOfMemory>
    ensures { IfOk result (λ strays. strays ≡ filter (is_stray_in tables.now) docs.now) }
{
    let mut strays = Docs::new(alloc);
    for i in 0..docs.len() {
        let doc = *docs.at(i);
        match stray_state(tables, doc) {
            Some(_) => strays.push(doc)?,
            None => {}
        }
    }
    Ok(strays)
}
