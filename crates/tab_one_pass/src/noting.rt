//! For which request the documents of loads that give way are discarded.
ghost use Rattle.std.specs.Prelude.{◌≡◌, OnOk, option_map};
ghost use Rattle.apply_plan.specs.Order.{made_in};
ghost use Rattle.load_table.specs.Loads.{ongoing_load};
ghost use Rattle.tab_one_pass.specs.Noting.{AreNoted, EntriesAreNoted, entered_in, entry_noting, noted_for, noting_in, taker_in, with_noting};

use address::OutOfMemory;
use entry_store::Store;
use indexmap::IndexMap;
use load_table::LoadTable;
use tab_doors::Tables;
use tab_drops::is_bare;
use tab_ids::{DocId, NavId, ReqId, StateId};

/// The document state of a navigable's ongoing load.
fn load_state(loads: &LoadTable, nav: NavId) -> Option<StateId>
    ensures { result ≡ option_map (λ load. load.state) (ongoing_load nav loads.now) }
{
    match loads.of(nav) {
        Some(load) => Some(load.state),
        None => None,
    }
}

/// The request that took the last entries of a navigable, if it has none.
fn taker(tables: &Tables, nav: NavId) -> Option<ReqId>
    ensures { result ≡ taker_in tables.now nav }
{
    if is_bare(&tables.store, nav) {
        tables.tree.destroyed_by(nav)
    } else {
        None
    }
}

/// The request that is to be noted for the ongoing load of a navigable.
fn noted_for(tables: &Tables, by: Option<ReqId>, nav: NavId) -> Option<ReqId>
    ensures { result ≡ noted_for tables.now by nav }
{
    match by {
        Some(req) => Some(req),
        None => taker(tables, nav),
    }
}

/// The document state of that load, with this request.
fn noting(tables: &Tables, by: Option<ReqId>, nav: NavId) -> Option<(StateId, ReqId)>
    ensures { result ≡ noting_in tables.now by nav }
{
    let state = load_state(&tables.loads, nav)?;
    let req = noted_for(tables, by, nav)?;
    Some((state, req))
}

/// Notes it, if there is one.
fn note(
    tables: &Tables,
    blame: &mut IndexMap<StateId, ReqId>,
    by: Option<ReqId>,
    nav: NavId,
) -> Result<(), OutOfMemory>
    ensures { OnOk result (blame.new.entries ≡ with_noting (noting_in tables.now by nav) blame.old.entries) }
{
    match noting(tables, by, nav) {
        Some((state, req)) => {
            blame.insert(state, req)?;
        }
        None => {}
    }
    Ok(())
}

/// Notes, under the document state of each ongoing load, the request for which the load is to give way: this one, or, where none is given, that which took the last entries of its navigable, if it did.
pub fn note_loads(
    tables: &Tables,
    blame: &mut IndexMap<StateId, ReqId>,
    by: Option<ReqId>,
) -> Result<(), OutOfMemory>
    ensures { OnOk result (AreNoted tables.now by (made_in tables.now.tree) blame.old.entries blame.new.entries) }
{
    for i in 0..tables.tree.len() {
        note(tables, blame, by, tables.tree.at(i))?;
    }
    Ok(())
}

/// The document state for which a document is there, if it has an entry.
fn entered(tables: &Tables, doc: DocId) -> Option<StateId>
    ensures { result ≡ entered_in tables.now doc }
{
    let state = tables.tree.state_of(doc)?;
    if tables.store.has_state(state) {
        Some(state)
    } else {
        None
    }
}

/// Notes the request under that state, if there is one.
fn note_entry(
    tables: &Tables,
    blame: &mut IndexMap<StateId, ReqId>,
    req: ReqId,
    doc: DocId,
) -> Result<(), OutOfMemory>
    ensures { OnOk result (blame.new.entries ≡ with_noting (entry_noting tables.now req doc) blame.old.entries) }
{
    match entered(tables, doc) {
        Some(state) => {
            blame.insert(state, req)?;
        }
        None => {}
    }
    Ok(())
}

/// Notes the request, which is about to change the history, under each document state that has entries and for which a document is there: whichever has none after the change, its document is discarded for the request.
pub fn note_entries(
    tables: &Tables,
    blame: &mut IndexMap<StateId, ReqId>,
    req: ReqId,
) -> Result<(), OutOfMemory>
    ensures { OnOk result (EntriesAreNoted tables.now req blame.old.entries blame.new.entries) }
{
    let all = tables.tree.docs()?;
    for i in 0..all.len() {
        note_entry(tables, blame, req, *all.at(i))?;
    }
    Ok(())
}
