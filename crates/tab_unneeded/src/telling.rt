//! Whether a document that was just made is needed, as the tables tell.
ghost use Rattle.std.specs.Prelude.{◌≡◌, is_some};
ghost use Rattle.tab_sweeps.specs.Sweeping.{loads_state, unneeded_in};
ghost use Rattle.tab_unneeded.specs.Telling.{is_unneeded_in};

use entry_store::Store;
use load_table::LoadTable;
use tab_doors::Tables;
use tab_ids::{DocId, NavId, StateId};

/// Whether the ongoing load of the navigable has the document state.
fn loads_state(loads: &LoadTable, nav: NavId, state: StateId) -> bool
    ensures { result ≡ loads_state loads.now nav state }
{
    match loads.of(nav) {
        Some(load) => load.state == state,
        None => false,
    }
}

/// Whether the state has neither an entry nor the ongoing load of the navigable.
fn is_free(tables: &Tables, nav: NavId, state: StateId) -> bool
    ensures { result ≡ is_some (unneeded_in tables.now nav state) }
{
    if tables.store.has_state(state) || loads_state(&tables.loads, nav, state) {
        false
    } else {
        true
    }
}

/// Whether nothing needs the document that was made for a state: the state has neither an entry nor the ongoing load of the document's navigable.
pub fn is_unneeded(tables: &Tables, doc: DocId, state: StateId) -> bool
    ensures { result ≡ is_unneeded_in tables.now doc state }
{
    match tables.nav_of(doc) {
        Some(nav) => is_free(tables, nav, state),
        None => false,
    }
}
