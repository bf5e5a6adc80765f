//! Taking out the rows that go.
ghost use Rattle.std.specs.Prelude.{◌≡◌, filter};
ghost use Rattle.entry_store.specs.Nested.{rows_of, stays};

use crate::cut::Cut;
use crate::live::is_staying;
use crate::nest::Nest;
use indexmap::IndexSet;
use log_model::Row;
use tab_ids::StateId;

/// Takes out the rows that the cut takes out, and those under document states other than these.
pub fn sweep(nests: &mut Vec<Nest>, cut: &Cut, states: &IndexSet<StateId>)
    ensures { rows_of nests.new.items ≡ filter (stays cut.now states.now.keys) (rows_of nests.old.items) }
{
    sweep_nests(nests, cut, states);
    drop_empty(nests);
}

// Takes them out of each list.
fn sweep_nests(nests: &mut [Nest], cut: &Cut, states: &IndexSet<StateId>)
    ensures { rows_of nests.new ≡ filter (stays cut.now states.now.keys) (rows_of nests.old) }
{
    for nest in nests.iter_mut() {
        sweep_rows(&mut nest.rows, cut, states);
    }
}

// Takes them out of one list.
fn sweep_rows(rows: &mut Vec<Row>, cut: &Cut, states: &IndexSet<StateId>)
    ensures { rows.new.items ≡ filter (stays cut.now states.now.keys) rows.old.items }
{
    rows.retain(|row| is_staying(cut, states, row));
}

// Drops the lists that have no row left.
fn drop_empty(nests: &mut Vec<Nest>)
    ensures { rows_of nests.new.items ≡ rows_of nests.old.items }
{
    nests.retain(|nest| !nest.rows.is_empty());
}
