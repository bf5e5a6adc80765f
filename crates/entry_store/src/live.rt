//! Which document states stay once a cut is made: those of the rows that still hang, from navigable to navigable, on the top's entries.
ghost use Rattle.std.specs.Prelude.{◌≡◌, fold, filter, take, IfOk, OnOk};
ghost use Rattle.entry_store.specs.Nested.{rows_of, outlives, has, AreHeld, is_held_by, stays, visit};

use crate::cut::Cut;
use crate::nest::Nest;
use address::OutOfMemory;
use indexmap::IndexSet;
use log_model::Row;
use std::alloc::Global;
use tab_ids::StateId;

/// Whether the row stays where these document states do.
pub fn is_staying(cut: &Cut, states: &IndexSet<StateId>, row: &Row) -> bool
    ensures { result ≡ stays cut.now states.now.keys row.now }
{
    if !cut.is_outlived_by(row) {
        return false;
    }
    match &row.owner {
        Some(owner) => states.contains(owner),
        None => true,
    }
}

// Takes in the document state of a row that stays.
fn visit_row(states: &mut IndexSet<StateId>, cut: &Cut, row: &Row) -> Result<(), OutOfMemory>
    ensures { OnOk result (states.new.keys ≡ visit cut.now states.old.keys row.now) }
{
    if is_staying(cut, states, row) {
        states.insert(row.state)?;
    }
    Ok(())
}

// Takes in those of a list of rows.
fn visit_rows(states: &mut IndexSet<StateId>, cut: &Cut, rows: &[Row]) -> Result<(), OutOfMemory>
    ensures { OnOk result (states.new.keys ≡ fold (visit cut.now) states.old.keys rows.now) }
{
    for row in rows {
        visit_row(states, cut, row)?;
    }
    Ok(())
}

// Takes in those of all rows.
fn visit_nests(states: &mut IndexSet<StateId>, cut: &Cut, nests: &[Nest]) -> Result<(), OutOfMemory>
    ensures { OnOk result (states.new.keys ≡ fold (visit cut.now) states.old.keys (rows_of nests.now)) }
{
    for nest in nests {
        visit_rows(states, cut, &nest.rows)?;
    }
    Ok(())
}

/// The document states that stay once the cut is made: exactly those of the rows that they hold.
pub fn live_states(
    alloc: Global,
    nests: &[Nest],
    cut: &Cut,
) -> Result<IndexSet<StateId>, OutOfMemory>
    ensures { IfOk result (λ states. AreHeld states.keys (filter (outlives cut.now) (rows_of nests.now))) }
{
    let mut states = IndexSet::new(alloc);
    'rounds: loop {
        let before = states.len();
        visit_nests(&mut states, cut, nests)?;
        if states.len() == before {
            return Ok(states);
        }
    }
}
