//! What the lists answer in an order of its own: the rows put by navigable and step, and the children of a document state.
ghost use Rattle.std.specs.Prelude.{◌≡◌, [], map, fold, IfOk, OnOk};
ghost use Rattle.log_model.specs.Soundness.{is_owned_by};
ghost use Rattle.log_model.specs.History.{with_step};
ghost use Rattle.std.specs.BTreeMap.{values};
ghost use Rattle.log_model.specs.Order.{ordered};
ghost use Rattle.entry_store.specs.Store.{children_of};
ghost use Rattle.entry_store.specs.Kept.{history_in, IsKept};
ghost use Rattle.entry_store.specs.Nested.{rows_of};
ghost use Rattle.entry_store.specs.Reading.{child_of, placed_row};

use crate::nest::Nest;
use crate::nested::Nested;
use address::OutOfMemory;
use log_model::{Navs, Row, Rows};
use std::alloc::Global;
use std::collections::{BTreeMap, BTreeSet};
use tab_ids::{NavId, StateId};

/// All rows, by navigable and then by step.
pub fn rows_in_order(lists: &Nested) -> Result<Rows, OutOfMemory>
    requires kept { IsKept (history_in lists.now) lists.now.used.keys }
    ensures { IfOk result (λ rows. rows ≡ ordered (history_in lists.now).rows) }
{
    let alloc = *lists.nests.allocator();
    let sorted = sorted_rows(alloc, &lists.nests)?;
    let rows = row_list(alloc, sorted)?;
    Ok(rows)
}

// The rows of the map, in its order.
fn row_list(alloc: Global, sorted: BTreeMap<(u32, u32), Row>) -> Result<Rows, OutOfMemory>
    ensures { IfOk result (λ rows. rows ≡ values sorted) }
{
    let mut rows = Rows::new(alloc);
    for row in sorted.into_values() {
        rows.push(row)?;
    }
    Ok(rows)
}

// The rows under navigable and step.
fn sorted_rows(alloc: Global, nests: &[Nest]) -> Result<BTreeMap<(u32, u32), Row>, OutOfMemory>
    ensures { IfOk result (λ sorted. sorted.entries ≡ fold placed_row [] (rows_of nests.now)) }
{
    let mut sorted = BTreeMap::new(alloc);
    for nest in nests {
        sort_list(&mut sorted, &nest.rows)?;
    }
    Ok(sorted)
}

// Takes in those of one list.
fn sort_list(sorted: &mut BTreeMap<(u32, u32), Row>, rows: &[Row]) -> Result<(), OutOfMemory>
    ensures { OnOk result (sorted.new.entries ≡ fold placed_row sorted.old.entries rows.now) }
{
    for row in rows {
        sort_row(sorted, row)?;
    }
    Ok(())
}

// Takes in one row.
fn sort_row(sorted: &mut BTreeMap<(u32, u32), Row>, row: &Row) -> Result<(), OutOfMemory>
    ensures { OnOk result (sorted.new.entries ≡ placed_row sorted.old.entries row.now) }
{
    let copy = row.copy()?;
    sorted.insert((row.nav.0, row.step.0), copy)?;
    Ok(())
}

/// The navigables whose entries hang on the document state, in order of number.
pub fn children_in(alloc: Global, nests: &[Nest], state: StateId) -> Result<Navs, OutOfMemory>
    ensures { IfOk result (λ navs. navs ≡ children_of state (rows_of nests.now)) }
{
    let numbers = child_numbers_in(alloc, nests, state)?;
    let navs = nav_list(alloc, &numbers)?;
    Ok(navs)
}

// The navigables with these numbers.
fn nav_list(alloc: Global, numbers: &BTreeSet<u32>) -> Result<Navs, OutOfMemory>
    ensures { IfOk result (λ navs. navs ≡ map (λ number. record { 0 = number }) numbers.now.keys) }
{
    let mut navs = Navs::new(alloc);
    for number in numbers.iter() {
        navs.push(NavId(*number))?;
    }
    Ok(navs)
}

// Their numbers.
fn child_numbers_in(
    alloc: Global,
    nests: &[Nest],
    state: StateId,
) -> Result<BTreeSet<u32>, OutOfMemory>
    ensures { IfOk result (λ numbers. numbers.keys ≡ fold (child_of state) [] (rows_of nests.now)) }
{
    let mut numbers = BTreeSet::new(alloc);
    for nest in nests {
        note_children(&mut numbers, &nest.rows, state)?;
    }
    Ok(numbers)
}

// Takes in those of one list.
fn note_children(
    numbers: &mut BTreeSet<u32>,
    rows: &[Row],
    state: StateId,
) -> Result<(), OutOfMemory>
    ensures { OnOk result (numbers.new.keys ≡ fold (child_of state) numbers.old.keys rows.now) }
{
    for row in rows {
        note_child(numbers, row, state)?;
    }
    Ok(())
}

// Takes in that of one row, if it hangs on the document state.
fn note_child(numbers: &mut BTreeSet<u32>, row: &Row, state: StateId) -> Result<(), OutOfMemory>
    ensures { OnOk result (numbers.new.keys ≡ child_of state numbers.old.keys row.now) }
{
    if is_owned_by(row, state) {
        note_number(numbers, row.nav.0)?;
    }
    Ok(())
}

// Whether the row hangs on the document state.
fn is_owned_by(row: &Row, state: StateId) -> bool
    ensures { result ≡ is_owned_by state row.now }
{
    match &row.owner {
        Some(owner) => *owner == state,
        None => false,
    }
}

// Takes in one number.
#[tactic(auto, using(crate::proofs::StepsLeft::one_step))]
fn note_number(numbers: &mut BTreeSet<u32>, number: u32) -> Result<(), OutOfMemory>
    ensures { OnOk result (numbers.new.keys ≡ with_step number numbers.old.keys) }
{
    numbers.insert(number)?;
    Ok(())
}
