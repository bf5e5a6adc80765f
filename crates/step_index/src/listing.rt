//! What lists the rows: all of them in order, and the children of a document state.
ghost use Rattle.std.specs.Prelude.{◌≡◌, [], ◌++◌, map, fold, IfOk, OnOk};
ghost use Rattle.log_model.specs.Soundness.{is_owned_by};
ghost use Rattle.log_model.specs.History.{with_step};
ghost use Rattle.log_model.specs.Order.{ordered};
ghost use Rattle.entry_store.specs.Store.{children_of};
ghost use Rattle.entry_store.specs.Reading.{child_of};
ghost use Rattle.step_index.specs.Tracks.{rows_of, AreTracks};

use crate::track::Track;
use address::OutOfMemory;
use log_model::{Navs, Row, Rows};
use std::alloc::Global;
use std::collections::BTreeSet;
use tab_ids::{NavId, StateId};

/// All rows, by navigable and then by step.
pub fn rows_in_order(alloc: Global, tracks: &[Track]) -> Result<Rows, OutOfMemory>
    requires tracks { AreTracks tracks.now }
    ensures { IfOk result (λ rows. rows ≡ ordered (rows_of tracks.now)) }
{
    let mut all = Rows::new(alloc);
    for track in tracks {
        list_rows(&mut all, &track.rows)?;
    }
    Ok(all)
}

// Takes in the rows of one navigable.
fn list_rows(all: &mut Rows, rows: &[Row]) -> Result<(), OutOfMemory>
    ensures { OnOk result (all.new ≡ all.old ++ rows.now) }
{
    for row in rows {
        all.push(row.copy()?)?;
    }
    Ok(())
}

/// The navigables whose entries hang on the document state, in order of number.
pub fn children_in(alloc: Global, tracks: &[Track], state: StateId) -> Result<Navs, OutOfMemory>
    ensures { IfOk result (λ navs. navs ≡ children_of state (rows_of tracks.now)) }
{
    let numbers = child_numbers_in(alloc, tracks, state)?;
    let navs = nav_list(alloc, &numbers)?;
    Ok(navs)
}

// The navigables with these numbers.
fn nav_list(alloc: Global, numbers: &BTreeSet<u32>) -> Result<Navs, OutOfMemory>
    ensures { IfOk result (λ navs. navs ≡ map (λ number. record { 0 = number }) numbers.now.keys) }
{
    let mut navs = Navs::new(alloc);
    for number in numbers.iter() {
        navs.push(NavId(*number))?;
    }
    Ok(navs)
}

// Their numbers.
fn child_numbers_in(
    alloc: Global,
    tracks: &[Track],
    state: StateId,
) -> Result<BTreeSet<u32>, OutOfMemory>
    ensures { IfOk result (λ numbers. numbers.keys ≡ fold (child_of state) [] (rows_of tracks.now)) }
{
    let mut numbers = BTreeSet::new(alloc);
    for track in tracks {
        note_children(&mut numbers, &track.rows, state)?;
    }
    Ok(numbers)
}

// Takes in those of one navigable's rows.
fn note_children(
    numbers: &mut BTreeSet<u32>,
    rows: &[Row],
    state: StateId,
) -> Result<(), OutOfMemory>
    ensures { OnOk result (numbers.new.keys ≡ fold (child_of state) numbers.old.keys rows.now) }
{
    for row in rows {
        note_child(numbers, row, state)?;
    }
    Ok(())
}

// Takes in that of one row, if it hangs on the document state.
fn note_child(numbers: &mut BTreeSet<u32>, row: &Row, state: StateId) -> Result<(), OutOfMemory>
    ensures { OnOk result (numbers.new.keys ≡ child_of state numbers.old.keys row.now) }
{
    if is_owned_by(row, state) {
        note_number(numbers, row.nav.0)?;
    }
    Ok(())
}

// Whether the row hangs on the document state.
fn is_owned_by(row: &Row, state: StateId) -> bool
    ensures { result ≡ is_owned_by state row.now }
{
    match &row.owner {
        Some(owner) => *owner == state,
        None => false,
    }
}

// Takes in one number.
#[tactic(auto, using(entry_store::proofs::StepsLeft::one_step))]
fn note_number(numbers: &mut BTreeSet<u32>, number: u32) -> Result<(), OutOfMemory>
    ensures { OnOk result (numbers.new.keys ≡ with_step number numbers.old.keys) }
{
    numbers.insert(number)?;
    Ok(())
}
