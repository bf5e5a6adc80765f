//! The used steps of the rows that stay, taken in from list to list.
ghost use Rattle.std.specs.Prelude.{◌≡◌, fold, filter, take, IfOk, OnOk};
ghost use Rattle.log_model.specs.History.{used_steps};
ghost use Rattle.entry_store.specs.Nested.{rows_of, stays, with_step_of};

use crate::cut::Cut;
use crate::live::is_staying;
use crate::nest::Nest;
use address::OutOfMemory;
use indexmap::IndexSet;
use log_model::Row;
use std::alloc::Global;
use std::collections::BTreeSet;
use tab_ids::StateId;

/// The steps of the rows that stay once the cut is made, where these document states do.
pub fn steps_left(
    alloc: Global,
    nests: &[Nest],
    cut: &Cut,
    states: &IndexSet<StateId>,
) -> Result<BTreeSet<u32>, OutOfMemory>
    ensures { IfOk result (λ steps. steps.keys ≡ used_steps (filter (stays cut.now states.now.keys) (rows_of nests.now))) }
{
    let mut steps = BTreeSet::new(alloc);
    note_nests(&mut steps, cut, states, nests)?;
    Ok(steps)
}

// Takes in the step of a row, if it stays.
#[tactic(auto, using(crate::proofs::StepsLeft::one_step))]
fn note_row(
    steps: &mut BTreeSet<u32>,
    cut: &Cut,
    states: &IndexSet<StateId>,
    row: &Row,
) -> Result<(), OutOfMemory>
    ensures { OnOk result (steps.new.keys ≡ with_step_of cut.now states.now.keys steps.old.keys row.now) }
{
    if is_staying(cut, states, row) {
        steps.insert(row.step.0)?;
    }
    Ok(())
}

// Takes in those of a list of rows.
fn note_rows(
    steps: &mut BTreeSet<u32>,
    cut: &Cut,
    states: &IndexSet<StateId>,
    rows: &[Row],
) -> Result<(), OutOfMemory>
    ensures { OnOk result (steps.new.keys ≡ fold (with_step_of cut.now states.now.keys) steps.old.keys rows.now) }
{
    for row in rows {
        note_row(steps, cut, states, row)?;
    }
    Ok(())
}

// Takes in those of all rows.
fn note_nests(
    steps: &mut BTreeSet<u32>,
    cut: &Cut,
    states: &IndexSet<StateId>,
    nests: &[Nest],
) -> Result<(), OutOfMemory>
    ensures { OnOk result (steps.new.keys ≡ fold (with_step_of cut.now states.now.keys) steps.old.keys (rows_of nests.now)) }
{
    for nest in nests {
        note_rows(steps, cut, states, &nest.rows)?;
    }
    Ok(())
}
