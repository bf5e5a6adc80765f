//! What a change makes of rows that stand in one list: for another store, where a change asks for a pass along all of them.
ghost use Rattle.std.specs.Prelude.{◌≡◌, ◌<◌, ◌∷◌, [], take, fold, IfOk, IfErr, OnOk};
ghost use Rattle.log_model.specs.History.{Fits, used_steps};
ghost use Rattle.entry_store.specs.Store.{MayTake, IsRefused};
ghost use Rattle.entry_store.specs.Kept.{history_in, history_of, IsKept, IsChanged};
ghost use Rattle.entry_store.specs.Reading.{step_taken};

use crate::change::change_lists;
use crate::error::StoreError;
use crate::listing::rows_in_order;
use crate::nest::Nest;
use crate::nested::Nested;
use address::OutOfMemory;
use indexmap::IndexSet;
use log_model::{Change, Row, Rows};
use std::alloc::Global;
use std::collections::BTreeSet;
use tab_ids::{NavId, Step};

/// A history after a change, its rows by navigable and then by step.
#[derive(Drop)]
pub struct Changed {
    pub rows: Rows,
    pub current: Step,
    pub added: IndexSet<NavId>,
    /// The used steps.
    pub used: BTreeSet<u32>,
}

/// Makes a change of the history of these rows.
pub fn changed_rows(
    rows: Vec<Row>,
    current: Step,
    added: IndexSet<NavId>,
    change: &Change,
) -> Result<Changed, StoreError>
    requires kept { IsKept (history_of rows.items current.0 added.keys) (used_steps rows.items) }
    requires may { MayTake (history_of rows.items current.0 added.keys) change.now }
    requires room { current.0 < 4294967294 }
    ensures ok { IfOk result (λ c. IsChanged (history_of rows.items current.0 added.keys) change.now c) }
    ensures refused { IfErr result (IsRefused (history_of rows.items current.0 added.keys) change.now) }
{
    let mut lists = one_list(rows, current, added)?;
    change_lists(&mut lists, change)?;
    let rows = rows_in_order(&lists)?;
    let Nested {
        nests: _,
        current,
        added,
        used,
    } = lists;
    Ok(Changed {
        rows,
        current,
        added,
        used,
    })
}

// The rows as one list.
fn one_list(rows: Vec<Row>, current: Step, added: IndexSet<NavId>) -> Result<Nested, OutOfMemory>
    ensures history { IfOk result (λ lists. history_in lists ≡ history_of rows.items current.0 added.keys) }
    ensures used { IfOk result (λ lists. lists.used.keys ≡ used_steps rows.items) }
{
    let alloc = *rows.allocator();
    let used = steps_of(alloc, &rows)?;
    let mut nests = Vec::new(alloc);
    nests.push(Nest { rows })?;
    Ok(Nested {
        nests,
        current,
        added,
        used,
    })
}

// The steps of the rows.
fn steps_of(alloc: Global, rows: &[Row]) -> Result<BTreeSet<u32>, OutOfMemory>
    ensures { IfOk result (λ steps. steps.keys ≡ used_steps rows.now) }
{
    let mut steps = BTreeSet::new(alloc);
    for row in rows {
        take_step(&mut steps, row.step)?;
    }
    Ok(steps)
}

// Takes in one step.
#[tactic(auto, using(crate::proofs::StepsLeft::one_step))]
fn take_step(steps: &mut BTreeSet<u32>, step: Step) -> Result<(), OutOfMemory>
    ensures { OnOk result (steps.new.keys ≡ step_taken steps.old.keys step) }
{
    steps.insert(step.0)?;
    Ok(())
}
