//! A change that is made where its numbers are fit for the store, which is asked first.
ghost use Rattle.std.specs.Prelude.{◌≡◌, ◌≤◌, ◌&&◌, true, false, not, nat_le, IfOk};
ghost use Rattle.std.specs.List.{list_any};
ghost use Rattle.log_model.specs.History.{is_of, greatest_step};
ghost use Rattle.log_model.specs.Soundness.{is_entry, is_in_state};
ghost use Rattle.log_model.specs.declared.row.Row.{Row};
ghost use Rattle.entry_store.specs.Store.{IsStateOf};

use address::OutOfMemory;
use entry_store::{Store, StoreError};
use log_model::{Change, Row};
use tab_ids::{EntryId, NavId, StateId, Step};

/// What became of a change.
#[derive(Clone, Copy, PartialEq, Eq, Debug)]
pub enum Taken {
    Made,
    Refused(StoreError),
    /// Its numbers aren't fit for the store, and it wasn't tried.
    Unfit,
}

/// Makes a change whose numbers are fit for the store.
pub fn take<S: Store>(store: &mut S, change: &Change) -> Result<Taken, OutOfMemory> {
    if store.current().0 >= 4294967294 {
        return Ok(Taken::Unfit);
    }
    match change {
        Change::Push {
            nav,
            entry,
            state,
            ..
        } => {
            if !is_new(store, *entry) || !is_free_for(store, *nav, *state)? {
                return Ok(Taken::Unfit);
            }
            Ok(outcome_of(store.apply(change)))
        }
        Change::Replace {
            nav,
            entry,
            state,
            ..
        } => {
            if !is_new(store, *entry) || !is_free_for(store, *nav, *state)? {
                return Ok(Taken::Unfit);
            }
            Ok(outcome_of(store.apply(change)))
        }
        Change::AddFrame { entry, state, .. } => {
            if !is_new(store, *entry) || store.has_state(*state) {
                return Ok(Taken::Unfit);
            }
            Ok(outcome_of(store.apply(change)))
        }
        Change::Traverse { goal } => {
            if !is_reached(store, *goal)? {
                return Ok(Taken::Unfit);
            }
            Ok(outcome_of(store.apply(change)))
        }
        Change::RemoveFrame { .. } => Ok(outcome_of(store.apply(change))),
        Change::Reload { .. } => Ok(outcome_of(store.apply(change))),
        Change::Edit => Ok(outcome_of(store.apply(change))),
    }
}

fn outcome_of(answer: Result<(), StoreError>) -> Taken {
    match answer {
        Ok(()) => Taken::Made,
        Err(error) => Taken::Refused(error),
    }
}

// Whether no row has the entry.
fn is_new<S: Store>(store: &S, entry: EntryId) -> bool
    ensures { result ≡ true → list_any (is_entry entry) (S.history store.now).rows ≡ false }
{
    match store.row(entry) {
        Some(_) => false,
        None => true,
    }
}

// Whether the document state is no row's of another navigable.
fn is_free_for<S: Store>(store: &S, nav: NavId, state: StateId) -> Result<bool, OutOfMemory>
    ensures { IfOk result (λ free. free ≡ true → IsStateOf nav state (S.history store.now).rows) }
{
    let rows = store.rows()?;
    Ok(!is_of_another(rows.as_slice(), nav, state))
}

fn is_of_another(rows: &[Row], nav: NavId, state: StateId) -> bool
    ensures { result ≡ list_any (λ (row : Row). is_in_state state row && not (is_of nav row)) rows.now }
{
    rows.iter().any(|row| row.state == state && row.nav != nav)
}

// Whether a row stands at the step or past it.
fn is_reached<S: Store>(store: &S, goal: Step) -> Result<bool, OutOfMemory>
    ensures { IfOk result (λ reached. reached ≡ true → goal.0 ≤ greatest_step (S.history store.now).rows) }
{
    let rows = store.rows()?;
    Ok(is_past(rows.as_slice(), goal))
}

fn is_past(rows: &[Row], goal: Step) -> bool
    ensures { result ≡ list_any (λ (row : Row). nat_le goal.0 row.step.0) rows.now }
{
    rows.iter().any(|row| goal <= row.step)
}
