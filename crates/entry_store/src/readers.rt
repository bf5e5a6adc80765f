//! What the lists answer: each reader goes once along the rows.
ghost use Rattle.std.specs.Prelude.{◌≡◌, fold, None};
ghost use Rattle.std.specs.Option.{option_copied, option_map};
ghost use Rattle.log_model.specs.History.{has_row, has_state, row_of, used_step_at, later_row, target_entry};
ghost use Rattle.entry_store.specs.Nested.{rows_of};
ghost use Rattle.entry_store.specs.Reading.{used_upto, later_of};

use crate::nest::Nest;
use log_model::Row;
use tab_ids::{EntryId, NavId, StateId, Step};

/// Whether a navigable has a row.
pub fn has_row_in(nests: &[Nest], nav: NavId) -> bool
    ensures { result ≡ has_row nav (rows_of nests.now) }
{
    for nest in nests {
        if has_nav_row(&nest.rows, nav) {
            return true;
        }
    }
    false
}

// Whether one list has a row of the navigable.
fn has_nav_row(rows: &[Row], nav: NavId) -> bool
    ensures { result ≡ has_row nav rows.now }
{
    rows.iter().any(|row| row.nav == nav)
}

/// Whether a row has the document state.
pub fn has_state_in(nests: &[Nest], state: StateId) -> bool
    ensures { result ≡ has_state state (rows_of nests.now) }
{
    for nest in nests {
        if has_state_row(&nest.rows, state) {
            return true;
        }
    }
    false
}

// Whether a row of one list has it.
fn has_state_row(rows: &[Row], state: StateId) -> bool
    ensures { result ≡ has_state state rows.now }
{
    rows.iter().any(|row| row.state == state)
}

/// The row of an entry.
pub fn row_in(nests: &[Nest], entry: EntryId) -> Option<&Row>
    ensures { option_copied result ≡ row_of entry (rows_of nests.now) }
{
    for nest in nests {
        if let Some(row) = row_in_list(&nest.rows, entry) {
            return Some(row);
        }
    }
    None
}

// The row, if one list has it.
fn row_in_list(rows: &[Row], entry: EntryId) -> Option<&Row>
    ensures { option_copied result ≡ row_of entry rows.now }
{
    rows.iter().find(|row| row.entry == entry)
}

/// The used step for a step.
pub fn used_step_in(nests: &[Nest], s: Step) -> Step
    ensures { result.0 ≡ used_step_at (rows_of nests.now) s.0 }
{
    let mut best = 0;
    for nest in nests {
        best = used_upto_in(&nest.rows, s, best);
    }
    Step(best)
}

// The used step, where it is in these rows or was before them.
fn used_upto_in(rows: &[Row], s: Step, before: u32) -> u32
    ensures { result ≡ fold (used_upto s.0) before rows.now }
{
    let mut best = before;
    for row in rows {
        if row.step <= s && best < row.step.0 {
            best = row.step.0;
        }
    }
    best
}

/// The navigable's target entry at a step.
pub fn target_in(nests: &[Nest], nav: NavId, s: Step) -> Option<EntryId>
    ensures { result ≡ option_map (λ row. row.entry) (target_entry (rows_of nests.now) nav s.0) }
{
    let mut best: Option<&Row> = None;
    for nest in nests {
        best = later_in(&nest.rows, nav, s, best);
    }
    match best {
        Some(row) => Some(row.entry),
        None => None,
    }
}

// The target, where it is in these rows or was before them.
fn later_in<'a>(rows: &'a [Row], nav: NavId, s: Step, before: Option<&'a Row>) -> Option<&'a Row>
    ensures { option_copied result ≡ fold (later_of nav s.0) (option_copied before.entry) rows.now }
{
    let mut best = before;
    for row in rows {
        if row.nav == nav && row.step <= s {
            best = later(best, row);
        }
    }
    best
}

// The row with the greater step.
fn later<'a>(before: Option<&'a Row>, row: &'a Row) -> Option<&'a Row>
    ensures { option_copied result ≡ later_row (option_copied before.entry) row.now }
{
    match before {
        Some(best) if row.step <= best.step => Some(best),
        _ => Some(row),
    }
}
