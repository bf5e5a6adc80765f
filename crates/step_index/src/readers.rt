//! What is looked up by a step or a number.
ghost use Rattle.std.specs.Prelude.{◌≡◌, ◌≤◌, ◌<◌, ◌-◌, ◌*◌, ◌+◌, ◌^◌, ◌&&◌, ◌==◌, None, nat_le, length, filter, find, fold};
ghost use Rattle.std.specs.Option.{option_copied, option_map};
ghost use Rattle.log_model.specs.History.{is_of, has_nav, has_row, has_state, row_of, later_row, target_entry, used_step_at, history_length, history_index};
ghost use Rattle.log_model.specs.Soundness.{is_entry};
ghost use Rattle.log_model.specs.declared.row.Row.{Row};
ghost use Rattle.step_index.specs.Ascending.{IsAscending};
ghost use Rattle.step_index.specs.Cut.{has_rows};
ghost use Rattle.step_index.specs.Noted.{is_at_place};
ghost use Rattle.step_index.specs.Tracks.{rows_of, step_of, AreTracks};
ghost use Rattle.step_index.specs.Parts.{history_in, IsIndex};

use crate::noted::{Place, place_of};
use crate::parts::Parts;
use crate::places::find_nav;
use crate::search::{count_upto, uncounted_upto};
use crate::starts::start_of;
use crate::ticks::Steps;
use crate::track::Track;
use indexmap::IndexSet;
use log_model::Row;
use std::sync::ledger::Ledger;
use tab_ids::{EntryId, NavId, StateId, Step};

/// Whether a navigable has a row.
pub fn has_row_in(tracks: &[Track], nav: NavId) -> bool
    requires tracks { AreTracks tracks.now }
    ensures { result ≡ has_row nav (rows_of tracks.now) }
{
    match find_nav(tracks, nav) {
        Ok(at) => has_rows(&tracks[at]),
        Err(_) => false,
    }
}

// Whether a navigable has an entry left.
fn has_rows(track: &Track) -> bool
    ensures { result ≡ has_rows track.now }
{
    !track.rows.is_empty()
}

/// The navigable's target entry at a step. Each comparison of one of its rows' steps with it is a tick.
pub fn target_in<L: Ledger>(
    tracks: &[Track],
    nav: NavId,
    s: Step,
    steps: &mut Steps<L>,
) -> Option<EntryId>
    requires tracks { AreTracks tracks.now }
    ensures target { result ≡ option_map (λ row. row.entry) (target_entry (rows_of tracks.now) nav s.0) }
    ensures counted { steps.old ≤ steps.new }
    ensures cost { 2 ^ (steps.new - steps.old) ≤ 2 * length (filter (is_of nav) (rows_of tracks.now)) + 1 }
{
    match find_nav(tracks, nav) {
        Ok(at) => last_upto(&tracks[at].rows, s, steps),
        Err(_) => None,
    }
}

// The entry with the greatest step that is at most the given one.
fn last_upto<L: Ledger>(rows: &[Row], s: Step, steps: &mut Steps<L>) -> Option<EntryId>
    requires sorted { IsAscending step_of rows.now }
    ensures last { result ≡ option_map (λ row. row.entry) (fold later_row None (filter (λ row. nat_le row.step.0 s.0) rows.now)) }
    ensures counted { steps.old ≤ steps.new }
    ensures cost { 2 ^ (steps.new - steps.old) ≤ 2 * length rows.now + 1 }
{
    let upto = count_upto(rows, s.0, steps);
    if upto == 0 {
        None
    } else {
        Some(rows[upto - 1].entry)
    }
}

/// The used step for a step. Each comparison of a used step with it is a tick.
pub fn used_step_in<L: Ledger>(parts: &Parts, s: Step, steps: &mut Steps<L>) -> Step
    requires index { IsIndex parts.now }
    ensures used { result.0 ≡ used_step_at (history_in parts.now).rows s.0 }
    ensures counted { steps.old ≤ steps.new }
    ensures cost { 2 ^ (steps.new - steps.old) ≤ 2 * length parts.now.used.items + 1 }
{
    let upto = count_upto(parts.used.as_slice(), s.0, steps);
    if upto == 0 {
        Step(0)
    } else {
        Step(parts.used[upto - 1])
    }
}

/// The history object's length, and its index at a step.
pub fn length_index_in(parts: &Parts, s: Step) -> (u32, u32)
    requires index { IsIndex parts.now }
    ensures length { result.0 ≡ history_length (history_in parts.now).rows }
    ensures index { result.1 ≡ history_index (history_in parts.now).rows s.0 }
{
    let upto = uncounted_upto(parts.used.as_slice(), s.0);
    (as_count(parts.used.len()), as_count(upto.saturating_sub(1)))
}

// A number of steps.
fn as_count(n: usize) -> u32
    requires { n < 4294967296 }
    ensures { result ≡ n }
{
    n as u32
}

/// Whether a row has the document state.
pub fn has_state_in(parts: &Parts, state: StateId) -> bool
    requires index { IsIndex parts.now }
    ensures { result ≡ has_state state (history_in parts.now).rows }
{
    start_of(&parts.starts, state).is_some()
}

/// The row of an entry.
pub fn row_in(parts: &Parts, entry: EntryId) -> Option<&Row>
    requires index { IsIndex parts.now }
    ensures { option_copied result ≡ row_of entry (history_in parts.now).rows }
{
    match place_of(&parts.noted, entry) {
        Some(place) => row_at(&parts.tracks, place, entry),
        None => None,
    }
}

// The row at a place, if it has the entry.
fn row_at(tracks: &[Track], place: Place, entry: EntryId) -> Option<&Row>
    requires tracks { AreTracks tracks.now }
    ensures { option_copied result ≡ find (λ row. is_at_place place row && is_entry entry row) (rows_of tracks.now) }
{
    match find_nav(tracks, place.nav) {
        Ok(at) => row_at_step(&tracks[at].rows, place.step, entry),
        Err(_) => None,
    }
}

// The row at a step, if it has the entry.
fn row_at_step(rows: &[Row], step: Step, entry: EntryId) -> Option<&Row>
    requires sorted { IsAscending step_of rows.now }
    ensures { option_copied result ≡ find (λ (row : Row). row.step.0 == step.0 && is_entry entry row) rows.now }
{
    let upto = uncounted_upto(rows, step.0);
    if upto == 0 {
        return None;
    }
    let row = &rows[upto - 1];
    if is_it(row, step, entry) {
        Some(row)
    } else {
        None
    }
}

// Whether a row is the entry's, at the step.
fn is_it(row: &Row, step: Step, entry: EntryId) -> bool
    ensures { result ≡ (row.now.step.0 == step.0 && is_entry entry row.now) }
{
    row.step == step && row.entry == entry
}

/// Whether a child navigable with the number was ever added.
#[tactic(auto, using(entry_store::proofs::AddLaw::added_by_key))]
pub fn was_added_in(added: &IndexSet<NavId>, nav: NavId) -> bool
    ensures { result ≡ has_nav added.now.keys nav }
{
    added.contains(&nav)
}
