//! Clearing the forward session history: each navigable's entries past the current step go from its end.
ghost use Rattle.std.specs.Prelude.{◌≡◌, ◌≤◌, false, true, drop, filter, length, nat_le, slice_get, vec_capacity, IfSome};
ghost use Rattle.indexmap.specs.IndexMap.{spare};
ghost use Rattle.tab_ids.specs.declared.NavId.{NavId};
ghost use Rattle.log_model.specs.Soundness.{IsRooted};
ghost use Rattle.step_index.specs.Ascending.{IsAscending};
ghost use Rattle.step_index.specs.Groups.{CountsLess};
ghost use Rattle.step_index.specs.Starts.{StartsLess};
ghost use Rattle.step_index.specs.Tracks.{rows_of, step_of, AreTracks};
ghost use Rattle.step_index.specs.Cut.{rows_upto, rows_past, NotesLess, AreCut, has_rows, HasRowRoom, is_held, AreHeld};

use crate::groups::{Group, uncount_row};
use crate::noted::{Place, forget_place};
use crate::search::uncounted_upto;
use crate::starts::{end_start, starts_by};
use crate::track::Track;
use indexmap::IndexMap;
use log_model::Row;
use tab_ids::{EntryId, StateId, Step};

/// Whether what hangs on an entry up to the step stays where the others go: each navigable with such an entry hangs on a document state that starts by then.
pub fn is_clean(tracks: &[Track], starts: &IndexMap<StateId, Step>, step: Step) -> bool
    requires tracks { AreTracks tracks.now }
    requires rooted { IsRooted (rows_of tracks.now) }
    ensures { result ≡ true → AreHeld starts.now.entries step.0 (rows_of tracks.now) }
{
    for track in tracks {
        if !is_first_held(&track.rows, starts, step) {
            return false;
        }
    }
    true
}

// Whether a navigable's first entry goes, or stays with what it hangs on.
fn is_first_held(rows: &[Row], starts: &IndexMap<StateId, Step>, step: Step) -> bool
    ensures { IfSome (slice_get rows.now 0) (λ row. result ≡ is_held starts.now.entries step.0 row) }
{
    match rows.first() {
        Some(row) => is_row_held(row, starts, step),
        None => true,
    }
}

// The same of one entry.
fn is_row_held(row: &Row, starts: &IndexMap<StateId, Step>, step: Step) -> bool
    ensures { result ≡ is_held starts.now.entries step.0 row.now }
{
    if row.step > step {
        return true;
    }
    match row.owner {
        Some(owner) => starts_by(starts, owner, step),
        None => true,
    }
}

/// Takes out the entries past a step, with what is noted of them.
pub fn cut_tracks(
    tracks: &mut Vec<Track>,
    noted: &mut IndexMap<EntryId, Place>,
    starts: &mut IndexMap<StateId, Step>,
    counts: &mut IndexMap<Group, usize>,
    step: Step,
)
    requires tracks { AreTracks tracks.old.items }
    ensures tracks { AreTracks tracks.new.items }
    ensures rows { rows_of tracks.new.items ≡ rows_upto step.0 (rows_of tracks.old.items) }
    ensures noted { NotesLess noted.old.entries (rows_past step.0 (rows_of tracks.old.items)) noted.new.entries }
    ensures starts { StartsLess starts.old.entries (rows_past step.0 (rows_of tracks.old.items)) starts.new.entries }
    ensures counts { CountsLess counts.old.entries (rows_past step.0 (rows_of tracks.old.items)) counts.new.entries }
    ensures room { (nav : NavId) → HasRowRoom nav tracks.old.items → HasRowRoom nav tracks.new.items }
    ensures note_room { spare noted.old ≤ spare noted.new }
    ensures start_room { spare starts.old ≤ spare starts.new }
{
    cut_all(tracks, noted, starts, counts, step);
    drop_empty(tracks);
}

// Takes them out of each track, some of which then have none.
fn cut_all(
    tracks: &mut Vec<Track>,
    noted: &mut IndexMap<EntryId, Place>,
    starts: &mut IndexMap<StateId, Step>,
    counts: &mut IndexMap<Group, usize>,
    step: Step,
)
    requires tracks { AreTracks tracks.old.items }
    ensures cut { AreCut step.0 tracks.old.items tracks.new.items }
    ensures noted { NotesLess noted.old.entries (rows_past step.0 (rows_of tracks.old.items)) noted.new.entries }
    ensures starts { StartsLess starts.old.entries (rows_past step.0 (rows_of tracks.old.items)) starts.new.entries }
    ensures counts { CountsLess counts.old.entries (rows_past step.0 (rows_of tracks.old.items)) counts.new.entries }
    ensures note_room { spare noted.old ≤ spare noted.new }
    ensures start_room { spare starts.old ≤ spare starts.new }
{
    cut_each(tracks, noted, starts, counts, step);
}

// The same of a list of tracks.
fn cut_each(
    tracks: &mut [Track],
    noted: &mut IndexMap<EntryId, Place>,
    starts: &mut IndexMap<StateId, Step>,
    counts: &mut IndexMap<Group, usize>,
    step: Step,
)
    requires tracks { AreTracks tracks.old }
    ensures cut { AreCut step.0 tracks.old tracks.new }
    ensures noted { NotesLess noted.old.entries (rows_past step.0 (rows_of tracks.old)) noted.new.entries }
    ensures starts { StartsLess starts.old.entries (rows_past step.0 (rows_of tracks.old)) starts.new.entries }
    ensures counts { CountsLess counts.old.entries (rows_past step.0 (rows_of tracks.old)) counts.new.entries }
    ensures note_room { spare noted.old ≤ spare noted.new }
    ensures start_room { spare starts.old ≤ spare starts.new }
{
    for track in tracks.iter_mut() {
        cut_rows(&mut track.rows, noted, starts, counts, step);
    }
}

// Takes them out of one navigable's.
fn cut_rows(
    rows: &mut Vec<Row>,
    noted: &mut IndexMap<EntryId, Place>,
    starts: &mut IndexMap<StateId, Step>,
    counts: &mut IndexMap<Group, usize>,
    step: Step,
)
    requires sorted { IsAscending step_of rows.old.items }
    ensures left { rows.new.items ≡ rows_upto step.0 rows.old.items }
    ensures capacity { vec_capacity rows.new ≡ vec_capacity rows.old }
    ensures noted { NotesLess noted.old.entries (rows_past step.0 rows.old.items) noted.new.entries }
    ensures starts { StartsLess starts.old.entries (rows_past step.0 rows.old.items) starts.new.entries }
    ensures counts { CountsLess counts.old.entries (rows_past step.0 rows.old.items) counts.new.entries }
    ensures note_room { spare noted.old ≤ spare noted.new }
    ensures start_room { spare starts.old ≤ spare starts.new }
{
    let upto = uncounted_upto(rows.as_slice(), step.0);
    forget_from(rows.as_slice(), upto, noted, starts, counts);
    rows.truncate(upto);
}

// Forgets what is noted of the rows from a place on.
fn forget_from(
    rows: &[Row],
    from: usize,
    noted: &mut IndexMap<EntryId, Place>,
    starts: &mut IndexMap<StateId, Step>,
    counts: &mut IndexMap<Group, usize>,
)
    requires { from ≤ length rows.now }
    ensures noted { NotesLess noted.old.entries (drop from rows.now) noted.new.entries }
    ensures starts { StartsLess starts.old.entries (drop from rows.now) starts.new.entries }
    ensures counts { CountsLess counts.old.entries (drop from rows.now) counts.new.entries }
    ensures note_room { spare noted.old ≤ spare noted.new }
    ensures start_room { spare starts.old ≤ spare starts.new }
{
    forget_rows(&rows[from..], noted, starts, counts);
}

/// Forgets what is noted of the rows.
pub fn forget_rows(
    rows: &[Row],
    noted: &mut IndexMap<EntryId, Place>,
    starts: &mut IndexMap<StateId, Step>,
    counts: &mut IndexMap<Group, usize>,
)
    ensures noted { NotesLess noted.old.entries rows.now noted.new.entries }
    ensures starts { StartsLess starts.old.entries rows.now starts.new.entries }
    ensures counts { CountsLess counts.old.entries rows.now counts.new.entries }
    ensures note_room { spare noted.old ≤ spare noted.new }
    ensures start_room { spare starts.old ≤ spare starts.new }
{
    for row in rows {
        forget_place(noted, row.entry);
        end_start(starts, row);
        uncount_row(counts, row);
    }
}

/// Drops the tracks that have no row left.
pub fn drop_empty(tracks: &mut Vec<Track>)
    ensures { tracks.new.items ≡ filter has_rows tracks.old.items }
{
    tracks.retain(|track| !track.rows.is_empty());
}

/// Takes out the used steps past a step.
pub fn cut_used(used: &mut Vec<u32>, step: Step)
    requires sorted { IsAscending (λ n. n) used.old.items }
    ensures left { used.new.items ≡ filter (λ n. nat_le n step.0) used.old.items }
    ensures capacity { vec_capacity used.new ≡ vec_capacity used.old }
{
    let upto = uncounted_upto(used.as_slice(), step.0);
    used.truncate(upto);
}
