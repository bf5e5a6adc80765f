//! A removed frame: where nothing hangs on its documents, its own entries go and no others.
ghost use Rattle.std.specs.Prelude.{◌≡◌, ◌<◌, true, false, not, filter, length, slice_get, slice_set, ◌==◌, IfSome, IfErr, OnOk, OnErr};
ghost use Rattle.std.specs.List.{list_any};
ghost use Rattle.log_model.specs.declared.row.Row.{Row};
ghost use Rattle.log_model.specs.History.{Fits, applied, is_of};
ghost use Rattle.log_model.specs.Order.{SameHistory};
ghost use Rattle.log_model.specs.declared.change.Change.TheVariants.{RemoveFrame};
ghost use Rattle.entry_store.specs.Store.{MayTake, IsRefused};
ghost use Rattle.step_index.specs.declared.groups.Group.TheVariants.{On};
ghost use Rattle.step_index.specs.Ascending.{IsAscending};
ghost use Rattle.step_index.specs.Groups.{is_unused};
ghost use Rattle.step_index.specs.Tracks.{rows_of, AreTracks, IsTrackAt};
ghost use Rattle.step_index.specs.Parts.{history_in, IsIndex, IsLeafAt, has_below};

use crate::cut::{drop_empty, forget_rows};
use crate::groups::{Group, has_any};
use crate::move_on::used_step;
use crate::parts::Parts;
use crate::places::find_nav;
use crate::rebuild::change_all;
use crate::search::uncounted_upto;
use crate::track::Track;
use entry_store::StoreError;
use indexmap::IndexMap;
use log_model::{Change, Row};
use std::mem;
use tab_ids::{NavId, Step};

/// Takes out a navigable's entries, and those of all frames below its documents.
pub fn remove_in(parts: &mut Parts, change: &Change, nav: NavId) -> Result<(), StoreError>
    requires index { IsIndex parts.old }
    requires remove { change.now ≡ RemoveFrame nav }
    requires may { MayTake (history_in parts.old) (RemoveFrame nav) }
    requires room { parts.old.current.0 < 4294967294 }
    ensures index { IsIndex parts.new }
    ensures fits { OnOk result (Fits (history_in parts.old) (RemoveFrame nav)) }
    ensures ok { OnOk result (SameHistory (history_in parts.new) (applied (history_in parts.old) (RemoveFrame nav))) }
    ensures refused { IfErr result (IsRefused (history_in parts.old) (RemoveFrame nav)) }
    ensures err { OnErr result (history_in parts.new ≡ history_in parts.old) }
{
    match leaf_place(parts, nav) {
        Some(at) => {
            remove_at(parts, nav, at);
            Ok(())
        }
        None => change_all(parts, change),
    }
}

// The place of a frame, where nothing hangs on its document states.
fn leaf_place(parts: &Parts, nav: NavId) -> Option<usize>
    requires index { IsIndex parts.now }
    ensures { IfSome result (λ at. IsLeafAt parts.now nav at) }
{
    if nav.0 == 0 {
        return None;
    }
    match find_nav(&parts.tracks, nav) {
        Ok(at) => {
            if is_leaf(&parts.tracks[at].rows, &parts.counts) {
                Some(at)
            } else {
                None
            }
        }
        Err(_) => None,
    }
}

// Whether there are rows, on whose document states no frame hangs.
fn is_leaf(rows: &[Row], counts: &IndexMap<Group, usize>) -> bool
    ensures some { result ≡ true → 0 < length rows.now }
    ensures free { result ≡ true → list_any (has_below counts.now.entries) rows.now ≡ false }
{
    if rows.is_empty() {
        return false;
    }
    !has_frames(rows, counts)
}

// Whether a frame hangs on a document state of the rows.
fn has_frames(rows: &[Row], counts: &IndexMap<Group, usize>) -> bool
    ensures { result ≡ list_any (has_below counts.now.entries) rows.now }
{
    rows.iter().any(|row| has_any(counts, Group::On(row.state)))
}

// Takes out a frame on whose document states nothing hangs.
#[tactic(auto, using(entry_store::proofs::MoveLaw::moved_laws))]
fn remove_at(parts: &mut Parts, nav: NavId, at: usize)
    requires index { IsIndex parts.old }
    requires leaf { IsLeafAt parts.old nav at }
    ensures index { IsIndex parts.new }
    ensures fits { Fits (history_in parts.old) (RemoveFrame nav) }
    ensures ok { SameHistory (history_in parts.new) (applied (history_in parts.old) (RemoveFrame nav)) }
{
    take_out(parts, nav, at);
    close_gaps(parts);
    parts.current = used_step(parts, parts.current);
}

// Takes out its entries; the current step stays.
fn take_out(parts: &mut Parts, nav: NavId, at: usize)
    requires index { IsIndex parts.old }
    requires leaf { IsLeafAt parts.old nav at }
    ensures index { IsIndex parts.new }
    ensures rows { rows_of parts.new.tracks.items ≡ filter (λ (row : Row). not (is_of nav row)) (rows_of parts.old.tracks.items) }
    ensures current { parts.new.current ≡ parts.old.current }
    ensures added { parts.new.added.keys ≡ parts.old.added.keys }
{
    let rows = take_track(&mut parts.tracks, nav, at);
    forget_rows(
        &rows,
        &mut parts.noted,
        &mut parts.starts,
        &mut parts.counts,
    );
    drop_unused(&mut parts.used, &rows, &parts.counts);
}

// One track more has no row. Once they are the greater part they are dropped, so a removal moves few tracks in the mean.
fn close_gaps(parts: &mut Parts)
    requires index { IsIndex parts.old }
    ensures index { IsIndex parts.new }
    ensures same { history_in parts.new ≡ history_in parts.old }
{
    parts.gaps = parts.gaps.saturating_add(1);
    if parts.gaps > parts.tracks.len() / 2 {
        close_tracks(&mut parts.tracks);
        parts.gaps = 0;
    }
}

// Drops the tracks without a row.
fn close_tracks(tracks: &mut Vec<Track>)
    requires tracks { AreTracks tracks.old.items }
    ensures tracks { AreTracks tracks.new.items }
    ensures rows { rows_of tracks.new.items ≡ rows_of tracks.old.items }
{
    drop_empty(tracks);
}

// Takes a navigable's rows out of its track, which has none then, and hands them out.
fn take_track(tracks: &mut Vec<Track>, nav: NavId, at: usize) -> Vec<Row>
    requires tracks { AreTracks tracks.old.items }
    requires place { IsTrackAt tracks.old.items nav at }
    ensures tracks { AreTracks tracks.new.items }
    ensures rows { result.items ≡ filter (is_of nav) (rows_of tracks.old.items) }
    ensures left { rows_of tracks.new.items ≡ filter (λ (row : Row). not (is_of nav row)) (rows_of tracks.old.items) }
{
    let none = Vec::new(*tracks.allocator());
    swap_rows(tracks, at, none)
}

// Gives a track other rows, and hands out those that it had.
fn swap_rows(tracks: &mut Vec<Track>, at: usize, rows: Vec<Row>) -> Vec<Row>
    requires { at < length tracks.old.items }
    ensures { IfSome (slice_get tracks.old.items at) (λ track. (result ≡ track.rows) × (tracks.new.items ≡ slice_set tracks.old.items at (record { nav = track.nav; rows = rows }))) }
{
    let track = &mut tracks[at];
    mem::replace(&mut track.rows, rows)
}

// Takes out the used steps at which one of the rows stood and none stands any more.
fn drop_unused(used: &mut Vec<u32>, rows: &[Row], counts: &IndexMap<Group, usize>)
    requires sorted { IsAscending (λ n. n) used.old.items }
    ensures { used.new.items ≡ filter (λ n. not (is_unused counts.now.entries rows.now n)) used.old.items }
{
    for row in rows {
        if !has_any(counts, Group::At(row.step)) {
            drop_step(used, row.step);
        }
    }
}

// Takes out a used step.
fn drop_step(used: &mut Vec<u32>, step: Step)
    requires sorted { IsAscending (λ n. n) used.old.items }
    ensures { used.new.items ≡ filter (λ n. not (n == step.0)) used.old.items }
{
    let upto = uncounted_upto(used.as_slice(), step.0);
    if upto == 0 {
        return;
    }
    if used[upto - 1] == step.0 {
        used.remove(upto - 1);
    }
}
