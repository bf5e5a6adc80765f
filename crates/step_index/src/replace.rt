//! A replace: where no frame goes with the old entry's document, one row takes the place of another.
ghost use Rattle.std.specs.Prelude.{◌≡◌, ◌+◌, ◌<◌, ◌==◌, length, drop, find, slice_get, slice_set, Some, Bool, true, false, IfSome, IfErr, IfOk, OnOk, OnErr};
ghost use Rattle.std.specs.List.{list_any};
ghost use Rattle.std.specs.Option.{option_map};
ghost use Rattle.indexmap.specs.IndexMap.{spare};
ghost use Rattle.tab_ids.specs.declared.EntryId.{EntryId};
ghost use Rattle.log_model.specs.History.{Fits, applied};
ghost use Rattle.log_model.specs.Order.{SameHistory};
ghost use Rattle.log_model.specs.Soundness.{is_entry, is_in_state};
ghost use Rattle.log_model.specs.declared.row.Row.{Row};
ghost use Rattle.log_model.specs.declared.change.Change.TheVariants.{Replace};
ghost use Rattle.entry_store.specs.Store.{MayTake, IsRefused};
ghost use Rattle.step_index.specs.Ascending.{IsAscending};
ghost use Rattle.step_index.specs.Groups.{AreCounted};
ghost use Rattle.step_index.specs.Noted.{NotesOver};
ghost use Rattle.step_index.specs.Starts.{StartsOver};
ghost use Rattle.step_index.specs.Tracks.{rows_of, step_of, AreTracks, IsTrackAt};
ghost use Rattle.step_index.specs.Parts.{history_in, IsIndex, IsFiled};
ghost use Rattle.step_index.specs.Spots.{IsSpotOf, IsPlace, IsEntryAt, PutsOver, track_rows, keeps_frames};

use crate::groups::{Group, has_any};
use crate::noted::{Place, forget_place, note_in_room, place_of};
use crate::parts::Parts;
use crate::places::find_nav;
use crate::push::entry_row;
use crate::rebuild::change_all;
use crate::room::reserve_notes;
use crate::search::uncounted_upto;
use crate::starts::{start_anew, start_in_room, starts_at};
use crate::track::Track;
use address::{Address, OutOfMemory, Text};
use entry_store::StoreError;
use indexmap::IndexMap;
use log_model::{Change, Row};
use std::mem;
use tab_ids::{EntryId, NavId, StateId, Step};

/// Where an entry stands, and what its successor takes over from it.
#[derive(Clone, Copy)]
pub struct Spot {
    pub place: usize,
    pub at: usize,
    pub owner: Option<StateId>,
    pub step: Step,
}

/// Puts an entry in the place and at the step of another one, and takes out what hung on that one's document alone.
pub fn replace_in(
    parts: &mut Parts,
    change: &Change,
    nav: NavId,
    over: EntryId,
    entry: EntryId,
    state: StateId,
    address: &Address,
    memo: &Option<Text>,
) -> Result<(), StoreError>
    requires index { IsIndex parts.old }
    requires replace { change.now ≡ Replace nav over entry state address.now memo.now }
    requires may { MayTake (history_in parts.old) (Replace nav over entry state address.now memo.now) }
    requires room { parts.old.current.0 < 4294967294 }
    ensures index { IsIndex parts.new }
    ensures fits { OnOk result (Fits (history_in parts.old) (Replace nav over entry state address.now memo.now)) }
    ensures ok { OnOk result (SameHistory (history_in parts.new) (applied (history_in parts.old) (Replace nav over entry state address.now memo.now))) }
    ensures refused { IfErr result (IsRefused (history_in parts.old) (Replace nav over entry state address.now memo.now)) }
    ensures err { OnErr result (history_in parts.new ≡ history_in parts.old) }
{
    match spot_of(parts, nav, over, state) {
        None => change_all(parts, change),
        Some(spot) => {
            let row = entry_row(spot.owner, nav, entry, spot.step, state, address, memo)?;
            put_over(parts, spot, nav, over, row)?;
            Ok(())
        }
    }
}

// The place of a navigable's entry, where no frame goes with it.
fn spot_of(parts: &Parts, nav: NavId, over: EntryId, state: StateId) -> Option<Spot>
    requires index { IsIndex parts.now }
    ensures { IfSome result (λ spot. IsSpotOf parts.now.tracks.items nav over state spot.place spot.at spot.owner spot.step.0) }
{
    match find_nav(&parts.tracks, nav) {
        Ok(place) => spot_in(parts, place, nav, over, state),
        Err(_) => None,
    }
}

// The same, in the navigable's track.
fn spot_in(parts: &Parts, place: usize, nav: NavId, over: EntryId, state: StateId) -> Option<Spot>
    requires index { IsIndex parts.now }
    requires place { IsTrackAt parts.now.tracks.items nav place }
    ensures { IfSome result (λ spot. IsSpotOf parts.now.tracks.items nav over state spot.place spot.at spot.owner spot.step.0) }
{
    let rows = parts.tracks[place].rows.as_slice();
    match entry_at(rows, &parts.noted, over) {
        Some(at) => {
            let row = &rows[at];
            if keeps_frames(parts, rows, at, state) {
                Some(Spot {
                    place,
                    at,
                    owner: row.owner,
                    step: row.step,
                })
            } else {
                None
            }
        }
        None => None,
    }
}

// The place of an entry among a navigable's rows, looked up where it is noted.
fn entry_at(rows: &[Row], noted: &IndexMap<EntryId, Place>, entry: EntryId) -> Option<usize>
    requires sorted { IsAscending step_of rows.now }
    ensures within { IfSome result (λ at. at < length rows.now) }
    ensures found { IfSome result (λ at. IsEntryAt rows.now entry at) }
{
    match place_of(noted, entry) {
        Some(place) => entry_upto(rows, place.step, entry),
        None => None,
    }
}

// The place of the last row up to a step, if it is the entry's.
fn entry_upto(rows: &[Row], step: Step, entry: EntryId) -> Option<usize>
    requires sorted { IsAscending step_of rows.now }
    ensures within { IfSome result (λ at. at < length rows.now) }
    ensures found { IfSome result (λ at. IsEntryAt rows.now entry at) }
{
    let upto = uncounted_upto(rows, step.0);
    if upto == 0 {
        return None;
    }
    if rows[upto - 1].entry == entry {
        Some(upto - 1)
    } else {
        None
    }
}

// Whether no frame goes where an entry of the document state takes the place of one.
fn keeps_frames(parts: &Parts, rows: &[Row], at: usize, state: StateId) -> bool
    requires index { IsIndex parts.now }
    requires within { at < length rows.now }
    requires sorted { IsAscending step_of rows.now }
    requires part { (test : Row → Bool) → list_any test rows.now ≡ true → list_any test (rows_of parts.now.tracks.items) ≡ true }
    ensures { IfSome (slice_get rows.now at) (λ was. result ≡ true → keeps_frames state was (rows_of parts.now.tracks.items) ≡ true) }
{
    let was = &rows[at];
    if was.state == state {
        return true;
    }
    if !starts_at(&parts.starts, was.state, was.step) {
        return true;
    }
    if is_later(rows, at, was.state) {
        return true;
    }
    !has_any(&parts.counts, Group::On(was.state))
}

// Whether a row behind the place has the document state.
fn is_later(rows: &[Row], at: usize, state: StateId) -> bool
    requires { at < length rows.now }
    ensures { result ≡ list_any (is_in_state state) (drop (at + 1) rows.now) }
{
    has_state_row(&rows[at + 1..], state)
}

// Whether one of the rows has it.
fn has_state_row(rows: &[Row], state: StateId) -> bool
    ensures { result ≡ list_any (is_in_state state) rows.now }
{
    rows.iter().any(|row| row.state == state)
}

// Puts a row in the place of the entry's, which is handed out; without memory all stays.
fn put_over(
    parts: &mut Parts,
    spot: Spot,
    nav: NavId,
    over: EntryId,
    row: Row,
) -> Result<Row, OutOfMemory>
    requires index { IsIndex parts.old }
    requires nav { nav ≡ row.nav }
    requires spot { IsSpotOf parts.old.tracks.items nav over row.state spot.place spot.at spot.owner spot.step.0 }
    requires step { spot.step ≡ row.step }
    requires owner { spot.owner ≡ row.owner }
    requires new { list_any (is_entry row.entry) (rows_of parts.old.tracks.items) ≡ false }
    ensures filed { IsFiled parts.new }
    ensures counted { AreCounted parts.new.counts.entries (rows_of parts.new.tracks.items) }
    ensures over { IfOk result (λ was. PutsOver parts.old.tracks.items spot.place spot.at row was parts.new.tracks.items) }
    ensures err { OnErr result (parts.new.tracks.items ≡ parts.old.tracks.items) }
    ensures used { parts.new.used.items ≡ parts.old.used.items }
    ensures current { parts.new.current ≡ parts.old.current }
    ensures added { parts.new.added.keys ≡ parts.old.added.keys }
{
    reserve_notes(&mut parts.noted, &mut parts.starts)?;
    let was = swap_filed(
        &mut parts.tracks,
        &mut parts.noted,
        &mut parts.starts,
        spot,
        over,
        row,
    );
    Ok(was)
}

// The same, where there is room for what is noted.
fn swap_filed(
    tracks: &mut Vec<Track>,
    noted: &mut IndexMap<EntryId, Place>,
    starts: &mut IndexMap<StateId, Step>,
    spot: Spot,
    over: EntryId,
    row: Row,
) -> Row
    requires tracks { AreTracks tracks.old.items }
    requires place { IsPlace tracks.old.items spot.place spot.at row.nav row.step.0 }
    requires note_room { 0 < spare noted.old }
    requires start_room { 0 < spare starts.old }
    ensures tracks { AreTracks tracks.new.items }
    ensures over { PutsOver tracks.old.items spot.place spot.at row result tracks.new.items }
    ensures rows { track_rows tracks.new.items spot.place ≡ slice_set (track_rows tracks.old.items spot.place) spot.at row }
    ensures noted { NotesOver noted.old.entries row over noted.new.entries }
    ensures starts { StartsOver starts.old.entries row result (drop spot.at (track_rows tracks.new.items spot.place)) starts.new.entries }
{
    let place = Place {
        nav: row.nav,
        step: row.step,
    };
    note_in_room(noted, row.entry, place);
    start_in_room(starts, row.state, row.step);
    let was = swap_row(tracks, spot.place, spot.at, row);
    forget_place(noted, over);
    let later = start_from(tracks, spot.place, spot.at, was.state);
    start_anew(starts, was.state, was.step, later);
    was
}

// The step of the first row from a place on that has the document state.
fn start_from(tracks: &[Track], place: usize, at: usize, state: StateId) -> Option<Step>
    requires place { place < length tracks.now }
    requires within { at < length (track_rows tracks.now place) }
    ensures { result ≡ option_map (λ (row : Row). row.step) (find (is_in_state state) (drop at (track_rows tracks.now place))) }
{
    first_start_from(tracks[place].rows.as_slice(), at, state)
}

// The same among the navigable's rows.
fn first_start_from(rows: &[Row], at: usize, state: StateId) -> Option<Step>
    requires { at < length rows.now }
    ensures { result ≡ option_map (λ (row : Row). row.step) (find (is_in_state state) (drop at rows.now)) }
{
    first_start(&rows[at..], state)
}

// The step of the first row that has the document state.
fn first_start(rows: &[Row], state: StateId) -> Option<Step>
    ensures { result ≡ option_map (λ (row : Row). row.step) (find (is_in_state state) rows.now) }
{
    match rows.iter().find(|row| row.state == state) {
        Some(row) => Some(row.step),
        None => None,
    }
}

// Puts a row in the place of another of the same navigable and step, which is handed out.
fn swap_row(tracks: &mut Vec<Track>, place: usize, at: usize, row: Row) -> Row
    requires tracks { AreTracks tracks.old.items }
    requires place { IsPlace tracks.old.items place at row.nav row.step.0 }
    ensures tracks { AreTracks tracks.new.items }
    ensures over { PutsOver tracks.old.items place at row result tracks.new.items }
    ensures within { place < length tracks.new.items }
    ensures in_rows { at < length (track_rows tracks.new.items place) }
    ensures rows { track_rows tracks.new.items place ≡ slice_set (track_rows tracks.old.items place) at row }
{
    let track = &mut tracks[place];
    mem::replace(&mut track.rows[at], row)
}
