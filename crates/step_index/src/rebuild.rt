//! A change by a pass along all rows: what it leaves is put together anew, and takes the place of the old at the end.
ghost use Rattle.std.specs.Prelude.{◌≡◌, ◌≤◌, ◌<◌, ◌++◌, Some, count_by, IfOk, IfErr, OnOk, OnErr};
ghost use Rattle.log_model.specs.History.{Fits, applied};
ghost use Rattle.log_model.specs.Order.{ordered, SameHistory};
ghost use Rattle.entry_store.specs.Store.{MayTake, IsRefused};
ghost use Rattle.entry_store.specs.Kept.{history_of, IsChanged, IsKept};
ghost use Rattle.log_model.specs.Soundness.{is_entry};
ghost use Rattle.tab_ids.specs.declared.EntryId.{EntryId};
ghost use Rattle.step_index.specs.Groups.{AreCounted};
ghost use Rattle.step_index.specs.Noted.{AreNoted, NotesOne};
ghost use Rattle.step_index.specs.Starts.{AreStarted};
ghost use Rattle.step_index.specs.Strict.{IsStrict};
ghost use Rattle.step_index.specs.Tracks.{rows_of, AreTracks};
ghost use Rattle.step_index.specs.Parts.{history_in, IsIndex};

use crate::groups::{Group, take_row};
use crate::noted::{Place, note_place};
use crate::parts::Parts;
use crate::places::put_last;
use crate::starts::take_start;
use crate::track::Track;
use address::OutOfMemory;
use entry_store::{Changed, StoreError, changed_rows};
use indexmap::{IndexMap, IndexSet};
use log_model::{Change, Row};
use std::alloc::Global;
use std::collections::BTreeSet;
use tab_ids::{EntryId, NavId, StateId, Step};

/// Makes a change.
pub fn change_all(parts: &mut Parts, change: &Change) -> Result<(), StoreError>
    requires index { IsIndex parts.old }
    requires may { MayTake (history_in parts.old) change.now }
    requires room { parts.old.current.0 < 4294967294 }
    ensures index { IsIndex parts.new }
    ensures fits { OnOk result (Fits (history_in parts.old) change.now) }
    ensures ok { OnOk result (SameHistory (history_in parts.new) (applied (history_in parts.old) change.now)) }
    ensures refused { IfErr result (IsRefused (history_in parts.old) change.now) }
    ensures err { OnErr result (history_in parts.new ≡ history_in parts.old) }
{
    let changed = changed_parts(parts, change)?;
    let new = parts_of(*parts.tracks.allocator(), changed)?;
    *parts = new;
    Ok(())
}

// What the change makes of it.
fn changed_parts(parts: &Parts, change: &Change) -> Result<Changed, StoreError>
    requires index { IsIndex parts.now }
    requires may { MayTake (history_in parts.now) change.now }
    requires room { parts.now.current.0 < 4294967294 }
    ensures ok { IfOk result (λ c. IsChanged (history_in parts.now) change.now c) }
    ensures refused { IfErr result (IsRefused (history_in parts.now) change.now) }
{
    let rows = all_rows(*parts.tracks.allocator(), &parts.tracks)?;
    let added = copy_navs(&parts.added)?;
    changed_rows(rows, parts.current, added, change)
}

// The same navigables.
fn copy_navs(navs: &IndexSet<NavId>) -> Result<IndexSet<NavId>, OutOfMemory>
    ensures { IfOk result (λ copy. copy.keys ≡ navs.now.keys) }
{
    let copy = navs.clone()?;
    Ok(copy)
}

// Copies of all rows.
fn all_rows(alloc: Global, tracks: &[Track]) -> Result<Vec<Row>, OutOfMemory>
    ensures { IfOk result (λ rows. rows.items ≡ rows_of tracks.now) }
{
    let mut all = Vec::new(alloc);
    for track in tracks {
        copy_rows(&mut all, &track.rows)?;
    }
    Ok(all)
}

// Takes in copies of one navigable's rows.
fn copy_rows(all: &mut Vec<Row>, rows: &[Row]) -> Result<(), OutOfMemory>
    ensures { OnOk result (all.new.items ≡ all.old.items ++ rows.now) }
{
    for row in rows {
        all.push(row.copy()?)?;
    }
    Ok(())
}

// The tracks and the used steps of a history.
fn parts_of(alloc: Global, changed: Changed) -> Result<Parts, OutOfMemory>
    requires kept { IsKept (history_of changed.rows changed.current.0 changed.added.keys) changed.used.keys }
    requires order { ordered changed.rows ≡ changed.rows }
    ensures index { IfOk result IsIndex }
    ensures history { IfOk result (λ parts. history_in parts ≡ history_of changed.rows changed.current.0 changed.added.keys) }
{
    let tracks = tracks_of(alloc, changed.rows.as_slice())?;
    let noted = places_of(alloc, changed.rows.as_slice())?;
    let starts = starts_of(alloc, changed.rows.as_slice())?;
    let counts = counts_of(alloc, changed.rows.as_slice())?;
    let used = step_list(alloc, &changed.used)?;
    Ok(Parts {
        tracks,
        gaps: 0,
        noted,
        starts,
        counts,
        used,
        current: changed.current,
        added: changed.added,
    })
}

// The rows, navigable by navigable.
fn tracks_of(alloc: Global, rows: &[Row]) -> Result<Vec<Track>, OutOfMemory>
    requires strict { IsStrict rows.now }
    ensures tracks { IfOk result (λ tracks. AreTracks tracks.items) }
    ensures rows { IfOk result (λ tracks. rows_of tracks.items ≡ rows.now) }
{
    let mut tracks = Vec::new(alloc);
    for row in rows {
        put_last(&mut tracks, row.copy()?)?;
    }
    Ok(tracks)
}

// Where the rows stand.
fn places_of(alloc: Global, rows: &[Row]) -> Result<IndexMap<EntryId, Place>, OutOfMemory>
    requires once { (entry : EntryId) → count_by (is_entry entry) rows.now ≤ 1 }
    ensures { IfOk result (λ noted. AreNoted noted.entries rows.now) }
{
    let mut noted = IndexMap::new(alloc);
    for row in rows {
        note_row(&mut noted, row)?;
    }
    Ok(noted)
}

// Notes where one row stands.
fn note_row(noted: &mut IndexMap<EntryId, Place>, row: &Row) -> Result<(), OutOfMemory>
    ensures { OnOk result (NotesOne noted.old.entries row.now.entry (Some (record { nav = row.now.nav; step = row.now.step })) noted.new.entries) }
{
    note_place(
        noted,
        row.entry,
        Place {
            nav: row.nav,
            step: row.step,
        },
    )?;
    Ok(())
}

// Where their document states start.
fn starts_of(alloc: Global, rows: &[Row]) -> Result<IndexMap<StateId, Step>, OutOfMemory>
    ensures { IfOk result (λ starts. AreStarted starts.entries rows.now) }
{
    let mut starts = IndexMap::new(alloc);
    for row in rows {
        take_start(&mut starts, row.state, row.step)?;
    }
    Ok(starts)
}

// How many rows stand at each step, and how many hang on each document state.
fn counts_of(alloc: Global, rows: &[Row]) -> Result<IndexMap<Group, usize>, OutOfMemory>
    ensures { IfOk result (λ counts. AreCounted counts.entries rows.now) }
{
    let mut counts = IndexMap::new(alloc);
    for row in rows {
        take_row(&mut counts, row.step, row.owner)?;
    }
    Ok(counts)
}

// The steps as a list.
fn step_list(alloc: Global, steps: &BTreeSet<u32>) -> Result<Vec<u32>, OutOfMemory>
    ensures { IfOk result (λ list. list.items ≡ steps.now.keys) }
{
    let mut list = Vec::new(alloc);
    for step in steps.iter() {
        list.push(*step)?;
    }
    Ok(list)
}
