//! A new frame: its first entry stands at the first step of the document state that it hangs on.
ghost use Rattle.std.specs.Prelude.{◌≡◌, ◌≢◌, ◌<◌, ◌∷◌, [], ◌++◌, false, fold, None, Some, IfOk, IfErr, OnOk, OnErr};
ghost use Rattle.std.specs.List.{list_any};
ghost use Rattle.indexmap.specs.IndexSet.{spare};
ghost use Rattle.address.specs.Addresses.{blank_text};
ghost use Rattle.tab_ids.specs.declared.EntryId.{EntryId};
ghost use Rattle.tab_ids.specs.declared.StateId.{StateId};
ghost use Rattle.log_model.specs.History.{Fits, applied, has_nav, has_row};
ghost use Rattle.log_model.specs.Order.{SameHistory};
ghost use Rattle.log_model.specs.Soundness.{is_entry};
ghost use Rattle.log_model.specs.declared.change.Change.TheVariants.{AddFrame};
ghost use Rattle.entry_store.specs.Store.{MayTake, IsRefused};
ghost use Rattle.entry_store.specs.Kept.{PutsRow};
ghost use Rattle.entry_store.specs.Reading.{first_of};
ghost use Rattle.step_index.specs.Groups.{AreCounted};
ghost use Rattle.step_index.specs.Tracks.{rows_of};
ghost use Rattle.step_index.specs.Parts.{history_in, IsIndex, IsFiled};

use crate::groups::{count_row, reserve_counts};
use crate::noted::{Place, note_in_room};
use crate::parts::Parts;
use crate::places::put_last;
use crate::readers::was_added_in;
use crate::room::reserve_notes;
use crate::starts::{start_in_room, start_of};
use address::{Address, OutOfMemory};
use entry_store::StoreError;
use indexmap::IndexSet;
use log_model::Row;
use std::alloc::Global;
use tab_ids::{EntryId, NavId, StateId, Step};

/// Adds a frame with its first entry.
pub fn add_in(
    parts: &mut Parts,
    owner: StateId,
    nav: NavId,
    entry: EntryId,
    state: StateId,
) -> Result<(), StoreError>
    requires index { IsIndex parts.old }
    requires may { MayTake (history_in parts.old) (AddFrame owner nav entry state) }
    ensures index { IsIndex parts.new }
    ensures fits { OnOk result (Fits (history_in parts.old) (AddFrame owner nav entry state)) }
    ensures ok { OnOk result (SameHistory (history_in parts.new) (applied (history_in parts.old) (AddFrame owner nav entry state))) }
    ensures refused { IfErr result (IsRefused (history_in parts.old) (AddFrame owner nav entry state)) }
    ensures err { OnErr result (history_in parts.new ≡ history_in parts.old) }
{
    match frame_step(parts, owner, nav) {
        Ok(step) => {
            add_at(parts, owner, nav, entry, state, step)?;
            Ok(())
        }
        Err(error) => Err(error),
    }
}

// Adds a frame whose number is new, at the first step of its owner.
fn add_at(
    parts: &mut Parts,
    owner: StateId,
    nav: NavId,
    entry: EntryId,
    state: StateId,
    step: Step,
) -> Result<(), OutOfMemory>
    requires index { IsIndex parts.old }
    requires may { MayTake (history_in parts.old) (AddFrame owner nav entry state) }
    requires first { fold (first_of owner) None (rows_of parts.old.tracks.items) ≡ Some step.0 }
    requires is_child { nav.0 ≢ 0 }
    requires is_new { has_nav parts.old.added.keys nav ≡ false }
    ensures index { IsIndex parts.new }
    ensures fits { OnOk result (Fits (history_in parts.old) (AddFrame owner nav entry state)) }
    ensures ok { OnOk result (SameHistory (history_in parts.new) (applied (history_in parts.old) (AddFrame owner nav entry state))) }
    ensures err { OnErr result (history_in parts.new ≡ history_in parts.old) }
{
    let row = frame_row(*parts.tracks.allocator(), owner, nav, entry, step, state)?;
    put_frame(parts, row)?;
    Ok(())
}

// The step of the frame's first entry, where there is none under its number.
fn frame_step(parts: &Parts, owner: StateId, nav: NavId) -> Result<Step, StoreError>
    requires index { IsIndex parts.now }
    ensures first { IfOk result (λ step. fold (first_of owner) None (history_in parts.now).rows ≡ Some step.0) }
    ensures is_child { OnOk result (nav.0 ≢ 0) }
    ensures is_new { OnOk result (has_nav (history_in parts.now).added nav ≡ false) }
    ensures refused { (entry : EntryId) (state : StateId) → IfErr result (IsRefused (history_in parts.now) (AddFrame owner nav entry state)) }
{
    match start_of(&parts.starts, owner) {
        None => Err(StoreError::NoEntry),
        Some(step) => {
            if nav.0 == 0 {
                return Err(StoreError::NavTaken);
            }
            if was_added_in(&parts.added, nav) {
                return Err(StoreError::NavTaken);
            }
            Ok(step)
        }
    }
}

// A frame's first row.
fn frame_row(
    alloc: Global,
    owner: StateId,
    nav: NavId,
    entry: EntryId,
    step: Step,
    state: StateId,
) -> Result<Row, OutOfMemory>
    ensures { IfOk result (λ row. row ≡ record { owner = Some owner; nav = nav; entry = entry; step = step; state = state; address = blank_text; memo = None }) }
{
    let address = Address::blank(alloc)?;
    Ok(Row {
        owner: Some(owner),
        nav,
        entry,
        step,
        state,
        address,
        memo: None,
    })
}

// Puts the first row of a navigable whose number is new; without memory all stays.
fn put_frame(parts: &mut Parts, row: Row) -> Result<(), OutOfMemory>
    requires index { IsIndex parts.old }
    requires none { has_row row.nav (rows_of parts.old.tracks.items) ≡ false }
    requires fresh { has_nav parts.old.added.keys row.nav ≡ false }
    requires new { list_any (is_entry row.entry) (rows_of parts.old.tracks.items) ≡ false }
    ensures filed { IsFiled parts.new }
    ensures counted { OnOk result (AreCounted parts.new.counts.entries (rows_of parts.new.tracks.items)) }
    ensures rows { OnOk result (PutsRow (rows_of parts.old.tracks.items) row (rows_of parts.new.tracks.items)) }
    ensures added { OnOk result (parts.new.added.keys ≡ parts.old.added.keys ++ row.nav ∷ []) }
    ensures err { OnErr result (history_in parts.new ≡ history_in parts.old) }
    ensures counts { OnErr result (parts.new.counts.entries ≡ parts.old.counts.entries) }
    ensures used { parts.new.used.items ≡ parts.old.used.items }
    ensures current { parts.new.current ≡ parts.old.current }
{
    reserve_notes(&mut parts.noted, &mut parts.starts)?;
    reserve_counts(&mut parts.counts, row.step, row.owner)?;
    reserve_added(&mut parts.added)?;
    let nav = row.nav;
    let entry = row.entry;
    let state = row.state;
    let step = row.step;
    let owner = row.owner;
    put_last(&mut parts.tracks, row)?;
    note_in_room(&mut parts.noted, entry, Place { nav, step });
    start_in_room(&mut parts.starts, state, step);
    count_row(&mut parts.counts, step, owner);
    add_in_room(&mut parts.added, nav);
    Ok(())
}

// Room for one number more.
fn reserve_added(added: &mut IndexSet<NavId>) -> Result<(), OutOfMemory>
    ensures keys { added.new.keys ≡ added.old.keys }
    ensures room { OnOk result (0 < spare added.new) }
{
    added.reserve(1)?;
    Ok(())
}

// Notes that a child navigable has the number, where there is room for it.
#[tactic(auto, using(entry_store::proofs::AddLaw::added_by_key))]
fn add_in_room(added: &mut IndexSet<NavId>, nav: NavId)
    requires fresh { has_nav added.old.keys nav ≡ false }
    requires room { 0 < spare added.old }
    ensures { added.new.keys ≡ added.old.keys ++ nav ∷ [] }
{
    match added.insert(nav) {
        Ok(_) => {}
        Err(_) => unreachable!(),
    }
}
