//! A push: what stands past the current step goes, and the entry goes behind the others of its navigable.
ghost use Rattle.std.specs.Prelude.{◌≡◌, ◌<◌, true, nat_le, length, slice_get, Some, IfSome, IfErr, IfOk, OnOk, OnErr};
ghost use Rattle.std.specs.Option.{option_map};
ghost use Rattle.log_model.specs.History.{Fits, applied, cleared, greatest_step};
ghost use Rattle.log_model.specs.Order.{SameHistory};
ghost use Rattle.log_model.specs.declared.row.Row.{Row};
ghost use Rattle.log_model.specs.declared.change.Change.TheVariants.{Push};
ghost use Rattle.entry_store.specs.Kept.{IsKept};
ghost use Rattle.entry_store.specs.Store.{MayTake, IsRefused};
ghost use Rattle.step_index.specs.Tracks.{rows_of, IsTrackAt};
ghost use Rattle.step_index.specs.Cut.{rows_upto};
ghost use Rattle.step_index.specs.Parts.{history_in, IsIndex, IsLeftAt};

use crate::cut::is_clean;
use crate::parts::Parts;
use crate::places::find_nav;
use crate::put::put_cleared;
use crate::rebuild::change_all;
use crate::room::make_room;
use address::{Address, OutOfMemory, Text};
use entry_store::StoreError;
use log_model::{Change, Row, copy_memo};
use tab_ids::{EntryId, NavId, StateId, Step};

/// Clears the forward session history and adds an entry a step after the current one.
pub fn push_in(
    parts: &mut Parts,
    change: &Change,
    nav: NavId,
    entry: EntryId,
    state: StateId,
    address: &Address,
    memo: &Option<Text>,
) -> Result<(), StoreError>
    requires index { IsIndex parts.old }
    requires push { change.now ≡ Push nav entry state address.now memo.now }
    requires may { MayTake (history_in parts.old) (Push nav entry state address.now memo.now) }
    requires room { parts.old.current.0 < 4294967294 }
    ensures index { IsIndex parts.new }
    ensures fits { OnOk result (Fits (history_in parts.old) (Push nav entry state address.now memo.now)) }
    ensures ok { OnOk result (SameHistory (history_in parts.new) (applied (history_in parts.old) (Push nav entry state address.now memo.now))) }
    ensures refused { IfErr result (IsRefused (history_in parts.old) (Push nav entry state address.now memo.now)) }
    ensures err { OnErr result (history_in parts.new ≡ history_in parts.old) }
{
    match left_place(parts, nav) {
        Some(at) => {
            push_at(parts, at, nav, entry, state, address, memo)?;
            Ok(())
        }
        None => change_all(parts, change),
    }
}

/// The greatest used step.
pub fn greatest_step_in(parts: &Parts) -> Step
    requires kept { IsKept (history_in parts.now) parts.now.used.items }
    ensures { result.0 ≡ greatest_step (history_in parts.now).rows }
{
    match parts.used.last() {
        Some(last) => Step(*last),
        None => Step(0),
    }
}

// The navigable's place, where it has an entry up to the current step and nothing hangs on what stands past it alone.
fn left_place(parts: &Parts, nav: NavId) -> Option<usize>
    requires index { IsIndex parts.now }
    ensures { IfSome result (λ at. IsLeftAt parts.now nav at) }
{
    match find_nav(&parts.tracks, nav) {
        Ok(at) => left_at(parts, nav, at),
        Err(_) => None,
    }
}

// The same of the navigable's track.
fn left_at(parts: &Parts, nav: NavId, at: usize) -> Option<usize>
    requires index { IsIndex parts.now }
    requires place { IsTrackAt parts.now.tracks.items nav at }
    ensures { IfSome result (λ at. IsLeftAt parts.now nav at) }
{
    if !is_first_upto(&parts.tracks[at].rows, parts.current) {
        return None;
    }
    if !is_cut_clean(parts) {
        return None;
    }
    Some(at)
}

// Whether a navigable has a first entry, which stands up to a step.
fn is_first_upto(rows: &[Row], step: Step) -> bool
    ensures some { result ≡ true → 0 < length rows.now }
    ensures first { IfSome (slice_get rows.now 0) (λ row. result ≡ nat_le row.step.0 step.0) }
{
    match rows.first() {
        Some(row) => row.step <= step,
        None => false,
    }
}

// Whether all that hangs on an entry up to the current step stays where the others go.
fn is_cut_clean(parts: &Parts) -> bool
    requires index { IsIndex parts.now }
    ensures { result ≡ true → cleared (history_in parts.now) ≡ rows_upto parts.now.current.0 (rows_of parts.now.tracks.items) }
{
    if greatest_step_in(parts) <= parts.current {
        return true;
    }
    is_clean(&parts.tracks, &parts.starts, parts.current)
}

// Adds an entry a step after the current one, past which nothing stays.
fn push_at(
    parts: &mut Parts,
    at: usize,
    nav: NavId,
    entry: EntryId,
    state: StateId,
    address: &Address,
    memo: &Option<Text>,
) -> Result<(), OutOfMemory>
    requires index { IsIndex parts.old }
    requires may { MayTake (history_in parts.old) (Push nav entry state address.now memo.now) }
    requires room { parts.old.current.0 < 4294967294 }
    requires left { IsLeftAt parts.old nav at }
    ensures index { IsIndex parts.new }
    ensures fits { OnOk result (Fits (history_in parts.old) (Push nav entry state address.now memo.now)) }
    ensures ok { OnOk result (SameHistory (history_in parts.new) (applied (history_in parts.old) (Push nav entry state address.now memo.now))) }
    ensures err { OnErr result (history_in parts.new ≡ history_in parts.old) }
{
    let step = Step(parts.current.0 + 1);
    let owner = first_owner(&parts.tracks[at].rows);
    let row = entry_row(owner, nav, entry, step, state, address, memo)?;
    make_room(parts, nav, at, step, owner)?;
    put_cleared(parts, row);
    parts.current = step;
    Ok(())
}

// The document state on which a navigable's entries hang.
fn first_owner(rows: &[Row]) -> Option<StateId>
    requires { 0 < length rows.now }
    ensures { option_map (λ (row : Row). row.owner) (slice_get rows.now 0) ≡ Some result }
{
    rows[0].owner
}

/// An entry's row.
pub fn entry_row(
    owner: Option<StateId>,
    nav: NavId,
    entry: EntryId,
    step: Step,
    state: StateId,
    address: &Address,
    memo: &Option<Text>,
) -> Result<Row, OutOfMemory>
    ensures { IfOk result (λ row. row ≡ record { owner = owner; nav = nav; entry = entry; step = step; state = state; address = address.now; memo = memo.now }) }
{
    let address = address.copy()?;
    let memo = copy_memo(memo)?;
    Ok(Row {
        owner,
        nav,
        entry,
        step,
        state,
        address,
        memo,
    })
}
