//! A new frame in the lists.
ghost use Rattle.std.specs.Prelude.{◌≡◌, ◌∷◌, [], ◌++◌, false, fold, None, Some, IfOk, IfErr, OnOk, OnErr};
ghost use Rattle.address.specs.Addresses.{blank_text};
ghost use Rattle.log_model.specs.History.{Fits, applied, has_nav};
ghost use Rattle.log_model.specs.Order.{SameHistory};
ghost use Rattle.log_model.specs.declared.change.Change.TheVariants.{AddFrame};
ghost use Rattle.entry_store.specs.Store.{MayTake, IsRefused};
ghost use Rattle.entry_store.specs.Kept.{history_in, IsKept, IsFramePlan};
ghost use Rattle.entry_store.specs.Nested.{rows_of};
ghost use Rattle.entry_store.specs.Reading.{first_of, lower_step};

use crate::error::StoreError;
use crate::nest::Nest;
use crate::nested::Nested;
use address::{Address, OutOfMemory};
use indexmap::IndexSet;
use log_model::Row;
use std::alloc::Global;
use tab_ids::{EntryId, NavId, StateId, Step};

/// Adds a frame with its first entry, at the first step of the document state that it hangs on.
pub fn add_in(
    lists: &mut Nested,
    owner: StateId,
    nav: NavId,
    entry: EntryId,
    state: StateId,
) -> Result<(), StoreError>
    requires kept { IsKept (history_in lists.old) lists.old.used.keys }
    requires may { MayTake (history_in lists.old) (AddFrame owner nav entry state) }
    ensures kept { IsKept (history_in lists.new) lists.new.used.keys }
    ensures fits { OnOk result (Fits (history_in lists.old) (AddFrame owner nav entry state)) }
    ensures ok { OnOk result (SameHistory (history_in lists.new) (applied (history_in lists.old) (AddFrame owner nav entry state))) }
    ensures refused { IfErr result (IsRefused (history_in lists.old) (AddFrame owner nav entry state)) }
    ensures err { OnErr result (history_in lists.new ≡ history_in lists.old) }
{
    let nest = frame_plan(lists, owner, nav, entry, state)?;
    put_frame(&mut lists.nests, &mut lists.added, nest, nav)?;
    Ok(())
}

// The new frame's list; the lists stay as they are.
fn frame_plan(
    lists: &Nested,
    owner: StateId,
    nav: NavId,
    entry: EntryId,
    state: StateId,
) -> Result<Nest, StoreError>
    ensures ok { IfOk result (λ nest. IsFramePlan (history_in lists.now) owner nav entry state nest.rows.items) }
    ensures refused { IfErr result (IsRefused (history_in lists.now) (AddFrame owner nav entry state)) }
{
    match first_step_in(&lists.nests, owner) {
        None => Err(StoreError::NoEntry),
        Some(step) => {
            if nav.0 == 0 {
                return Err(StoreError::NavTaken);
            }
            if was_added_in(&lists.added, nav) {
                return Err(StoreError::NavTaken);
            }
            let alloc = *lists.nests.allocator();
            let nest = frame_nest(alloc, owner, nav, entry, Step(step), state)?;
            Ok(nest)
        }
    }
}

// Puts a frame's list behind the others and notes its number; without memory both stay.
fn put_frame(
    nests: &mut Vec<Nest>,
    added: &mut IndexSet<NavId>,
    nest: Nest,
    nav: NavId,
) -> Result<(), OutOfMemory>
    requires new { has_nav added.old.keys nav ≡ false }
    ensures rows { OnOk result (rows_of nests.new.items ≡ rows_of nests.old.items ++ nest.rows.items) }
    ensures added { OnOk result (added.new.keys ≡ added.old.keys ++ nav ∷ []) }
    ensures err { OnErr result (nests.new.items ≡ nests.old.items) }
    ensures err_added { OnErr result (added.new.keys ≡ added.old.keys) }
{
    put_nest(nests, nest)?;
    match note_added(added, nav) {
        Ok(()) => Ok(()),
        Err(e) => {
            nests.pop();
            Err(e)
        }
    }
}

// Notes that a child navigable has the number.
#[tactic(auto, using(crate::proofs::AddLaw::added_by_key))]
fn note_added(added: &mut IndexSet<NavId>, nav: NavId) -> Result<(), OutOfMemory>
    requires new { has_nav added.old.keys nav ≡ false }
    ensures ok { OnOk result (added.new.keys ≡ added.old.keys ++ nav ∷ []) }
    ensures err { OnErr result (added.new.keys ≡ added.old.keys) }
{
    added.insert(nav)?;
    Ok(())
}

// Puts a list behind the others; without memory these stay.
fn put_nest(nests: &mut Vec<Nest>, nest: Nest) -> Result<(), OutOfMemory>
    ensures ok { OnOk result (nests.new.items ≡ nests.old.items ++ nest ∷ []) }
    ensures err { OnErr result (nests.new.items ≡ nests.old.items) }
{
    nests.push(nest)?;
    Ok(())
}

/// Whether a child navigable with the number was ever added.
#[tactic(auto, using(crate::proofs::AddLaw::added_by_key))]
pub fn was_added_in(added: &IndexSet<NavId>, nav: NavId) -> bool
    ensures { result ≡ has_nav added.now.keys nav }
{
    added.contains(&nav)
}

// A new frame's list, with its first entry.
fn frame_nest(
    alloc: Global,
    owner: StateId,
    nav: NavId,
    entry: EntryId,
    step: Step,
    state: StateId,
) -> Result<Nest, OutOfMemory>
    ensures { IfOk result (λ nest. nest.rows.items ≡ record { owner = Some owner; nav = nav; entry = entry; step = step; state = state; address = blank_text; memo = None } ∷ []) }
{
    let address = Address::blank(alloc)?;
    let row = Row {
        owner: Some(owner),
        nav,
        entry,
        step,
        state,
        address,
        memo: None,
    };
    let mut rows = Vec::new(alloc);
    rows.push(row)?;
    Ok(Nest { rows })
}

// The least step of a row with the document state; None where no row has it.
fn first_step_in(nests: &[Nest], state: StateId) -> Option<u32>
    ensures { result ≡ fold (first_of state) None (rows_of nests.now) }
{
    let mut best = None;
    for nest in nests {
        best = first_in_list(&nest.rows, state, best);
    }
    best
}

// The least step, where it is in these rows or was before them.
fn first_in_list(rows: &[Row], state: StateId, before: Option<u32>) -> Option<u32>
    ensures { result ≡ fold (first_of state) before rows.now }
{
    let mut best = before;
    for row in rows {
        if row.state == state {
            best = lower(best, row.step.0);
        }
    }
    best
}

// The lower of the two.
fn lower(before: Option<u32>, step: u32) -> Option<u32>
    ensures { result ≡ lower_step before step }
{
    match before {
        Some(best) if best <= step => Some(best),
        _ => Some(step),
    }
}
