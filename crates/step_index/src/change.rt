//! Each kind of change.
ghost use Rattle.std.specs.Prelude.{◌≡◌, ◌<◌, IfErr, OnOk, OnErr};
ghost use Rattle.log_model.specs.History.{Fits, applied};
ghost use Rattle.log_model.specs.Order.{SameHistory};
ghost use Rattle.log_model.specs.declared.change.Change.TheVariants.{Reload};
ghost use Rattle.entry_store.specs.Store.{MayTake, IsRefused};
ghost use Rattle.step_index.specs.Parts.{history_in, IsIndex};

use crate::frames::add_in;
use crate::move_on::move_in;
use crate::parts::Parts;
use crate::push::push_in;
use crate::readers::has_row_in;
use crate::remove::remove_in;
use crate::replace::replace_in;
use entry_store::StoreError;
use log_model::Change;
use tab_ids::NavId;

/// Makes a change.
pub fn change_parts(parts: &mut Parts, change: &Change) -> Result<(), StoreError>
    requires index { IsIndex parts.old }
    requires may { MayTake (history_in parts.old) change.now }
    requires room { parts.old.current.0 < 4294967294 }
    ensures index { IsIndex parts.new }
    ensures fits { OnOk result (Fits (history_in parts.old) change.now) }
    ensures ok { OnOk result (SameHistory (history_in parts.new) (applied (history_in parts.old) change.now)) }
    ensures refused { IfErr result (IsRefused (history_in parts.old) change.now) }
    ensures err { OnErr result (history_in parts.new ≡ history_in parts.old) }
{
    match change {
        Change::Push {
            nav,
            entry,
            state,
            address,
            memo,
        } => push_in(parts, change, *nav, *entry, *state, address, memo),
        Change::Replace {
            nav,
            over,
            entry,
            state,
            address,
            memo,
        } => replace_in(parts, change, *nav, *over, *entry, *state, address, memo),
        Change::AddFrame {
            owner,
            nav,
            entry,
            state,
        } => add_in(parts, *owner, *nav, *entry, *state),
        Change::Traverse { goal } => {
            move_in(parts, *goal);
            Ok(())
        }
        Change::Reload { nav } => reload_in(parts, *nav),
        Change::Edit => Ok(()),
        Change::RemoveFrame { nav } => remove_in(parts, change, *nav),
    }
}

// A reload changes no entry; the navigable only has to have one.
fn reload_in(parts: &Parts, nav: NavId) -> Result<(), StoreError>
    requires index { IsIndex parts.now }
    ensures fits { OnOk result (Fits (history_in parts.now) (Reload nav)) }
    ensures refused { IfErr result (IsRefused (history_in parts.now) (Reload nav)) }
{
    if has_row_in(&parts.tracks, nav) {
        Ok(())
    } else {
        Err(StoreError::NoNavigable)
    }
}
