//! Each kind of change, made in the lists.
ghost use Rattle.std.specs.Prelude.{◌≡◌, ◌<◌, IfErr, OnOk, OnErr};
ghost use Rattle.log_model.specs.History.{Fits, applied};
ghost use Rattle.log_model.specs.Order.{SameHistory};
ghost use Rattle.log_model.specs.declared.change.Change.TheVariants.{Reload};
ghost use Rattle.entry_store.specs.Store.{MayTake, IsRefused};
ghost use Rattle.entry_store.specs.Kept.{history_in, IsKept};

use crate::add::add_in;
use crate::error::StoreError;
use crate::move_on::move_in;
use crate::nested::Nested;
use crate::push::push_in;
use crate::readers::has_row_in;
use crate::remove::remove_in;
use crate::replace::replace_in;
use log_model::Change;
use tab_ids::NavId;

/// Makes a change in the lists.
pub fn change_lists(lists: &mut Nested, change: &Change) -> Result<(), StoreError>
    requires kept { IsKept (history_in lists.old) lists.old.used.keys }
    requires may { MayTake (history_in lists.old) change.now }
    requires room { lists.old.current.0 < 4294967294 }
    ensures kept { IsKept (history_in lists.new) lists.new.used.keys }
    ensures fits { OnOk result (Fits (history_in lists.old) change.now) }
    ensures ok { OnOk result (SameHistory (history_in lists.new) (applied (history_in lists.old) change.now)) }
    ensures refused { IfErr result (IsRefused (history_in lists.old) change.now) }
    ensures err { OnErr result (history_in lists.new ≡ history_in lists.old) }
{
    match change {
        Change::Push {
            nav,
            entry,
            state,
            address,
            memo,
        } => push_in(lists, *nav, *entry, *state, address, memo),
        Change::Replace {
            nav,
            over,
            entry,
            state,
            address,
            memo,
        } => replace_in(lists, *nav, *over, *entry, *state, address, memo),
        Change::AddFrame {
            owner,
            nav,
            entry,
            state,
        } => add_in(lists, *owner, *nav, *entry, *state),
        Change::RemoveFrame { nav } => remove_in(lists, *nav),
        Change::Traverse { goal } => {
            move_in(lists, *goal);
            Ok(())
        }
        Change::Reload { nav } => reload_in(lists, *nav),
        Change::Edit => Ok(()),
    }
}

// A reload changes no entry; the navigable only has to have one.
fn reload_in(lists: &Nested, nav: NavId) -> Result<(), StoreError>
    ensures fits { OnOk result (Fits (history_in lists.now) (Reload nav)) }
    ensures refused { IfErr result (IsRefused (history_in lists.now) (Reload nav)) }
{
    if has_row_in(&lists.nests, nav) {
        Ok(())
    } else {
        Err(StoreError::NoNavigable)
    }
}
