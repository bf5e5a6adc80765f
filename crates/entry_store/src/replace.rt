//! A replace in the lists.
ghost use Rattle.std.specs.Prelude.{◌≡◌, IfErr, OnOk, OnErr};
ghost use Rattle.log_model.specs.History.{Fits, applied};
ghost use Rattle.log_model.specs.Order.{SameHistory};
ghost use Rattle.log_model.specs.declared.change.Change.TheVariants.{Replace};
ghost use Rattle.entry_store.specs.Store.{MayTake, IsRefused};
ghost use Rattle.entry_store.specs.Kept.{history_in, IsKept, IsPutOver};
ghost use Rattle.entry_store.specs.Places.{IsWithin};

use crate::cut::Cut;
use crate::error::StoreError;
use crate::nested::Nested;
use crate::place::entry_row;
use crate::plan::plan_of;
use crate::readers::has_row_in;
use crate::swap::{entry_place, swap_row};
use crate::sweep::sweep;
use address::{Address, OutOfMemory, Text};
use log_model::Row;
use tab_ids::{EntryId, NavId, StateId};

/// Puts an entry in the place and at the step of another one, and takes out what hung on that one's document alone.
pub fn replace_in(
    lists: &mut Nested,
    nav: NavId,
    over: EntryId,
    entry: EntryId,
    state: StateId,
    address: &Address,
    memo: &Option<Text>,
) -> Result<(), StoreError>
    requires kept { IsKept (history_in lists.old) lists.old.used.keys }
    requires may { MayTake (history_in lists.old) (Replace nav over entry state address.now memo.now) }
    ensures kept { IsKept (history_in lists.new) lists.new.used.keys }
    ensures fits { OnOk result (Fits (history_in lists.old) (Replace nav over entry state address.now memo.now)) }
    ensures ok { OnOk result (SameHistory (history_in lists.new) (applied (history_in lists.old) (Replace nav over entry state address.now memo.now))) }
    ensures refused { IfErr result (IsRefused (history_in lists.old) (Replace nav over entry state address.now memo.now)) }
    ensures err { OnErr result (history_in lists.new ≡ history_in lists.old) }
{
    if !has_row_in(&lists.nests, nav) {
        return Err(StoreError::NoNavigable);
    }
    match entry_place(&lists.nests, nav, over) {
        None => Err(StoreError::NoEntry),
        Some(p) => {
            let row = entry_row(p.owner, nav, entry, p.step, state, address, memo)?;
            put_over(lists, p.place, p.at, row)?;
            Ok(())
        }
    }
}

// Puts a row in the place of another, and takes out what no longer hangs on anything; without memory the lists stay.
fn put_over(lists: &mut Nested, place: usize, at: usize, row: Row) -> Result<(), OutOfMemory>
    requires within { IsWithin lists.old.nests.items place at }
    ensures ok { OnOk result (IsPutOver lists.old place at row lists.new) }
    ensures err { OnErr result (history_in lists.new ≡ history_in lists.old) }
    ensures used { OnErr result (lists.new.used.keys ≡ lists.old.used.keys) }
{
    let was = swap_row(&mut lists.nests, place, at, row);
    match plan_of(*lists.nests.allocator(), &lists.nests, &Cut::Nothing) {
        Ok(left) => {
            sweep(&mut lists.nests, &Cut::Nothing, &left.states);
            lists.used = left.steps;
            Ok(())
        }
        Err(e) => {
            swap_row(&mut lists.nests, place, at, was);
            Err(e)
        }
    }
}
