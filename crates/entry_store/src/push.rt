//! A push in the lists.
ghost use Rattle.std.specs.Prelude.{◌≡◌, ◌<◌, IfOk, IfErr, OnOk, OnErr};
ghost use Rattle.log_model.specs.History.{Fits, applied};
ghost use Rattle.log_model.specs.Order.{SameHistory};
ghost use Rattle.log_model.specs.declared.change.Change.TheVariants.{Push};
ghost use Rattle.entry_store.specs.Store.{MayTake, IsRefused};
ghost use Rattle.entry_store.specs.Kept.{history_in, IsKept, IsPushPlan};

use crate::append::{append_in, end_place};
use crate::cut::Cut;
use crate::error::StoreError;
use crate::nested::Nested;
use crate::place::{entry_row, place_of, put_row};
use crate::plan::{Plan, plan_of};
use crate::sweep::sweep;
use address::{Address, Text};
use log_model::Row;
use tab_ids::{EntryId, NavId, StateId, Step};

/// A push that is sure of its place and its memory, but for that of the list it goes to.
#[derive(Drop)]
struct PushPlan {
    place: usize,
    row: Row,
    left: Plan,
}

/// Clears the forward session history and adds an entry a step after the current one.
pub fn push_in(
    lists: &mut Nested,
    nav: NavId,
    entry: EntryId,
    state: StateId,
    address: &Address,
    memo: &Option<Text>,
) -> Result<(), StoreError>
    requires kept { IsKept (history_in lists.old) lists.old.used.keys }
    requires may { MayTake (history_in lists.old) (Push nav entry state address.now memo.now) }
    requires room { lists.old.current.0 < 4294967294 }
    ensures kept { IsKept (history_in lists.new) lists.new.used.keys }
    ensures fits { OnOk result (Fits (history_in lists.old) (Push nav entry state address.now memo.now)) }
    ensures ok { OnOk result (SameHistory (history_in lists.new) (applied (history_in lists.old) (Push nav entry state address.now memo.now))) }
    ensures refused { IfErr result (IsRefused (history_in lists.old) (Push nav entry state address.now memo.now)) }
    ensures err { OnErr result (history_in lists.new ≡ history_in lists.old) }
{
    match end_place(lists, nav) {
        Some(end) => {
            append_in(lists, end, nav, entry, state, address, memo)?;
            Ok(())
        }
        None => clear_and_push(lists, nav, entry, state, address, memo),
    }
}

// The same, going along all rows: where entries stand beyond the current step, or no list begins with the navigable's entry.
fn clear_and_push(
    lists: &mut Nested,
    nav: NavId,
    entry: EntryId,
    state: StateId,
    address: &Address,
    memo: &Option<Text>,
) -> Result<(), StoreError>
    requires kept { IsKept (history_in lists.old) lists.old.used.keys }
    requires may { MayTake (history_in lists.old) (Push nav entry state address.now memo.now) }
    requires room { lists.old.current.0 < 4294967294 }
    ensures kept { IsKept (history_in lists.new) lists.new.used.keys }
    ensures fits { OnOk result (Fits (history_in lists.old) (Push nav entry state address.now memo.now)) }
    ensures ok { OnOk result (SameHistory (history_in lists.new) (applied (history_in lists.old) (Push nav entry state address.now memo.now))) }
    ensures refused { IfErr result (IsRefused (history_in lists.old) (Push nav entry state address.now memo.now)) }
    ensures err { OnErr result (history_in lists.new ≡ history_in lists.old) }
{
    let plan = push_plan(lists, nav, entry, state, address, memo)?;
    put_row(&mut lists.nests, plan.place, plan.row)?;
    let cut = Cut::Forward(lists.current, entry);
    sweep(&mut lists.nests, &cut, &plan.left.states);
    lists.current = Step(lists.current.0 + 1);
    lists.used = plan.left.steps;
    Ok(())
}

// What the push will do; the lists stay as they are.
fn push_plan(
    lists: &Nested,
    nav: NavId,
    entry: EntryId,
    state: StateId,
    address: &Address,
    memo: &Option<Text>,
) -> Result<PushPlan, StoreError>
    requires kept { IsKept (history_in lists.now) lists.now.used.keys }
    requires may { MayTake (history_in lists.now) (Push nav entry state address.now memo.now) }
    requires room { lists.now.current.0 < 4294967294 }
    ensures ok { IfOk result (λ p. IsPushPlan lists.now nav entry state address.now memo.now p.place p.row p.left.states.keys p.left.steps.keys) }
    ensures refused { IfErr result (IsRefused (history_in lists.now) (Push nav entry state address.now memo.now)) }
{
    let cut = Cut::Forward(lists.current, entry);
    let mut left = plan_of(*lists.nests.allocator(), &lists.nests, &cut)?;
    match place_of(&lists.nests, &cut, &left.states, nav) {
        None => Err(StoreError::NoNavigable),
        Some((place, owner)) => {
            let step = Step(lists.current.0 + 1);
            let row = entry_row(owner, nav, entry, step, state, address, memo)?;
            left.note(step)?;
            Ok(PushPlan { place, row, left })
        }
    }
}
