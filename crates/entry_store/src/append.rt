//! A push where no entry stands beyond the current step: nothing has to be cleared, and no pass along the rows is made.
ghost use Rattle.std.specs.Prelude.{◌≡◌, ◌≤◌, ◌<◌, length, IfSome, IsSome, OnOk, OnErr};
ghost use Rattle.log_model.specs.History.{Fits, applied, greatest_step, with_step};
ghost use Rattle.log_model.specs.Order.{SameHistory};
ghost use Rattle.log_model.specs.declared.change.Change.TheVariants.{Push};
ghost use Rattle.entry_store.specs.Nested.{rows_of};
ghost use Rattle.entry_store.specs.Store.{MayTake};
ghost use Rattle.entry_store.specs.Places.{IsListOf};
ghost use Rattle.entry_store.specs.Kept.{history_in, IsKept, PutsRow};

use crate::counting::greatest_step_in;
use crate::nest::Nest;
use crate::nested::Nested;
use crate::place::entry_row;
use address::{Address, OutOfMemory, Text};
use log_model::Row;
use std::collections::BTreeSet;
use tab_ids::{EntryId, NavId, StateId, Step};

/// The list that a navigable's next entry goes to, and the document state on which its entries hang.
#[derive(Clone, Copy)]
pub struct EndPlace {
    pub place: usize,
    pub owner: Option<StateId>,
}

/// Where a push goes that has nothing to clear; None where an entry stands beyond the current step, or no list begins with the navigable's entry.
pub fn end_place(lists: &Nested, nav: NavId) -> Option<EndPlace>
    requires kept { IsKept (history_in lists.now) lists.now.used.keys }
    ensures last { IsSome result → greatest_step (history_in lists.now).rows ≤ lists.now.current.0 }
    ensures list { IfSome result (λ end. IsListOf lists.now.nests.items nav end.place end.owner) }
{
    if lists.current < greatest_step_in(lists) {
        return None;
    }
    list_of(&lists.nests, nav)
}

// The first list that begins with the navigable's entry.
fn list_of(nests: &[Nest], nav: NavId) -> Option<EndPlace>
    ensures { IfSome result (λ end. IsListOf nests.now nav end.place end.owner) }
{
    for (place, nest) in nests.iter().enumerate() {
        if let Some(row) = nest.rows.first() {
            if row.nav == nav {
                let owner = row.owner;
                return Some(EndPlace { place, owner });
            }
        }
    }
    None
}

/// Adds an entry a step after the current one, which is the last.
pub fn append_in(
    lists: &mut Nested,
    end: EndPlace,
    nav: NavId,
    entry: EntryId,
    state: StateId,
    address: &Address,
    memo: &Option<Text>,
) -> Result<(), OutOfMemory>
    requires kept { IsKept (history_in lists.old) lists.old.used.keys }
    requires may { MayTake (history_in lists.old) (Push nav entry state address.now memo.now) }
    requires room { lists.old.current.0 < 4294967294 }
    requires last { greatest_step (history_in lists.old).rows ≤ lists.old.current.0 }
    requires list { IsListOf lists.old.nests.items nav end.place end.owner }
    ensures kept { IsKept (history_in lists.new) lists.new.used.keys }
    ensures fits { OnOk result (Fits (history_in lists.old) (Push nav entry state address.now memo.now)) }
    ensures ok { OnOk result (SameHistory (history_in lists.new) (applied (history_in lists.old) (Push nav entry state address.now memo.now))) }
    ensures err { OnErr result (history_in lists.new ≡ history_in lists.old) }
{
    let step = Step(lists.current.0 + 1);
    let row = entry_row(end.owner, nav, entry, step, state, address, memo)?;
    append_row(&mut lists.nests, &mut lists.used, end.place, row)?;
    lists.current = step;
    Ok(())
}

// Puts a row at the end of a list and notes its step; without memory lists and steps stay.
#[tactic(auto, using(crate::proofs::StepsLeft::one_step))]
fn append_row(
    nests: &mut Vec<Nest>,
    used: &mut BTreeSet<u32>,
    place: usize,
    row: Row,
) -> Result<(), OutOfMemory>
    requires { place < length nests.old.items }
    ensures ok { OnOk result (PutsRow (rows_of nests.old.items) row (rows_of nests.new.items)) }
    ensures steps { OnOk result (used.new.keys ≡ with_step row.step.0 used.old.keys) }
    ensures err { OnErr result (rows_of nests.new.items ≡ rows_of nests.old.items) }
    ensures err_steps { OnErr result (used.new.keys ≡ used.old.keys) }
{
    let nest = &mut nests[place];
    // What can fail comes first, so that an error changes nothing.
    nest.rows.reserve(1)?;
    used.insert(row.step.0)?;
    nest.rows.push(row)?;
    Ok(())
}
