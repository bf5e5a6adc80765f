//! A new row, and where it goes.
ghost use Rattle.std.specs.Prelude.{◌≡◌, ◌<◌, ◌&&◌, length, find, IfSome, IfOk, OnOk, OnErr};
ghost use Rattle.std.specs.Option.{option_copied, option_map};
ghost use Rattle.log_model.specs.History.{is_of};
ghost use Rattle.log_model.specs.declared.row.Row.{Row};
ghost use Rattle.entry_store.specs.Nested.{rows_of, stays};
ghost use Rattle.entry_store.specs.Kept.{PutsRow};

use crate::cut::Cut;
use crate::live::is_staying;
use crate::nest::Nest;
use address::{Address, OutOfMemory, Text};
use indexmap::IndexSet;
use log_model::{Row, copy_memo};
use tab_ids::{EntryId, NavId, StateId, Step};

/// An entry's row.
pub fn entry_row(
    owner: Option<StateId>,
    nav: NavId,
    entry: EntryId,
    step: Step,
    state: StateId,
    address: &Address,
    memo: &Option<Text>,
) -> Result<Row, OutOfMemory>
    ensures { IfOk result (λ row. row ≡ record { owner = owner; nav = nav; entry = entry; step = step; state = state; address = address.now; memo = memo.now }) }
{
    let address = address.copy()?;
    let memo = copy_memo(memo)?;
    Ok(Row {
        owner,
        nav,
        entry,
        step,
        state,
        address,
        memo,
    })
}

/// The list of a navigable's entries that stay, and the document state on which they hang; None where none stays.
pub fn place_of(
    nests: &[Nest],
    cut: &Cut,
    states: &IndexSet<StateId>,
    nav: NavId,
) -> Option<(usize, Option<StateId>)>
    ensures within { IfSome result (λ place. place.0 < length nests.now) }
    ensures owner { option_map (λ place. place.1) result ≡ option_map (λ (row : Row). row.owner) (find (λ row. is_of nav row && stays cut.now states.now.keys row) (rows_of nests.now)) }
{
    for (i, nest) in nests.iter().enumerate() {
        if let Some(row) = staying_row(&nest.rows, cut, states, nav) {
            return Some((i, row.owner));
        }
    }
    None
}

// The navigable's first entry in a list that stays.
fn staying_row<'a>(
    rows: &'a [Row],
    cut: &Cut,
    states: &IndexSet<StateId>,
    nav: NavId,
) -> Option<&'a Row>
    ensures { option_copied result ≡ find (λ row. is_of nav row && stays cut.now states.now.keys row) rows.now }
{
    rows.iter()
        .find(|row| row.nav == nav && is_staying(cut, states, row))
}

/// Puts a row at the end of a list; without memory the lists stay.
pub fn put_row(nests: &mut Vec<Nest>, place: usize, row: Row) -> Result<(), OutOfMemory>
    requires { place < length nests.old.items }
    ensures ok { OnOk result (PutsRow (rows_of nests.old.items) row (rows_of nests.new.items)) }
    ensures err { OnErr result (rows_of nests.new.items ≡ rows_of nests.old.items) }
{
    let nest = &mut nests[place];
    nest.rows.push(row)?;
    Ok(())
}
