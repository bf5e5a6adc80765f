//! One entry put in the place of another.
ghost use Rattle.std.specs.Prelude.{◌≡◌, ◌<◌, false, length, slice_get, Some, IsNone, IfSome};
ghost use Rattle.std.specs.List.{list_any};
ghost use Rattle.entry_store.specs.Nested.{rows_of};
ghost use Rattle.entry_store.specs.Places.{is_navs_entry, IsEntryAt, IsPlaceOf, IsWithin, SwapsRow};

use crate::nest::Nest;
use log_model::Row;
use std::mem;
use tab_ids::{EntryId, NavId, StateId, Step};

/// Where an entry stands, and what its successor takes over from it.
#[derive(Clone, Copy)]
pub struct EntryPlace {
    pub place: usize,
    pub at: usize,
    pub owner: Option<StateId>,
    pub step: Step,
}

/// The place of a navigable's entry.
pub fn entry_place(nests: &[Nest], nav: NavId, entry: EntryId) -> Option<EntryPlace>
    ensures found { IfSome result (λ p. IsPlaceOf nests.now nav entry p.place p.at p.owner p.step.0) }
    ensures none { IsNone result → list_any (is_navs_entry nav entry) (rows_of nests.now) ≡ false }
{
    for place in 0..nests.len() {
        if let Some(at) = entry_at(&nests[place].rows, nav, entry) {
            let row = &nests[place].rows[at];
            return Some(EntryPlace {
                place,
                at,
                owner: row.owner,
                step: row.step,
            });
        }
    }
    None
}

// The place of a navigable's entry in one list.
fn entry_at(rows: &[Row], nav: NavId, entry: EntryId) -> Option<usize>
    ensures found { IfSome result (λ at. IsEntryAt rows.now nav entry at) }
    ensures within { IfSome result (λ at. at < length rows.now) }
    ensures none { IsNone result → list_any (is_navs_entry nav entry) rows.now ≡ false }
{
    for at in 0..rows.len() {
        if rows[at].entry == entry && rows[at].nav == nav {
            return Some(at);
        }
    }
    None
}

/// Puts a row in the place of another, which is handed out.
pub fn swap_row(nests: &mut Vec<Nest>, place: usize, at: usize, row: Row) -> Row
    requires { IsWithin nests.old.items place at }
    ensures { SwapsRow nests.old.items place at row result nests.new.items }
{
    let nest = &mut nests[place];
    mem::replace(&mut nest.rows[at], row)
}
