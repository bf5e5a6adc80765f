//! `EntryStore`, a store of a history in lists nested by document state, which a contract sees as the history that it holds.
ghost use Rattle.entry_store.specs.Kept.{history_in, IsKept};

use crate::add::was_added_in;
use crate::change::change_lists;
use crate::counting::length_index_in;
use crate::error::StoreError;
use crate::listing::{children_in, rows_in_order};
use crate::nested::Nested;
use crate::opening::fresh_lists;
use crate::readers::{has_state_in, row_in, target_in, used_step_in};
use crate::store::Store;
use address::{Address, OutOfMemory};
use log_model::{Change, Navs, Row, Rows};
use std::alloc::Global;
use tab_ids::{EntryId, NavId, StateId, Step};

/// The session history of a tab, one list of entries a navigable.
#[derive(Drop)]
pub struct EntryStore {
    kept: Nested,
    ghost is_kept: { IsKept (history_in kept) kept.used.keys },
}

impl EntryStore {
    ghost use Rattle.std.specs.Prelude.{◌≡◌, IfOk};
    ghost use Rattle.log_model.specs.Opening.{opening_history};
    ghost use Rattle.entry_store.specs.Held.{history_held};

    /// The history with which a tab opens: the entry 0.1 at step 0, in the document state 1.
    pub fn fresh(alloc: Global, first: &Address) -> Result<EntryStore, OutOfMemory>
        ensures { IfOk result (λ store. history_held store ≡ opening_history record { maker = 0; nr = 1 } record { 0 = 1 } first.now) }
    {
        let kept = fresh_lists(alloc, first)?;
        Ok(EntryStore { kept })
    }
}

impl Store for EntryStore {
    ghost use Rattle.entry_store.specs.Held.{history_held};

    ghost history = { history_held };

    ghost sound = { λ store. store.is_kept.sound };

    ghost added = { λ store. store.is_kept.added };

    fn apply(&mut self, change: &Change) -> Result<(), StoreError> {
        change_lists(&mut self.kept, change)
    }

    fn current(&self) -> Step {
        self.kept.current
    }

    fn used_at(&self, s: Step) -> Step {
        used_step_in(&self.kept.nests, s)
    }

    fn length_index(&self, s: Step) -> (u32, u32) {
        length_index_in(&self.kept, s)
    }

    fn target(&self, nav: NavId, s: Step) -> Option<EntryId> {
        target_in(&self.kept.nests, nav, s)
    }

    fn row(&self, entry: EntryId) -> Option<&Row> {
        row_in(&self.kept.nests, entry)
    }

    fn has_state(&self, state: StateId) -> bool {
        has_state_in(&self.kept.nests, state)
    }

    fn was_added(&self, nav: NavId) -> bool {
        was_added_in(&self.kept.added, nav)
    }

    fn children(&self, state: StateId) -> Result<Navs, OutOfMemory> {
        children_in(*self.kept.nests.allocator(), &self.kept.nests, state)
    }

    fn rows(&self) -> Result<Rows, OutOfMemory> {
        rows_in_order(&self.kept)
    }
}
