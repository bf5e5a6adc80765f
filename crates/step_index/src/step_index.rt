//! `StepIndex`, a store of a history that is sorted by step, which a contract sees as the history that it holds.
ghost use Rattle.entry_store.specs.Kept.{IsKept};
ghost use Rattle.step_index.specs.Parts.{history_in};
ghost use Rattle.step_index.specs.Groups.{AreCounted};
ghost use Rattle.step_index.specs.Noted.{AreNoted};
ghost use Rattle.step_index.specs.Starts.{AreStarted};
ghost use Rattle.step_index.specs.Tracks.{rows_of, AreTracks};
ghost use Rattle.step_index.specs.Props.{AreTracks-prop};

use crate::change::change_parts;
use crate::listing::{children_in, rows_in_order};
use crate::move_on::{target, used_step};
use crate::opening::fresh_parts;
use crate::parts::Parts;
use crate::readers::{
    has_state_in, length_index_in, row_in, target_in, used_step_in, was_added_in,
};
use crate::ticks::Steps;
use address::{Address, OutOfMemory};
use entry_store::{Store, StoreError};
use log_model::{Change, Navs, Row, Rows};
use std::alloc::Global;
use std::sync::ledger::Ledger;
use tab_ids::{EntryId, NavId, StateId, Step};

/// The session history of a tab, each navigable's entries sorted by step.
#[derive(Drop)]
pub struct StepIndex {
    parts: Parts,
    ghost kept: { IsKept (history_in parts) parts.used.items },
    ghost noted: { AreNoted parts.noted.entries (rows_of parts.tracks.items) },
    ghost started: { AreStarted parts.starts.entries (rows_of parts.tracks.items) },
    ghost counted: { AreCounted parts.counts.entries (rows_of parts.tracks.items) },
    ghost sorted: { AreTracks parts.tracks.items } by { AreTracks-prop parts.tracks.items },
}

impl StepIndex {
    ghost use Rattle.std.specs.Prelude.{◌≡◌, ◌≤◌, ◌-◌, ◌*◌, ◌+◌, ◌^◌, length, filter, slice_get, IfOk};
    ghost use Rattle.std.specs.Option.{option_map};
    ghost use Rattle.log_model.specs.History.{is_of, used_steps, used_step_at, target_entry};
    ghost use Rattle.log_model.specs.Opening.{opening_history};
    ghost use Rattle.step_index.specs.Held.{history_held};

    /// The history with which a tab opens: the entry 0.1 at step 0, in the document state 1.
    pub fn fresh(alloc: Global, first: &Address) -> Result<StepIndex, OutOfMemory>
        ensures { IfOk result (λ store. history_held store ≡ opening_history record { maker = 0; nr = 1 } record { 0 = 1 } first.now) }
    {
        let parts = fresh_parts(alloc, first)?;
        Ok(StepIndex { parts })
    }

    /// The used step for a step: the greatest one that is at most this. Each comparison of a used step with `s` is a tick.
    pub fn used_at_counted<L: Ledger>(&self, s: Step, steps: &mut Steps<L>) -> Step
        ensures used { result.0 ≡ used_step_at (history_held self.now).rows s.0 }
        ensures counted { steps.old ≤ steps.new }
        ensures cost { 2 ^ (steps.new - steps.old) ≤ 2 * length (used_steps (history_held self.now).rows) + 1 }
    {
        used_step_in(&self.parts, s, steps)
    }

    /// The used step before which so many others stand.
    pub fn step_of(&self, index: usize) -> Option<Step>
        ensures { option_map (λ step. step.0) result ≡ slice_get (used_steps (history_held self.now).rows) index }
    {
        match self.parts.used.get(index) {
            Some(step) => Some(Step(*step)),
            None => None,
        }
    }

    /// The navigable's target entry at a step. Each comparison of the step of one of its entries with `s` is a tick.
    pub fn target_counted<L: Ledger>(
        &self,
        nav: NavId,
        s: Step,
        steps: &mut Steps<L>,
    ) -> Option<EntryId>
        ensures target { result ≡ option_map (λ row. row.entry) (target_entry (history_held self.now).rows nav s.0) }
        ensures counted { steps.old ≤ steps.new }
        ensures cost { 2 ^ (steps.new - steps.old) ≤ 2 * length (filter (is_of nav) (history_held self.now).rows) + 1 }
    {
        target_in(&self.parts.tracks, nav, s, steps)
    }
}

impl Store for StepIndex {
    ghost use Rattle.step_index.specs.Held.{history_held};

    ghost history = { history_held };

    ghost sound = { λ store. store.kept.sound };

    ghost added = { λ store. store.kept.added };

    fn apply(&mut self, change: &Change) -> Result<(), StoreError> {
        change_parts(&mut self.parts, change)
    }

    fn current(&self) -> Step {
        self.parts.current
    }

    fn used_at(&self, s: Step) -> Step {
        used_step(&self.parts, s)
    }

    fn length_index(&self, s: Step) -> (u32, u32) {
        length_index_in(&self.parts, s)
    }

    fn target(&self, nav: NavId, s: Step) -> Option<EntryId> {
        target(&self.parts.tracks, nav, s)
    }

    fn row(&self, entry: EntryId) -> Option<&Row> {
        row_in(&self.parts, entry)
    }

    fn has_state(&self, state: StateId) -> bool {
        has_state_in(&self.parts, state)
    }

    fn was_added(&self, nav: NavId) -> bool {
        was_added_in(&self.parts.added, nav)
    }

    fn children(&self, state: StateId) -> Result<Navs, OutOfMemory> {
        children_in(*self.parts.tracks.allocator(), &self.parts.tracks, state)
    }

    fn rows(&self) -> Result<Rows, OutOfMemory> {
        rows_in_order(*self.parts.tracks.allocator(), &self.parts.tracks)
    }
}
