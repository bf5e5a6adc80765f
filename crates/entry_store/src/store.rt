//! `Store`, a store of a tab's session history, which a contract sees as the history that it holds.
ghost use Rattle.std.specs.Prelude.{◌≡◌, ◌≢◌, ◌<◌, true, IfOk, IfErr, OnOk, OnErr};
ghost use Rattle.std.specs.Option.{option_copied, option_map};
ghost use Rattle.tab_ids.specs.declared.NavId.{NavId};
ghost use Rattle.log_model.specs.History.{History, Fits, applied, used_step_at, history_length, history_index, target_entry, row_of, has_state, has_nav, has_row};
ghost use Rattle.log_model.specs.Order.{ordered, SameHistory};
ghost use Rattle.log_model.specs.Soundness.{IsSound};
ghost use Rattle.entry_store.specs.Store.{MayTake, IsRefused, children_of};

use crate::error::StoreError;
use address::OutOfMemory;
use log_model::{Change, Navs, Row, Rows};
use tab_ids::{EntryId, NavId, StateId, Step};

/// A store of a history. It stands for a history up to the order of its rows: put by navigable and then by step they are the history's rows so put.
pub trait Store {
    ghost history: { Self → History };

    /// Makes a change of the history. `NoNavigable`, `NoEntry` and `NavTaken` come exactly where that part of fitting fails, tried in this order, unless memory is wanting.
    fn apply(&mut self, change: &Change) -> Result<(), StoreError>
        requires may { MayTake (history self.old) change.now }
        requires room { (history self.old).current < 4294967294 }
        ensures fits { OnOk result (Fits (history self.old) change.now) }
        ensures ok { OnOk result (SameHistory (history self.new) (applied (history self.old) change.now)) }
        ensures refused { IfErr result (IsRefused (history self.old) change.now) }
        ensures err { OnErr result (history self.new ≡ history self.old) };

    /// The current step.
    fn current(&self) -> Step
        ensures { result.0 ≡ (history self.now).current };

    /// The used step for a step: the greatest one that is at most this.
    fn used_at(&self, s: Step) -> Step
        ensures { result.0 ≡ used_step_at (history self.now).rows s.0 };

    /// The history object's length, and its index at a step.
    fn length_index(&self, s: Step) -> (u32, u32)
        ensures length { result.0 ≡ history_length (history self.now).rows }
        ensures index { result.1 ≡ history_index (history self.now).rows s.0 };

    /// The navigable's target entry at a step; None where it has no entry at or before it.
    fn target(&self, nav: NavId, s: Step) -> Option<EntryId>
        ensures { result ≡ option_map (λ row. row.entry) (target_entry (history self.now).rows nav s.0) };

    /// The row of an entry.
    fn row(&self, entry: EntryId) -> Option<&Row>
        ensures { option_copied result ≡ row_of entry (history self.now).rows };

    /// Whether a row has the document state.
    fn has_state(&self, state: StateId) -> bool
        ensures { result ≡ has_state state (history self.now).rows };

    /// Whether a child navigable with the number was ever added.
    fn was_added(&self, nav: NavId) -> bool
        ensures { result ≡ has_nav (history self.now).added nav };

    /// The navigables whose entries hang on the document state, in order of number.
    fn children(&self, state: StateId) -> Result<Navs, OutOfMemory>
        ensures { IfOk result (λ navs. navs ≡ children_of state (history self.now).rows) };

    /// All rows, by navigable and then by step.
    fn rows(&self) -> Result<Rows, OutOfMemory>
        ensures { IfOk result (λ rows. rows ≡ ordered (history self.now).rows) };

    // The history is sound, and each child with a row was added.
    ghost sound: { (store : Self) → IsSound (history store) };

    ghost added: { (store : Self) (nav : NavId) → has_row nav (history store).rows ≡ true → nav.0 ≢ 0 → has_nav (history store).added nav ≡ true };
}
