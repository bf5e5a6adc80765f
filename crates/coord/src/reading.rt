//! What is read of the history: the store that keeps it, and which navigables have entries and are shown.
ghost use Rattle.std.specs.Prelude.{◌≡◌, true};
ghost use Rattle.coord.specs.Standing.{StandsFor};
ghost use Rattle.log_model.specs.History.{has_row};
ghost use Rattle.log_model.specs.Places.{is_shown};
ghost use Rattle.log_model.specs.Seen.{Seen};
ghost use Rattle.step_index.specs.Held.{history_held};
ghost use Rattle.tab_doors.specs.Ties.{HoldsHistory};
ghost use Rattle.tab_stands.specs.Standing.{HasRoomFor};

use crate::coordinator::Coordinator;
use apply_plan::{Reach, is_reached};
use entry_store::Store;
use step_index::StepIndex;
use tab_drops::is_bare;
use tab_ids::NavId;

impl Coordinator {
    /// The store that keeps the history of each log that the coordinator stands for.
    pub fn store(&self) -> &StepIndex
        ensures store { result.now ≡ self.now.tables.store }
        ensures history { (s : Seen) → StandsFor s self.now → HoldsHistory (history_held result.now) s.history }
    {
        &self.tables.store
    }

    /// Whether a navigable has an entry.
    pub fn has_row(&self, nav: NavId) -> bool
        ensures { (s : Seen) → StandsFor s self.now → HasRoomFor s → result ≡ has_row nav s.history.rows }
    {
        !is_bare(&self.tables.store, nav)
    }

    /// Whether a navigable with an entry is shown at the current step: it is the top, or it hangs on the document state of its shown parent's target. HTML Standard, "Navigables".
    pub fn is_shown(&self, nav: NavId) -> bool
        ensures { (s : Seen) → StandsFor s self.now → has_row nav s.history.rows ≡ true → result ≡ is_shown s.history.rows s.history.current nav }
    {
        let store = &self.tables.store;
        is_reached(store, &self.tables.tree, nav, store.current(), Reach::Shown)
    }
}
