//! `Cut`, the rows that a change takes out itself, before those that hang on them go.
ghost use Rattle.std.specs.Prelude.{◌≡◌};
ghost use Rattle.entry_store.specs.Nested.{outlives};

use log_model::Row;
use tab_ids::{EntryId, NavId, Step};

/// What a change takes out.
#[derive(Clone, Copy, PartialEq, Eq, Debug)]
pub enum Cut {
    /// The forward session history, all entries beyond a step, but for the one that is being pushed.
    Forward(Step, EntryId),
    /// All entries of a navigable.
    Navigable(NavId),
    /// No entry.
    Nothing,
}

impl Cut {
    /// Whether the row isn't taken out itself.
    pub fn is_outlived_by(&self, row: &Row) -> bool
        ensures { result ≡ outlives self.now row.now }
    {
        match self {
            Cut::Forward(current, but) => row.step <= *current || row.entry == *but,
            Cut::Navigable(nav) => row.nav != *nav,
            Cut::Nothing => true,
        }
    }
}
