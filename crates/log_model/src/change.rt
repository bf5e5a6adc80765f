//! `Change`, what an applied request does to the history.
ghost use Rattle.std.specs.Prelude.{◌≡◌, IfOk};

use crate::row::copy_memo;
use address::{Address, OutOfMemory, Text};
use tab_ids::{EntryId, NavId, StateId, Step};

/// A change of the history. A traversal's goal is the step that becomes current.
#[derive(Drop)]
pub enum Change {
    Push {
        nav: NavId,
        entry: EntryId,
        state: StateId,
        address: Address,
        memo: Option<Text>,
    },
    Replace {
        nav: NavId,
        over: EntryId,
        entry: EntryId,
        state: StateId,
        address: Address,
        memo: Option<Text>,
    },
    AddFrame {
        owner: StateId,
        nav: NavId,
        entry: EntryId,
        state: StateId,
    },
    RemoveFrame {
        nav: NavId,
    },
    Traverse {
        goal: Step,
    },
    Reload {
        nav: NavId,
    },
    Edit,
}

impl Change {
    /// An equal change.
    pub fn copy(&self) -> Result<Change, OutOfMemory>
        ensures { IfOk result (λ change. change ≡ self.now) }
    {
        match self {
            Change::Push {
                nav,
                entry,
                state,
                address,
                memo,
            } => {
                let address = address.copy()?;
                let memo = copy_memo(memo)?;
                Ok(Change::Push {
                    nav: *nav,
                    entry: *entry,
                    state: *state,
                    address,
                    memo,
                })
            }
            Change::Replace {
                nav,
                over,
                entry,
                state,
                address,
                memo,
            } => {
                let address = address.copy()?;
                let memo = copy_memo(memo)?;
                Ok(Change::Replace {
                    nav: *nav,
                    over: *over,
                    entry: *entry,
                    state: *state,
                    address,
                    memo,
                })
            }
            Change::AddFrame {
                owner,
                nav,
                entry,
                state,
            } => Ok(Change::AddFrame {
                owner: *owner,
                nav: *nav,
                entry: *entry,
                state: *state,
            }),
            Change::RemoveFrame { nav } => Ok(Change::RemoveFrame { nav: *nav }),
            Change::Traverse { goal } => Ok(Change::Traverse { goal: *goal }),
            Change::Reload { nav } => Ok(Change::Reload { nav: *nav }),
            Change::Edit => Ok(Change::Edit),
        }
    }
}
