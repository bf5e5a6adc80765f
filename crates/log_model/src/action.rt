//! `Action`, what a poked document is to do.
ghost use Rattle.std.specs.Prelude.{◌≡◌, IfOk};

use crate::row::copy_memo;
use address::{OutOfMemory, Text};
use tab_ids::NavId;

/// What a document does by its own script: the history API's calls, frames, and edits that leave it dirty.
#[derive(Drop)]
pub enum Action {
    Push {
        memo: Option<Text>,
        reference: Option<Text>,
    },
    Replace {
        memo: Option<Text>,
        reference: Option<Text>,
    },
    Fragment {
        text: Text,
    },
    AddFrame {
        nav: NavId,
    },
    RemoveFrame {
        nav: NavId,
    },
    Go {
        delta: i32,
    },
    Edit,
}

impl Action {
    /// An equal action.
    pub fn copy(&self) -> Result<Action, OutOfMemory>
        ensures { IfOk result (λ action. action ≡ self.now) }
    {
        match self {
            Action::Push { memo, reference } => {
                let memo = copy_memo(memo)?;
                let reference = copy_memo(reference)?;
                Ok(Action::Push { memo, reference })
            }
            Action::Replace { memo, reference } => {
                let memo = copy_memo(memo)?;
                let reference = copy_memo(reference)?;
                Ok(Action::Replace { memo, reference })
            }
            Action::Fragment { text } => {
                let text = text.copy()?;
                Ok(Action::Fragment { text })
            }
            Action::AddFrame { nav } => Ok(Action::AddFrame { nav: *nav }),
            Action::RemoveFrame { nav } => Ok(Action::RemoveFrame { nav: *nav }),
            Action::Go { delta } => Ok(Action::Go { delta: *delta }),
            Action::Edit => Ok(Action::Edit),
        }
    }
}
