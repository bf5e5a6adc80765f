//! `Row`, one session history entry with the navigable it belongs to.
ghost use Rattle.std.specs.Prelude.{◌≡◌, IfOk};

use crate::items::Items;
use address::{Address, OutOfMemory, Text};
use tab_ids::{DocId, EntryId, NavId, StateId, Step};

/// A session history entry. `owner` is the document state on which the entries of a child navigable hang: that of its parent's document. All rows of one navigable have the same owner; the top's have none.
#[derive(Drop)]
pub struct Row {
    pub owner: Option<StateId>,
    pub nav: NavId,
    pub entry: EntryId,
    pub step: Step,
    pub state: StateId,
    pub address: Address,
    /// The history API's state, of at most 64 bytes, or none.
    pub memo: Option<Text>,
}

/// A list of rows.
pub type Rows = Items<Row>;

/// A list of documents.
pub type Docs = Items<DocId>;

/// A list of navigables.
pub type Navs = Items<NavId>;

impl Row {
    /// An equal row.
    pub fn copy(&self) -> Result<Row, OutOfMemory>
        ensures { IfOk result (λ row. row ≡ self.now) }
    {
        let address = self.address.copy()?;
        let memo = copy_memo(&self.memo)?;
        Ok(Row {
            owner: self.owner,
            nav: self.nav,
            entry: self.entry,
            step: self.step,
            state: self.state,
            address,
            memo,
        })
    }
}

/// An equal memo.
pub fn copy_memo(memo: &Option<Text>) -> Result<Option<Text>, OutOfMemory>
    ensures { IfOk result (λ copied. copied ≡ memo.now) }
{
    match memo {
        Some(text) => {
            let text = text.copy()?;
            Ok(Some(text))
        }
        None => Ok(None),
    }
}
