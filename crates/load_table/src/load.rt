//! `Load`, a navigation of a navigable that has started and hasn't ended.
ghost use Rattle.std.specs.Prelude.{◌≡◌};

use crate::phase::Phase;
use address::Address;
use tab_ids::{DocId, NavId, ReqId, StateId};

/// An ongoing load: its request, where to, whether it is a replace, and the document state of its new document.
#[derive(Drop)]
pub struct Load {
    pub req: ReqId,
    pub nav: NavId,
    pub address: Address,
    pub replace: bool,
    pub state: StateId,
    pub phase: Phase,
}

impl Load {
    ghost use Rattle.load_table.specs.Loads as spec;

    /// Whether the document is the one that is being made for it.
    pub(crate) fn is_populating(&self, doc: DocId) -> bool
        ensures { result ≡ spec.is_populating doc self.now }
    {
        match self.phase {
            Phase::Populating(made) => made == doc,
            Phase::Asking => false,
            Phase::Ready(_) => false,
        }
    }
}
