//! `Place`, a live document and where it lives.
use tab_ids::{DocId, ProcId};

/// A live document, its process, and the slot of its unload handler where it has one.
#[derive(Clone, Copy, PartialEq, Eq, Debug)]
pub struct Place {
    pub doc: DocId,
    pub proc: ProcId,
    pub handler: Option<u8>,
}
