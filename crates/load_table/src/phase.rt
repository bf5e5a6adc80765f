//! `Phase`, how far a load has come.
use tab_ids::DocId;

/// How far a load has come.
#[derive(Clone, Copy, PartialEq, Eq, Debug)]
pub enum Phase {
    /// It waits for its unload check.
    Asking,
    /// Its new document is being made.
    Populating(DocId),
    /// Its new document is there, and it waits in the queue.
    Ready(DocId),
}
