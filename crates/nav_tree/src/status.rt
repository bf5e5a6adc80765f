//! `NavStatus`, whether a navigable presents a document.
use tab_ids::DocId;

/// Whether a navigable presents a document: awake on one, lost it to a death, or asleep.
#[derive(Clone, Copy, PartialEq, Eq, Debug)]
pub enum NavStatus {
    Awake(DocId),
    Lost,
    Asleep,
}
