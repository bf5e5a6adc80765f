//! `Check`, what an unload check has come to.
use tab_ids::DocId;

/// What the unload check of a request has come to.
#[derive(Clone, Copy, PartialEq, Eq, Debug)]
pub enum Check {
    /// An asked document has neither answered nor died.
    Waiting,
    /// The unload prompt of this document is up.
    Prompt(DocId),
    /// The request goes on.
    Go,
    /// The user stays: the request ends.
    Stay,
}
