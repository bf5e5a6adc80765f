//! `Birth`, what is kept of each document that was ever made.
use tab_ids::{NavId, ProcId};

/// The navigable for which a document was made, and the process in which it lives.
#[derive(Clone, Copy, PartialEq, Eq, Debug)]
pub struct Birth {
    pub nav: NavId,
    pub proc: ProcId,
}
