//! The document that is kept longest is discarded where too many would be, with all that are there below it.
#![tactic(auto)]

mod below;
mod evicting;

pub use below::discard_below;
pub use evicting::{doc_there, evict};
