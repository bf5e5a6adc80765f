//! The user has the document discarded that is kept longest, with all that are there below it, so that a pass may follow.
#![tactic(auto)]

mod discarding;
mod evicting;

pub use discarding::discard_evicted;
pub use evicting::evict_longest;
