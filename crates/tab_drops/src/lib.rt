//! Ongoing loads give way: to the traversal that runs, to a load that was applied, and to a change that took their navigables' entries.
#![tactic(auto)]

mod destroying;
mod dropping;
mod listing;
mod ways;

pub use destroying::destroy_loads;
pub use dropping::{drop_below, drop_moved};
pub use ways::is_bare;
