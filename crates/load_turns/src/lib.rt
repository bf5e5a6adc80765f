//! Loads in their unload checks pass one after the other where an event was cut.
#![tactic(auto)]

mod passed;
mod turns;

pub use passed::{Passed, Passes};
pub use turns::let_all_pass;
