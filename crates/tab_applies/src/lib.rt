//! The turn of a ready load in a tab with loads: it is applied.
#![tactic(auto)]

mod applying;

pub use applying::apply_ready;
