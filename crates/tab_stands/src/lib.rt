//! What a coordinator of a tab with loads keeps between two events, and what is so as an event of it begins and ends. There is no code.
#![tactic(auto)]

/// Holds the crate's place: all that it gives stands in its definitions and lemmas.
pub fn nothing() {}

// What is passed on of the crates below, for those above.
pub use tab_settles::{Reasons, judged, note_loads, settle, take};
