//! That what the coordinator's tables say of its navigables is what a log says of them. There is no code.
#![tactic(auto)]

/// Holds the crate's place: all that it gives stands in its definitions and lemmas.
pub fn nothing() {}
