//! How large the numbers of a legal log are: none is beyond the number of its events. There is no code.
#![tactic(auto)]

/// Holds the crate's place: all that it gives stands in its definitions and lemmas.
pub fn nothing() {}
