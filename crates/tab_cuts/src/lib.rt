//! An event of the coordinator is cut: it goes on working behind rows of its checks. There is no code.
#![tactic(auto)]

/// Holds the crate's place: all that it gives stands in its definitions and lemmas.
pub fn nothing() {}
