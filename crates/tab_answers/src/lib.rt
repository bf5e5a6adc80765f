//! The events of the questions of an unload check in which a coordinator passes on nothing but a prompt. There is no code.
#![tactic(auto)]

/// Holds the crate's place: all that it gives stands in its definitions and lemmas.
pub fn nothing() {}
