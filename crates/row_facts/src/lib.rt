//! Which rows a tab may log next, and what they owe and leave. There is no code.
#![tactic(auto)]

/// Holds the crate's place: all that it gives stands in its definitions and lemmas.
pub fn nothing() {}
