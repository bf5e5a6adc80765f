//! All that holds of a tab between two rows and between two events. There is no code.
#![tactic(auto)]

/// Holds the crate's place: all that it gives stands in its definitions and lemmas.
pub fn nothing() {}
