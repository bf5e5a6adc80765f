//! What a table of unload checks says of a log, and which prompts an event still owes. There is no code.
#![tactic(auto)]

/// Holds the crate's place: all that it gives stands in its definitions and lemmas.
pub fn nothing() {}
