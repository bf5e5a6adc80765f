//! The slots of the handlers of the documents that are made, as a table has them, stay those of the log. There is no code.
#![tactic(auto)]

/// Holds the crate's place: all that it gives stands in its definitions and lemmas.
pub fn nothing() {}
