//! What is true of what a log of a tab has come to, and of its navigables, documents, requests, loads, orders and entries, from row to row. There is no code.
#![tactic(auto)]

/// Holds the crate's place: all that it gives stands in its definitions and lemmas.
pub fn nothing() {}
