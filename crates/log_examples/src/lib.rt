//! Logs, legal and broken, on which the definitions of a legal log were tried. Nothing stands on it.
#![tactic(auto)]

/// Does nothing: the crate is its lemmas.
pub fn tried() {}
