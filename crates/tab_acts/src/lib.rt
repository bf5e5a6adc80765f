//! What events of processes keep of the coordinator of a tab with loads: lemmas, no code.
#![tactic(auto)]

/// There is no code here.
pub fn nothing() {}
