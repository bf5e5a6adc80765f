//! A load that is to ask begins, and asks; it is in its unload check from then on, and a pass may follow.
#![tactic(auto)]

mod beginning;

pub use beginning::ask_for_load;
