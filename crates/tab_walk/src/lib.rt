//! The move of a navigable to the document that is there for its target, in a tab with loads.
#![tactic(auto)]

mod cutting;
mod leaving;
mod moving;

pub use moving::move_to;
