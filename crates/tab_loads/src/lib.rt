//! The rule of loads, in a tab with loads: what becomes of a load as the user asks for it, so that a pass may follow.
#![tactic(auto)]

mod asking;
mod beginning;
mod cutting;
mod fragments;
mod loaded;
mod loading;
mod ways;

pub use loaded::Loaded;
pub use loading::load;
