//! Playing a scenario: each line is its event, and `settle` goes in rounds until nothing is in transit.
#![tactic(auto)]

mod playing;
mod round;

pub use playing::{Played, play};
pub use world::{StepError, World};
