//! What a navigation is to do: replace an entry or push one, or go to a fragment; and the change that it makes.
#![tactic(auto)]

mod handling;
mod navigation;

pub use handling::{Handling, choose};
pub use navigation::{finalise, is_fragment};
