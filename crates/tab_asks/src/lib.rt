//! A request begins and asks whether the documents that it leaves may be left.
#![tactic(auto)]

mod asking;
mod checks;
mod telling;

pub use asking::begin_asking;
pub use telling::{tell_ended, tell_rows};
