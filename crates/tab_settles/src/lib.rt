//! A tab with loads is brought to rest: one pass after the other, with a turn of the queue between two of them.
#![tactic(auto)]

mod holding;
mod parting;
mod reasons;
mod resting;
mod turning;

pub use holding::{clear_held, rest_held};
pub use parting::{clear, rest};
pub use reasons::Reasons;
pub use resting::settle;
pub use turning::take_turn;

// What is passed on of the crates below, for those above.
pub use tab_releases::{judged, note_loads, take};
