//! `Turn`, a value that threads step one after the other. A contract sees one history of its turns, and of a `Seat` what it has seen of that history.
#![tactic(auto)]

mod board;
mod plays;
mod seat;
mod serving;
mod stepped;
mod turn;
mod view;

pub use seat::{Seat, Seen};
pub use stepped::Stepped;
pub use turn::Turn;
