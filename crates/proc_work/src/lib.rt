//! What a document process does with an order on its own: it works out the outcome.
#![tactic(auto)]

mod done;
mod same;

pub use done::{Done, work};
