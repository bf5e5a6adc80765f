//! The generator of scenarios: one scenario for each number.
#![tactic(auto)]

mod draws;
mod error;
mod header;
mod making;
mod turn;
mod words;

pub use error::MakeError;
pub use making::make;
