//! The coordinator of a tab: it takes requests and reports, and answers with the rows that follow.
#![tactic(auto)]

mod answering;
mod ask;
mod asking;
mod coordinator;
mod delivering;
mod evicting;
mod placing;
mod reading;
mod settled;
mod taking;

pub use ask::Ask;
pub use coordinator::Coordinator;
