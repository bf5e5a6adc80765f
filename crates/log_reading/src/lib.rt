//! A log read back from its text, a row from each line.
#![tactic(auto)]

mod causes;
mod changes;
mod cut;
mod error;
mod fault;
mod fields;
mod kinds;
mod log;
mod naming;
mod number;
mod outcomes;
mod part;
mod requests;
mod row;
mod tasks;
mod things;

pub use error::LogTextError;
pub use log::read_log;
