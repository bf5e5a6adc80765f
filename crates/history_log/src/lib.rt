//! The log of a tab: a list of rows that grows at its end.
#![tactic(auto)]

mod ending;
mod idle;
mod left;
mod log;
mod mail_count;
mod named;
mod order_reader;
mod owner;
mod prompt_reader;

pub use log::Log;
