//! The text of a log: a line for each of its rows.
#![tactic(auto)]

mod changes;
mod count;
mod digits;
mod length;
mod line;
mod names;
mod naming;
mod out;
mod outcomes;
mod requests;
mod rows;
mod tasks;
mod things;

pub use length::line_length;
pub use line::{Line, row_line};
