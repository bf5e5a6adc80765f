//! All that the program does with its words, a source and a sink, and how that ended.
#![tactic(auto)]

mod call;
mod making;
mod status;
mod words;
mod writing;

pub use call::{Ended, play_call};
pub use status::{Status, status_line};
