//! What a log says, as text: its report, its summary, a line for each of its rows, and the log read back from such lines.
#![tactic(auto)]

mod counting;
mod pieces;
mod writing;

pub use counting::summary;
pub use log_reading::{LogTextError, read_log};
pub use log_text::{Line, line_length, row_line};
pub use world::World;
pub use writing::report;
