//! One pass of a coordinator over a tab with loads: loads give way, stray documents are discarded, each navigable that needs it is shown its target, and who is awake is told length and index.
#![tactic(auto)]

mod noting;
mod passing;

pub use noting::{note_entries, note_loads};
pub use passing::{clear, clear_out, pass, serve_and_tell};
