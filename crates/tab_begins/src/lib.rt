//! Whose turn it is in a tab with loads: a ready load is applied, or the traversal that joined first begins; and a pass may follow.
#![tactic(auto)]

mod nexting;
mod taking;
mod traversing;
mod turn;

pub use nexting::begin_next;
pub use taking::take_load;
pub use traversing::take_traversal;
pub use turn::Turn;

// What is passed on of the crates below, for those above.
pub use tab_one_pass::{clear, clear_out, note_entries, note_loads, pass, serve_and_tell};
pub use tab_turns::end_running;
