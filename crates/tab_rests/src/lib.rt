//! A tab with loads after a pass, at rest: where all stand and no traversal runs, another pass may follow; and so it is once a traversal has ended. There is no code.
#![tactic(auto)]

/// Holds the crate's place: all that it gives stands in its definitions and lemmas.
pub fn nothing() {}

// What is passed on of the crates below, for those above.
pub use tab_begins::{
    Turn, begin_next, clear, clear_out, end_running, note_entries, note_loads, pass, serve_and_tell,
};
