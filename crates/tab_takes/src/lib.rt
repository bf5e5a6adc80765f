//! What documents made is judged, and taken up, refused or dropped, in a tab with loads, so that a pass may follow.
#![tactic(auto)]

mod applying;
mod judging;
mod taking;

pub use judging::judged;
pub use taking::take;

// What is passed on of the crates below, for those above.
pub use tab_rests::{
    Turn, begin_next, clear, clear_out, end_running, note_loads, pass, serve_and_tell,
};
