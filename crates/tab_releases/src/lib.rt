//! The reports that were held back for a traversal are taken up once it has ended, in a tab with loads.
#![tactic(auto)]

mod releasing;

pub use releasing::release;

// What is passed on of the crates below, for those above.
pub use tab_takes::{
    Turn, begin_next, clear, clear_out, end_running, judged, note_loads, pass, serve_and_tell, take,
};
