//! Moves of a coordinator of a tab with loads: a navigable leaves the document that it was shown last, and is shown another one, or that one is made.
#![tactic(auto)]

mod homes;
mod leaving;
mod making;
mod showing;

pub use homes::home_there;
pub use leaving::freeze_left;
pub use making::make_target;
pub use showing::{row_there, show_target, show_why};
