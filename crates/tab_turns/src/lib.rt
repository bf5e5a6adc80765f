//! The turns of traversals in a tab with loads: the one that runs ends, and the one that waits first begins, or is refused.
#![tactic(auto)]

mod beginning;
mod ending;
mod standing;

pub use beginning::{begin_traversal, goal_of};
pub use ending::end_running;
pub use standing::stand_at;
