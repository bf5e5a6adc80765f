//! What the navigables of a tab need to be where a step of the history has them, in the order of a walk from the top down.
#![tactic(auto)]

mod leave;
mod need;
mod order;
mod planning;
mod reach;
mod settling;

pub use leave::leaving;
pub use need::{Need, need_of};
pub use order::walk;
pub use planning::plan;
pub use reach::{Reach, is_reached};
pub use settling::settled;
