//! A document that nothing needs as it is made, and that was made for no request, is noted and discarded at once, so that a pass may follow.
#![tactic(auto)]

mod making;
mod telling;

pub use making::discard_made;
pub use telling::is_unneeded;
