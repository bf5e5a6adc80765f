//! The session history traversal queue, and the reports that wait for the running traversal.
#![tactic(auto)]

mod move_queue;
mod queue_step;

pub use move_queue::MoveQueue;
pub use queue_step::QueueStep;
