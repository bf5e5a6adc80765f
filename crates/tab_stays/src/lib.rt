//! The user stays, where a traversal asked: it is dropped, and the queue is free for the next step.
#![tactic(auto)]

mod staying;

pub use staying::drop_traversal;
