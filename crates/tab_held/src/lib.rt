//! The tab is brought to rest while a traversal in its unload check holds the queue.
#![tactic(auto)]

mod holding;
mod rows;

pub use holding::rest_while_held;
