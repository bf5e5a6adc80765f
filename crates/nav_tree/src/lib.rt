//! `NavTree`, the navigables of a tab in the order of making and the documents that are live for their document states, which a contract sees as two tables.
#![tactic(auto)]

mod nav;
mod node;
mod place;
mod reload;
mod status;
mod tree;

pub use nav::Nav;
pub use node::Node;
pub use place::Place;
pub use reload::ReloadPhase;
pub use status::NavStatus;
pub use tree::NavTree;
