//! The tables of the coordinator of a tab with documents in many processes, and the doors through which a row goes out and the tables change with it.
#![tactic(auto)]

mod birth;
mod changes;
mod notes;
mod orders;
mod tables;
mod turns;

pub use birth::Birth;
pub use changes::destroy_each;
pub use notes::waiting_for;
pub use orders::count_order;
pub use tables::Tables;
