//! A tab's session history with its frames: the trait `Store`, which a contract sees as the history that it holds, and `EntryStore`, which keeps it in lists nested by document state.
#![tactic(auto)]

mod add;
mod append;
mod change;
mod changed;
mod counting;
mod cut;
mod entry_store;
mod error;
mod listing;
mod live;
mod move_on;
mod nest;
mod nested;
mod opening;
mod place;
mod plan;
mod push;
mod readers;
mod remove;
mod replace;
mod replaying;
mod steps;
mod store;
mod swap;
mod sweep;

pub use changed::{Changed, changed_rows};
pub use entry_store::EntryStore;
pub use error::StoreError;
pub use replaying::{Changes, replay};
pub use store::Store;
