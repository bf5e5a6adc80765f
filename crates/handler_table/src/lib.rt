//! Stored unload handlers: boxed closures, each beside its kind, by which it answers.
#![tactic(auto)]

mod add_error;
mod ask;
mod handler;
mod handler_table;

pub use add_error::AddError;
pub use handler_table::HandlerTable;
