//! The doors of loads: each row of one that the coordinator puts out, with what it makes of the tables.
#![tactic(auto)]

mod applying;
mod beginning;
mod dropping;
mod fragments;
mod making;
mod refusing;

pub use applying::apply_load;
pub use beginning::{begin_load, replaces};
pub use dropping::{destroy_load, drop_load, drop_new};
pub use fragments::send_fragment;
pub use making::make_load;
pub use refusing::refuse_load;
