//! The ongoing loads of navigables: at most one each, with its phase.
#![tactic(auto)]

mod load;
mod load_table;
mod phase;

pub use load::Load;
pub use load_table::LoadTable;
pub use phase::Phase;
