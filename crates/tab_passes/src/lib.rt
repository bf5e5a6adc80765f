//! The passes of a coordinator of a tab with loads: who is awake is told the length and index that are due; and documents are left.
#![tactic(auto)]

mod below;
mod leaving;
mod reading;
mod sleeping;
mod telling;

pub use below::{doc_on, docs_below};
pub use leaving::{begin_move, discard, freeze, freeze_each};
pub use reading::{aim, pair_at};
pub use telling::tell_all;
