//! The walk of a coordinator of a tab with loads: each navigable that needs its target is moved to it, or its document is made.
#![tactic(auto)]

mod serving;

pub use serving::serve_all;
