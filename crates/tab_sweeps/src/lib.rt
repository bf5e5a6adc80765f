//! Documents that neither an entry nor a load needs any more are discarded.
#![tactic(auto)]

mod strays;
mod sweeping;

pub use sweeping::sweep;
