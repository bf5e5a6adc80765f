//! `World`, one tab under one step: a contract sees its settings, its log, and whether it is closed.
#![tactic(auto)]

mod accepting;
mod delivering;
mod endings;
mod error;
mod event;
mod evicting;
mod finishing;
mod idling;
mod logging;
mod opening;
mod reading;
mod state;
mod working;
mod world;

pub use error::StepError;
pub use event::{Event, Reply, Waiting};
pub use world::World;
