//! `StepIndex`, a store of a tab's session history that finds entries by their steps: it keeps the entries of each navigable sorted by step, and the used steps sorted.
#![tactic(auto)]

mod change;
mod cut;
mod frames;
mod groups;
mod keyed;
mod listing;
mod move_on;
mod noted;
mod opening;
mod parts;
mod places;
mod push;
mod put;
mod readers;
mod rebuild;
mod remove;
mod replace;
mod room;
mod search;
mod starts;
mod step_index;
mod ticks;
mod track;

pub use step_index::StepIndex;
pub use ticks::Steps;
