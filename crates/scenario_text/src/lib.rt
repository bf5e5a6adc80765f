//! A scenario: what a test driver asks of a tab, as text of one line a step.
#![tactic(auto)]

mod body;
mod built;
mod cut;
mod error;
mod fault;
mod fields;
mod head_word;
mod heading;
mod line;
mod number;
mod place;
mod printing;
mod progress;
mod readings;
mod reason;
mod requests;
mod scenario;
mod share;
mod steps;
mod word;
mod words;

pub use built::Built;
pub use error::{Refusal, ScenarioError};
pub use line::{Lines, ScenarioLine};
pub use reason::Reason;
pub use scenario::Scenario;
