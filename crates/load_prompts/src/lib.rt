//! As an event ends the user is asked about each load whose last question was settled by what the event discarded.
#![tactic(auto)]

mod prompting;

pub use prompting::ask_about;
