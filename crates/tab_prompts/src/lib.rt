//! The user is asked for each request whose last question was settled as documents were discarded.
#![tactic(auto)]

mod prompting;
mod waiting;

pub use prompting::prompt_settled;
pub use waiting::{Reqs, waiting_among};
