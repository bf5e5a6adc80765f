//! The unload checks of requests: whom each has asked, what they answered, and what the user said.
#![tactic(auto)]

mod asked_doc;
mod check;
mod request_check;
mod unload_check;

pub use check::Check;
pub use unload_check::UnloadCheck;
