//! A load passes its unload check by an event's own row: the user leaves, or the last answer is delivered and no document wants a prompt; and its document is to be made.
#![tactic(auto)]

mod passing;

pub use passing::pass_load;
