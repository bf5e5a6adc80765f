//! The unload checks of loads go on, where an event was cut: a load whose last question was settled, and for which nobody wants a prompt, passes.
#![tactic(auto)]

mod passing;

pub use passing::let_pass;
