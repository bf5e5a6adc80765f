//! A request that begins asks, the user is asked, and answers come: the rows pass, and what is known of the checks stays so. There is no code.
#![tactic(auto)]

/// Holds the crate's place: all that it gives stands in its definitions and lemmas.
pub fn nothing() {}
