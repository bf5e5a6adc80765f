//! `Runners`, which documents of a tab are there and which of them run, by navigable: whom a poke of a navigable reaches is found without a walk over all documents.
#![tactic(auto)]

mod nav_runners;
mod runners;

pub use runners::Runners;
