//! `Nested`, the lists of an `EntryStore` and what it keeps beside them.
use crate::nest::Nest;
use indexmap::IndexSet;
use std::collections::BTreeSet;
use tab_ids::{NavId, Step};

/// The entries in nested lists, one list a navigable, in the order in which the navigables were added.
#[derive(Drop)]
pub struct Nested {
    pub nests: Vec<Nest>,
    pub current: Step,
    /// The child navigables ever added.
    pub added: IndexSet<NavId>,
    /// The used steps.
    pub used: BTreeSet<u32>,
}
