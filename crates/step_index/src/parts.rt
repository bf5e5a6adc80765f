//! `Parts`, the entries of a `StepIndex` and what it keeps beside them.
use crate::groups::Group;
use crate::noted::Place;
use crate::track::Track;
use indexmap::{IndexMap, IndexSet};
use tab_ids::{EntryId, NavId, StateId, Step};

/// The entries, navigable by navigable in order of number, with the used steps in order.
#[derive(Drop)]
pub struct Parts {
    pub tracks: Vec<Track>,
    /// About how many tracks have no entry left, as those of removed frames. Nothing is proved of it.
    pub gaps: usize,
    /// Where each entry is looked for.
    pub noted: IndexMap<EntryId, Place>,
    /// The least step of each document state.
    pub starts: IndexMap<StateId, Step>,
    /// How many rows stand at each step, and how many hang on each document state.
    pub counts: IndexMap<Group, usize>,
    /// The used steps.
    pub used: Vec<u32>,
    pub current: Step,
    /// The child navigables ever added.
    pub added: IndexSet<NavId>,
}
