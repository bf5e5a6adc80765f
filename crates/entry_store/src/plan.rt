//! `Plan`, what a change leaves, found out before anything is changed.
ghost use Rattle.std.specs.Prelude.{◌≡◌, filter, IfOk, OnOk};
ghost use Rattle.log_model.specs.History.{used_steps, with_step};
ghost use Rattle.entry_store.specs.Nested.{rows_of, outlives, stays, AreHeld};

use crate::cut::Cut;
use crate::live::live_states;
use crate::nest::Nest;
use crate::steps::steps_left;
use address::OutOfMemory;
use indexmap::IndexSet;
use std::alloc::Global;
use std::collections::BTreeSet;
use tab_ids::{StateId, Step};

/// The document states that a cut leaves, and the used steps.
#[derive(Drop)]
pub struct Plan {
    pub states: IndexSet<StateId>,
    pub steps: BTreeSet<u32>,
}

/// What a cut leaves of the lists.
pub fn plan_of(alloc: Global, nests: &[Nest], cut: &Cut) -> Result<Plan, OutOfMemory>
    ensures held { IfOk result (λ p. AreHeld p.states.keys (filter (outlives cut.now) (rows_of nests.now))) }
    ensures steps { IfOk result (λ p. p.steps.keys ≡ used_steps (filter (stays cut.now p.states.keys) (rows_of nests.now))) }
{
    let states = live_states(alloc, nests, cut)?;
    let steps = steps_left(alloc, nests, cut, &states)?;
    Ok(Plan { states, steps })
}

impl Plan {
    /// Takes in one more used step.
    #[tactic(auto, using(crate::proofs::StepsLeft::one_step))]
    pub fn note(&mut self, step: Step) -> Result<(), OutOfMemory>
        ensures states { self.new.states.keys ≡ self.old.states.keys }
        ensures steps { OnOk result (self.new.steps.keys ≡ with_step step.0 self.old.steps.keys) }
    {
        self.steps.insert(step.0)?;
        Ok(())
    }
}
