//! Why bytes gave no scenario.
use crate::reason::Reason;
use address::{OutOfMemory, Overflowed};

/// The first faulty line, counted from 1, and the first reason that holds for it.
#[derive(Clone, Copy, PartialEq, Eq, Debug)]
pub struct Refusal {
    pub line: u32,
    pub reason: Reason,
}

/// Why bytes gave no scenario.
#[derive(Clone, Copy, PartialEq, Eq, Debug)]
pub enum ScenarioError {
    /// The bytes are no scenario.
    Refused(Refusal),
    /// An address is too large for the crate `url`.
    UrlOverflow(Overflowed),
    /// The allocator had no memory.
    OutOfMemory,
}

impl From<OutOfMemory> for ScenarioError {
    ghost use Rattle.std.specs.Prelude.{◌≡◌};
    ghost use Rattle.scenario_text.specs.declared.error.ScenarioError.TheVariants as errors;

    ghost from_gives = { λ _ e. e ≡ errors.OutOfMemory };

    fn from(_: OutOfMemory) -> ScenarioError {
        ScenarioError::OutOfMemory
    }
}
