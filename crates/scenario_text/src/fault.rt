//! `LineError`, why one line could not be read.
ghost use Rattle.std.specs.Prelude.{◌≡◌};
ghost use Rattle.scenario_text.specs.Gives.{IsFaultAt};

use crate::error::{Refusal, ScenarioError};
use crate::reason::Reason;
use address::{OutOfMemory, Overflowed};

/// Why one line could not be read; its number is not known there.
#[derive(Drop)]
pub enum LineError {
    Faulty(Reason),
    UrlOverflow(Overflowed),
    OutOfMemory,
}

impl From<OutOfMemory> for LineError {
    ghost use Rattle.std.specs.Prelude.{◌≡◌};
    ghost use Rattle.scenario_text.specs.declared.fault.LineError.TheVariants as errors;

    ghost from_gives = { λ _ e. e ≡ errors.OutOfMemory };

    fn from(_: OutOfMemory) -> LineError {
        LineError::OutOfMemory
    }
}

impl LineError {
    /// The error of the scenario whose line has this number.
    pub fn at(self, line: u32) -> ScenarioError
        ensures { IsFaultAt result line self }
    {
        match self {
            LineError::Faulty(reason) => ScenarioError::Refused(Refusal { line, reason }),
            LineError::UrlOverflow(mark) => ScenarioError::UrlOverflow(mark),
            LineError::OutOfMemory => ScenarioError::OutOfMemory,
        }
    }
}
