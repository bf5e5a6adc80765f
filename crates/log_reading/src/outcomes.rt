//! How a finished order went.
ghost use Rattle.std.specs.Prelude.{◌≡◌, IfOk};
ghost use Rattle.log_reading.specs.Tables as spec;
ghost use Rattle.log_reading.specs.Gives.{Gives};
ghost use Rattle.log_reading.specs.Readable.{IsOutcome};
ghost use Rattle.log_reading.specs.Words.{shown};

use crate::fault::Fault;
use crate::fields::slot_of;
use crate::part::Part;
use log_model::{Outcome, Verdict};

/// SLOT.
#[tactic(auto, unfolding(crate::specs::Tables::populated_of))]
fn populated_of(part: Part<'_>) -> Result<Outcome, Fault>
    ensures read { Gives result (spec.populated_of (shown part.entry)) }
    ensures fits { IfOk result (λ outcome. IsOutcome outcome) }
{
    let slot = slot_of(part.a)?;
    Ok(Outcome::Populated(slot))
}

/// How a finished order went.
#[tactic(auto, unfolding(crate::specs::Tables::outcome_of))]
pub fn outcome_of(part: Part<'_>) -> Result<Outcome, Fault>
    ensures read { Gives result (spec.outcome_of (shown part.entry)) }
    ensures fits { IfOk result (λ outcome. IsOutcome outcome) }
{
    if part.name == b"populated".as_slice() {
        populated_of(part)
    } else if part.name == b"activated".as_slice() {
        Ok(Outcome::Activated)
    } else if part.name == b"updated".as_slice() {
        Ok(Outcome::Updated)
    } else if part.name == b"frozen".as_slice() {
        Ok(Outcome::Frozen)
    } else if part.name == b"discarded".as_slice() {
        Ok(Outcome::Discarded)
    } else if part.name == b"leave".as_slice() {
        Ok(Outcome::Asked(Verdict::Leave))
    } else if part.name == b"prompt".as_slice() {
        Ok(Outcome::Asked(Verdict::Prompt))
    } else if part.name == b"fragmented".as_slice() {
        Ok(Outcome::Fragmented)
    } else {
        Err(Fault::NoRow)
    }
}
