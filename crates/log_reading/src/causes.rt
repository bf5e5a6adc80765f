//! Why a request was dropped.
ghost use Rattle.std.specs.Prelude.{◌≡◌, IfOk};
ghost use Rattle.log_reading.specs.Tables as spec;
ghost use Rattle.log_reading.specs.Gives.{Gives};
ghost use Rattle.log_reading.specs.Readable.{IsCause};
ghost use Rattle.log_reading.specs.Words.{shown};

use crate::fault::Fault;
use crate::naming::{death_of, req_of};
use crate::part::Part;
use log_model::Cause;

/// REQ that moved its navigable.
#[tactic(auto, unfolding(crate::specs::Tables::by_cause))]
fn by_cause(part: Part<'_>) -> Result<Cause, Fault>
    ensures read { Gives result (spec.by_cause (shown part.entry)) }
    ensures fits { IfOk result (λ cause. IsCause cause) }
{
    let req = req_of(part.a)?;
    Ok(Cause::By(req))
}

/// REQ that removed its navigable.
#[tactic(auto, unfolding(crate::specs::Tables::destroyed_cause))]
fn destroyed_cause(part: Part<'_>) -> Result<Cause, Fault>
    ensures read { Gives result (spec.destroyed_cause (shown part.entry)) }
    ensures fits { IfOk result (λ cause. IsCause cause) }
{
    let req = req_of(part.a)?;
    Ok(Cause::Destroyed(req))
}

/// DEATH that took its document.
#[tactic(auto, unfolding(crate::specs::Tables::gone_cause))]
fn gone_cause(part: Part<'_>) -> Result<Cause, Fault>
    ensures read { Gives result (spec.gone_cause (shown part.entry)) }
    ensures fits { IfOk result (λ cause. IsCause cause) }
{
    let death = death_of(part.a)?;
    Ok(Cause::Gone(death))
}

/// Why a request was dropped.
#[tactic(auto, unfolding(crate::specs::Tables::cause_of))]
pub fn cause_of(part: Part<'_>) -> Result<Cause, Fault>
    ensures read { Gives result (spec.cause_of (shown part.entry)) }
    ensures fits { IfOk result (λ cause. IsCause cause) }
{
    if part.name == b"stay".as_slice() {
        Ok(Cause::Stay)
    } else if part.name == b"by".as_slice() {
        by_cause(part)
    } else if part.name == b"destroyed".as_slice() {
        destroyed_cause(part)
    } else if part.name == b"gone".as_slice() {
        gone_cause(part)
    } else {
        Err(Fault::NoRow)
    }
}
