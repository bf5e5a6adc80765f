//! The lines of answers, of processes, and of the rest.
ghost use Rattle.std.specs.Prelude.{◌≡◌, IfOk};
ghost use Rattle.scenario_text.specs.Words.{shown};
ghost use Rattle.scenario_text.specs.Body as spec;
ghost use Rattle.scenario_text.specs.Gives.{GivesLine};
ghost use Rattle.scenario_text.specs.Written.{IsWrittenLine};

use crate::fault::LineError;
use crate::fields::Fields;
use crate::line::ScenarioLine;
use crate::readings::{proc_of, request_of, stay_of};
use crate::reason::Reason;
use tab_ids::ProcId;

/// P, alone.
#[tactic(auto, unfolding(crate::specs::Body::proc_alone))]
fn proc_alone(fields: Fields<'_>) -> Result<ProcId, LineError>
    ensures { GivesLine result (spec.proc_alone (shown fields.entry)) }
{
    match fields {
        Fields::One(proc) => proc_of(proc),
        Fields::Zero | Fields::Two(_, _) | Fields::Three(_, _, _) | Fields::More => {
            Err(LineError::Faulty(Reason::Count))
        }
    }
}

#[tactic(auto, unfolding(crate::specs::Body::answer_line))]
pub fn answer_line(fields: Fields<'_>) -> Result<ScenarioLine, LineError>
    ensures read { GivesLine result (spec.answer_line (shown fields.entry)) }
    ensures written { IfOk result (λ line. IsWrittenLine line) }
{
    match fields {
        Fields::Two(req, stay) => {
            let req = request_of(req)?;
            let stay = stay_of(stay)?;
            Ok(ScenarioLine::Answer { req, stay })
        }
        Fields::Zero | Fields::One(_) | Fields::Three(_, _, _) | Fields::More => {
            Err(LineError::Faulty(Reason::Count))
        }
    }
}

#[tactic(auto, unfolding(crate::specs::Body::evict_line))]
pub fn evict_line(fields: Fields<'_>) -> Result<ScenarioLine, LineError>
    ensures read { GivesLine result (spec.evict_line (shown fields.entry)) }
    ensures written { IfOk result (λ line. IsWrittenLine line) }
{
    match fields {
        Fields::Zero => Ok(ScenarioLine::Evict),
        Fields::One(_) | Fields::Two(_, _) | Fields::Three(_, _, _) | Fields::More => {
            Err(LineError::Faulty(Reason::Count))
        }
    }
}

#[tactic(auto, unfolding(crate::specs::Body::kill_line))]
pub fn kill_line(fields: Fields<'_>) -> Result<ScenarioLine, LineError>
    ensures read { GivesLine result (spec.kill_line (shown fields.entry)) }
    ensures written { IfOk result (λ line. IsWrittenLine line) }
{
    let proc = proc_alone(fields)?;
    Ok(ScenarioLine::Kill { proc })
}

#[tactic(auto, unfolding(crate::specs::Body::act_line))]
pub fn act_line(fields: Fields<'_>) -> Result<ScenarioLine, LineError>
    ensures read { GivesLine result (spec.act_line (shown fields.entry)) }
    ensures written { IfOk result (λ line. IsWrittenLine line) }
{
    let proc = proc_alone(fields)?;
    Ok(ScenarioLine::Act { proc })
}

#[tactic(auto, unfolding(crate::specs::Body::begin_line))]
pub fn begin_line(fields: Fields<'_>) -> Result<ScenarioLine, LineError>
    ensures read { GivesLine result (spec.begin_line (shown fields.entry)) }
    ensures written { IfOk result (λ line. IsWrittenLine line) }
{
    let proc = proc_alone(fields)?;
    Ok(ScenarioLine::Begin { proc })
}

#[tactic(auto, unfolding(crate::specs::Body::finish_line))]
pub fn finish_line(fields: Fields<'_>) -> Result<ScenarioLine, LineError>
    ensures read { GivesLine result (spec.finish_line (shown fields.entry)) }
    ensures written { IfOk result (λ line. IsWrittenLine line) }
{
    let proc = proc_alone(fields)?;
    Ok(ScenarioLine::Finish { proc })
}

#[tactic(auto, unfolding(crate::specs::Body::deliver_line))]
pub fn deliver_line(fields: Fields<'_>) -> Result<ScenarioLine, LineError>
    ensures read { GivesLine result (spec.deliver_line (shown fields.entry)) }
    ensures written { IfOk result (λ line. IsWrittenLine line) }
{
    let proc = proc_alone(fields)?;
    Ok(ScenarioLine::Deliver { proc })
}

#[tactic(auto, unfolding(crate::specs::Body::settle_line))]
pub fn settle_line(fields: Fields<'_>) -> Result<ScenarioLine, LineError>
    ensures read { GivesLine result (spec.settle_line (shown fields.entry)) }
    ensures written { IfOk result (λ line. IsWrittenLine line) }
{
    match fields {
        Fields::Zero => Ok(ScenarioLine::Settle),
        Fields::One(_) | Fields::Two(_, _) | Fields::Three(_, _, _) | Fields::More => {
            Err(LineError::Faulty(Reason::Count))
        }
    }
}
