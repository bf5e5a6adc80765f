//! The lines after `open`.
ghost use Rattle.std.specs.Prelude.{◌≡◌, ◌&&◌, IfOk};
ghost use Rattle.scenario_text.specs.Body as spec;
ghost use Rattle.scenario_text.specs.Plays.{is_step};
ghost use Rattle.scenario_text.specs.Gives.{GivesLine};
ghost use Rattle.scenario_text.specs.Standing.{IsSplit, IsStanding};
ghost use Rattle.scenario_text.specs.Written.{IsWrittenLine};

use crate::built::{Built, is_step};
use crate::fault::LineError;
use crate::fields::Split;
use crate::line::ScenarioLine;
use crate::reason::Reason;
use crate::requests::{
    docgo_line, edit_line, fragment_line, frame_line, go_line, load_line, push_line, reload_line,
    remove_line, replace_line,
};
use crate::share::StandingLine;
use crate::steps::{
    act_line, answer_line, begin_line, deliver_line, evict_line, finish_line, kill_line,
    settle_line,
};
use crate::word::Word;
use std::alloc::Global;

/// The line that bytes spell.
#[tactic(auto, unfolding(crate::specs::Body::body_line))]
fn body_line(
    alloc: Global,
    line: StandingLine<'_>,
    split: Split<'_>,
) -> Result<ScenarioLine, LineError>
    requires stands { IsStanding line }
    requires words { IsSplit split line.bytes.now }
    ensures read { GivesLine result (spec.body_line line.entry.bytes.now) }
    ensures written { IfOk result (λ line. IsWrittenLine line) }
{
    let Split { word, fields, .. } = split;
    match Word::of(word) {
        Some(Word::Load) => load_line(alloc, fields),
        Some(Word::Go) => go_line(fields),
        Some(Word::Reload) => reload_line(fields),
        Some(Word::Push) => push_line(line, fields),
        Some(Word::Replace) => replace_line(line, fields),
        Some(Word::Fragment) => fragment_line(line, fields),
        Some(Word::Frame) => frame_line(fields),
        Some(Word::Remove) => remove_line(fields),
        Some(Word::DocGo) => docgo_line(fields),
        Some(Word::Edit) => edit_line(fields),
        Some(Word::Answer) => answer_line(fields),
        Some(Word::Evict) => evict_line(fields),
        Some(Word::Kill) => kill_line(fields),
        Some(Word::Act) => act_line(fields),
        Some(Word::Begin) => begin_line(fields),
        Some(Word::Finish) => finish_line(fields),
        Some(Word::Deliver) => deliver_line(fields),
        Some(Word::Settle) => settle_line(fields),
        None => Err(LineError::Faulty(Reason::Word)),
    }
}

/// Whether a line is one step of a process, where threads run.
fn is_step_in_run(in_run: bool, line: &ScenarioLine) -> bool
    ensures { result ≡ (in_run && is_step line.now) }
{
    in_run && is_step(line)
}

/// What is wrong with a line for its caller, if anything.
fn caller_fault(in_run: bool, built: Built, line: &ScenarioLine) -> Option<Reason>
    ensures { result ≡ spec.caller_fault in_run built line.now }
{
    if is_step_in_run(in_run, line) {
        Some(Reason::StepLine)
    } else if built.plays(line) {
        None
    } else {
        Some(Reason::Unbuilt)
    }
}

/// The line that bytes spell, unless its caller may not have it.
#[tactic(auto, unfolding(crate::specs::Body::played_line))]
pub fn played_line(
    alloc: Global,
    in_run: bool,
    built: Built,
    line: StandingLine<'_>,
    split: Split<'_>,
) -> Result<ScenarioLine, LineError>
    requires stands { IsStanding line }
    requires words { IsSplit split line.bytes.now }
    ensures read { GivesLine result (spec.played_line in_run built line.entry.bytes.now) }
    ensures written { IfOk result (λ line. IsWrittenLine line) }
{
    let spelled = body_line(alloc, line, split)?;
    match caller_fault(in_run, built, &spelled) {
        None => Ok(spelled),
        Some(reason) => Err(LineError::Faulty(reason)),
    }
}
