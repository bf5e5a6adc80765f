//! `play_call`, all that the program does with its words, a source and a sink.
ghost use Rattle.std.specs.Prelude.{◌≡◌, ◌≢◌, ◌↔◌, ℕ, false, List, Some, None, Ok, Err, IfSome, IsSome, map, string_bytes};
ghost use Rattle.log_model.specs.ActsAtOnce.{ActsAtOnce};
ghost use Rattle.log_model.specs.LoadsEndInTime.{LoadsEndInTime};
ghost use Rattle.log_model.specs.Legal.{IsLegal};
ghost use Rattle.log_model.specs.Limits.{BeginsBelow};
ghost use Rattle.proc_work.specs.Answers.{AnswersBy};
ghost use Rattle.scenario_play.specs.PassedOn.{row_limit};
ghost use Rattle.tab_io.specs.Causes.{Rose};
ghost use Rattle.tab_call.specs.Words.{text_due, work_of};
ghost use Rattle.tab_call.specs.Writes.{text_of_log};
ghost use Rattle.scenario_play.specs.Moves.{IsFault};
ghost use Rattle.scenario_text.specs.Follows.{Follows, IsCutShort};
ghost use Rattle.scenario_text.specs.declared.built.Built.TheVariants as builts;
ghost use Rattle.scenario_text.specs.Grammar.{scenario_of};
ghost use Rattle.tab_call.specs.Calls.{FollowsAs, FollowsFor, FollowsRead, HasReadCause, HasWriteCause, IsDecided, IsHeard, IsPlayEnd, IsUnhindered, ReadsAs, ReadsFor, SpellsAs};

use crate::making::write_made;
use crate::status::Status;
use crate::words::{Output, Work, asked_work};
use crate::writing::{Unwritten, write_due};
use handler_table::HandlerTable;
use history_log::Log;
use report_text::report;
use scenario_play::{Played, StepError, World, play};
use scenario_text::{Built, Reason, Refusal, Scenario, ScenarioError};
use std::alloc::Global;
use tab_io::{ReadAllError, Sink, Source, read_bytes};

/// The most bytes that a scenario may have.
const BYTE_LIMIT: usize = 4_194_304;

/// How a call ended, and the log of the tab, where one was made and the status is `Done`, `LogFull` or `WriteFault`.
#[derive(Drop)]
pub struct Ended {
    pub status: Status,
    pub log: Option<Log>,
}

/// Does what the words ask: `play` reads a scenario to its end, plays it, and writes the report of the log; `play log` writes the log before it, a line for each row; `make N` writes the text of the scenario that is made of N, and reads nothing.
///
/// Nothing is written unless all was read and played, or made, and what takes memory is there. Each line of the log is a write of its own, and so is the report, and so is the text of a scenario.
pub fn play_call<S: Source, K: Sink>(
    alloc: Global,
    words: &[String],
    source: &mut S,
    sink: &mut K,
    handlers: HandlerTable,
) -> Ended
    ensures usage { (result.status ≡ Status.Usage) ↔ (work_of (map (λ w. string_bytes w) words.now) ≡ None) }
    ensures read { ReadsFor (work_of (map (λ w. string_bytes w) words.now)) result.status (S.left source.old) (S.left source.new) (S.faults source.old) (S.faults source.new) }
    ensures follows { FollowsFor (work_of (map (λ w. string_bytes w) words.now)) result.status (S.left source.old) (S.left source.new) result.log }
    ensures written { HasWriteCause result.status (text_due (work_of (map (λ w. string_bytes w) words.now)) result.log) (K.taken sink.old) (K.taken sink.new) (K.faults sink.old) (K.faults sink.new) }
    ensures legal { IfSome result.log IsLegal }
    ensures at_once { IfSome result.log ActsAtOnce }
    ensures loads_end { IfSome result.log LoadsEndInTime }
    ensures limited { IfSome result.log (BeginsBelow row_limit) }
    ensures answers { IfSome result.log (AnswersBy handlers.kinds.items) }

    // Where nothing is in the way, the call is done, or refuses what is no scenario.
    ensures done { (bytes : List ℕ) → (scenario : Scenario)
        → IsHeard (map (λ w. string_bytes w) words.now) bytes (S.left source.old) (S.faults source.old) (S.faults source.new) result.status
        → scenario_of false builts.Loads bytes ≡ Ok scenario
        → IsUnhindered scenario (K.faults sink.old) (K.faults sink.new) result.log
        → result.status ≡ Status.Done }
    ensures refused { (bytes : List ℕ) → (refusal : Refusal)
        → IsHeard (map (λ w. string_bytes w) words.now) bytes (S.left source.old) (S.faults source.old) (S.faults source.new) result.status
        → scenario_of false builts.Loads bytes ≡ Err refusal
        → result.status ≡ Status.Scenario refusal }
    ensures made { (n : ℕ)
        → work_of (map (λ w. string_bytes w) words.now) ≡ Some (Work.Make n)
        → IsDecided result.status
        → ¬ (Rose (K.faults sink.old) (K.faults sink.new))
        → result.status ≡ Status.Done }
{
    carry_out(alloc, asked_work(words), source, sink, &handlers)
}

/// What `play_call` does for this work, or for words that ask for nothing; its last three clauses follow from these.
fn carry_out<S: Source, K: Sink>(
    alloc: Global,
    work: Option<Work>,
    source: &mut S,
    sink: &mut K,
    handlers: &HandlerTable,
) -> Ended
    ensures usage { (result.status ≡ Status.Usage) ↔ (work ≡ None) }
    ensures read { ReadsFor work result.status (S.left source.old) (S.left source.new) (S.faults source.old) (S.faults source.new) }
    ensures follows { FollowsFor work result.status (S.left source.old) (S.left source.new) result.log }
    ensures written { HasWriteCause result.status (text_due work result.log) (K.taken sink.old) (K.taken sink.new) (K.faults sink.old) (K.faults sink.new) }
    ensures legal { IfSome result.log IsLegal }
    ensures at_once { IfSome result.log ActsAtOnce }
    ensures loads_end { IfSome result.log LoadsEndInTime }
    ensures limited { IfSome result.log (BeginsBelow row_limit) }
    ensures answers { IfSome result.log (AnswersBy handlers.now.kinds.items) }
{
    match work {
        Some(Work::Play(output)) => play_source(alloc, output, source, sink, handlers),
        Some(Work::Make(n)) => without_log(write_made(alloc, n, sink)),
        None => without_log(Status::Usage),
    }
}

/// Reads a scenario, plays it, and writes what is asked for of its log.
fn play_source<S: Source, K: Sink>(
    alloc: Global,
    output: Output,
    source: &mut S,
    sink: &mut K,
    handlers: &HandlerTable,
) -> Ended
    ensures usage { result.status ≢ Status.Usage }
    ensures read { HasReadCause result.status (S.left source.old) (S.left source.new) (S.faults source.old) (S.faults source.new) }
    ensures follows { FollowsRead result.status (S.left source.old) (S.left source.new) result.log }
    ensures written { HasWriteCause result.status (text_of_log output result.log) (K.taken sink.old) (K.taken sink.new) (K.faults sink.old) (K.faults sink.new) }
    ensures legal { IfSome result.log IsLegal }
    ensures at_once { IfSome result.log ActsAtOnce }
    ensures loads_end { IfSome result.log LoadsEndInTime }
    ensures limited { IfSome result.log (BeginsBelow row_limit) }
    ensures answers { IfSome result.log (AnswersBy handlers.now.kinds.items) }
{
    let scenario = match read_scenario(alloc, source) {
        Ok(scenario) => scenario,
        Err(status) => return without_log(status),
    };
    let played = match World::fresh(alloc, &scenario.header, handlers) {
        Ok(world) => play(&scenario, world, handlers),
        Err(_) => return without_log(Status::OutOfMemory),
    };
    tell(alloc, output, &scenario, played, sink, handlers)
}

/// Reads the scenario; else the status says why there is none.
fn read_scenario<S: Source>(alloc: Global, source: &mut S) -> Result<Scenario, Status>
    ensures { ReadsAs result (S.left source.old) (S.left source.new) (S.faults source.old) (S.faults source.new) }
{
    match read_bytes(alloc, source, BYTE_LIMIT) {
        Ok(bytes) => spelled(alloc, bytes),
        Err(ReadAllError::TooLong) => Err(Status::Scenario(Refusal {
            line: 0,
            reason: Reason::TooLong,
        })),
        Err(ReadAllError::ReadFault) => Err(Status::ReadFault),
        Err(ReadAllError::OutOfMemory) => Err(Status::OutOfMemory),
    }
}

/// The scenario that bytes spell.
fn spelled(alloc: Global, bytes: Vec<u8>) -> Result<Scenario, Status>
    ensures { SpellsAs result bytes.items }
{
    match Scenario::read_vec(alloc, bytes, false, Built::Loads) {
        Ok(scenario) => Ok(scenario),
        Err(ScenarioError::Refused(refusal)) => Err(Status::Scenario(refusal)),
        Err(ScenarioError::UrlOverflow(overflowed)) => Err(Status::UrlOverflow(overflowed)),
        Err(ScenarioError::OutOfMemory) => Err(Status::OutOfMemory),
    }
}

/// Tells what was played: the report, or why not all was.
fn tell<K: Sink>(
    alloc: Global,
    output: Output,
    scenario: &Scenario,
    played: Played,
    sink: &mut K,
    handlers: &HandlerTable,
) -> Ended
    requires given { IsSome played.world }
    requires open { played.fault ≡ None → IfSome played.world (λ w. w.closed ≡ false) }
    requires follows { played.fault ≡ None → IfSome played.world (λ w. Follows w.log scenario.now) }
    requires cut { IsSome played.fault → IfSome played.world (λ w. IsCutShort w.log scenario.now) }
    requires kinds { IfSome played.world (λ w. w.kinds ≡ handlers.now.kinds.items) }
    requires faults { IfSome played.fault (λ e. IfSome played.world (λ w. IsFault w e)) }
    ensures kind { IsPlayEnd result.status }
    ensures follows { FollowsAs result.status result.log scenario.now }
    ensures written { HasWriteCause result.status (text_of_log output result.log) (K.taken sink.old) (K.taken sink.new) (K.faults sink.old) (K.faults sink.new) }
    ensures legal { IfSome result.log IsLegal }
    ensures at_once { IfSome result.log ActsAtOnce }
    ensures loads_end { IfSome result.log LoadsEndInTime }
    ensures limited { IfSome result.log (BeginsBelow row_limit) }
    ensures answers { IfSome result.log (AnswersBy handlers.now.kinds.items) }
{
    let Played { world, fault } = played;
    let Some(world) = world else { unreachable!() };
    match fault {
        None => write_text(alloc, output, scenario, world, sink, handlers),
        Some(StepError::LogFull) => Ended {
            status: Status::LogFull,
            log: Some(world.into_log()),
        },
        Some(StepError::Closed) => unreachable!(),
        Some(StepError::UrlOverflow(overflowed)) => {
            let_go(world);
            without_log(Status::UrlOverflow(overflowed))
        }
        Some(StepError::OutOfMemory) => {
            let_go(world);
            without_log(Status::OutOfMemory)
        }
    }
}

/// Writes the report of a world's log, and before it the log where it is asked for.
fn write_text<K: Sink>(
    alloc: Global,
    output: Output,
    scenario: &Scenario,
    world: World,
    sink: &mut K,
    handlers: &HandlerTable,
) -> Ended
    requires open { world.closed ≡ false }
    requires follows { Follows world.log scenario.now }
    requires kinds { world.kinds ≡ handlers.now.kinds.items }
    ensures kind { IsPlayEnd result.status }
    ensures follows { FollowsAs result.status result.log scenario.now }
    ensures written { HasWriteCause result.status (text_of_log output result.log) (K.taken sink.old) (K.taken sink.new) (K.faults sink.old) (K.faults sink.new) }
    ensures legal { IfSome result.log IsLegal }
    ensures at_once { IfSome result.log ActsAtOnce }
    ensures loads_end { IfSome result.log LoadsEndInTime }
    ensures limited { IfSome result.log (BeginsBelow row_limit) }
    ensures answers { IfSome result.log (AnswersBy handlers.now.kinds.items) }
{
    let text = report(alloc, &world);
    let log = world.into_log();
    let text = match text {
        Ok(text) => text,
        Err(_) => return without_log(Status::OutOfMemory),
    };
    match write_due(alloc, sink, output, log.rows(), text.bytes()) {
        Ok(()) => Ended {
            status: Status::Done,
            log: Some(log),
        },
        Err(Unwritten::WriteFault) => Ended {
            status: Status::WriteFault,
            log: Some(log),
        },
        Err(Unwritten::OutOfMemory) => without_log(Status::OutOfMemory),
    }
}

/// Drops a world, in one place: each that drops one takes long to prove.
fn let_go(world: World) {
    let _log = world.into_log();
}

/// An end with no log.
fn without_log(status: Status) -> Ended
    ensures status { result.status ≡ status }
    ensures log { result.log ≡ None }
{
    Ended { status, log: None }
}
