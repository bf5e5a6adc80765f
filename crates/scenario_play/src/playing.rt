//! `play`, which makes the events of a scenario's lines.
ghost use Rattle.std.specs.Prelude.{◌≡◌, [], All, false, None, IfErr, IfSome, IsSome, OnOk, length};
ghost use Rattle.scenario_text.specs.declared.line.ScenarioLine.TheVariants as lines;
ghost use Rattle.log_model.specs.Suits.{Suits};
ghost use Rattle.scenario_text.specs.Follows.{Follows, IsCutShort, does, plays, plays_line};
ghost use Rattle.scenario_play.specs.Courses.{Plays};
ghost use Rattle.scenario_play.specs.Lines.{IsBuiltLine, IsBuiltRequest};
ghost use Rattle.scenario_play.specs.Moves.{HaveTurns, IsFault};

use crate::round::{act, deliver, finish_in_hand, settle, step, take_up};
use handler_table::HandlerTable;
use log_model::Request;
use scenario_text::{Scenario, ScenarioLine};
use tab_ids::ReqId;
use world::{Event, StepError, World};

/// A world after the lines of a scenario, and why not all of them were played, if so.
#[derive(Drop)]
pub struct Played {
    pub world: Option<World>,
    pub fault: Option<StepError>,
}

/// Plays the lines in order, in a tab that was just opened as the scenario's header says, with these unload handlers. The world is always given back.
///
/// Where there is a fault, its log ends before the event that failed.
pub fn play(scenario: &Scenario, world: World, handlers: &HandlerTable) -> Played
    requires open { world.closed ≡ false }
    requires opened { length world.log ≡ 1 }
    requires header { world.header ≡ scenario.now.header }
    requires kinds { world.kinds ≡ handlers.now.kinds.items }
    requires suits { Suits scenario.now.header world.log }
    requires pages { scenario.now.header.pages ≡ [] }
    // A round of a settle has a turn of each process of the settings.
    requires turns { HaveTurns scenario.now.header }
    requires built { All IsBuiltLine scenario.now.lines }
    ensures follows { result.fault ≡ None → IfSome result.world (λ w. Follows w.log scenario.now) }
    ensures open { result.fault ≡ None → IfSome result.world (λ w. w.closed ≡ false) }
    ensures cut { IsSome result.fault → IfSome result.world (λ w. IsCutShort w.log scenario.now) }
    ensures faults { IfSome result.fault (λ e. IfSome result.world (λ w. IsFault w e)) }
    ensures given { IsSome result.world }
    ensures kinds { IfSome result.world (λ w. w.kinds ≡ handlers.now.kinds.items) }
{
    let mut world = world;
    let played = play_lines(&mut world, scenario.lines.as_slice(), handlers);
    // Brings what holds of every world's log.
    let _log = world.log();
    match played {
        Ok(()) => Played {
            world: Some(world),
            fault: None,
        },
        Err(fault) => Played {
            world: Some(world),
            fault: Some(fault),
        },
    }
}

fn play_lines(
    world: &mut World,
    lines: &[ScenarioLine],
    handlers: &HandlerTable,
) -> Result<(), StepError>
    requires kinds { world.old.kinds ≡ handlers.now.kinds.items }
    requires open { world.old.closed ≡ false }
    requires turns { HaveTurns world.old.header }
    requires built { All IsBuiltLine lines.now }
    ensures open { OnOk result (world.new.closed ≡ false) }
    ensures header { world.new.header ≡ world.old.header }
    ensures kinds { world.new.kinds ≡ world.old.kinds }
    ensures faults { IfErr result (IsFault world.new) }
    ensures plays { Plays (plays lines.now) world.old.log result world.new.log }
{
    for line in lines {
        play_line(world, line, handlers)?;
    }
    Ok(())
}

/// Plays one line. An answer that logs nothing is passed over.
fn play_line(
    world: &mut World,
    line: &ScenarioLine,
    handlers: &HandlerTable,
) -> Result<(), StepError>
    requires kinds { world.old.kinds ≡ handlers.now.kinds.items }
    requires open { world.old.closed ≡ false }
    requires turns { HaveTurns world.old.header }
    requires built { IsBuiltLine line.now }
    ensures open { OnOk result (world.new.closed ≡ false) }
    ensures header { world.new.header ≡ world.old.header }
    ensures kinds { world.new.kinds ≡ world.old.kinds }
    ensures faults { IfErr result (IsFault world.new) }
    ensures plays { Plays (plays_line line.now) world.old.log result world.new.log }
{
    match line {
        ScenarioLine::Ask(request) => ask(world, request),
        ScenarioLine::Act { proc } => act(world, *proc),
        ScenarioLine::Begin { proc } => take_up(world, *proc),
        ScenarioLine::Finish { proc } => finish_in_hand(world, *proc, handlers),
        ScenarioLine::Deliver { proc } => deliver(world, *proc),
        ScenarioLine::Settle => settle(world, handlers),
        ScenarioLine::Answer { req, stay } => answer(world, *req, *stay),
        ScenarioLine::Evict => evict(world),
        ScenarioLine::Kill { .. } => unreachable!(),
    }
}

/// Makes a request.
fn ask(world: &mut World, request: &Request) -> Result<(), StepError>
    requires open { world.old.closed ≡ false }
    requires built { IsBuiltRequest request.now }
    ensures open { OnOk result (world.new.closed ≡ false) }
    ensures header { world.new.header ≡ world.old.header }
    ensures kinds { world.new.kinds ≡ world.old.kinds }
    ensures faults { IfErr result (IsFault world.new) }
    ensures plays { Plays (does (lines.Ask request.now)) world.old.log result world.new.log }
{
    match request {
        Request::Poke { nav, action } => {
            let action = action.copy()?;
            match step(world, Event::Poke { nav: *nav, action }) {
                Ok(_) => Ok(()),
                Err(error) => Err(error),
            }
        }
        Request::Go { delta } => match step(world, Event::Go { delta: *delta }) {
            Ok(_) => Ok(()),
            Err(error) => Err(error),
        },
        Request::Load { nav, mode, address } => {
            let address = address.copy()?;
            let event = Event::Load {
                nav: *nav,
                mode: *mode,
                address,
            };
            match step(world, event) {
                Ok(_) => Ok(()),
                Err(error) => Err(error),
            }
        }
        Request::Reload { .. } => unreachable!(),
    }
}

/// Answers the prompt of a request.
fn answer(world: &mut World, req: ReqId, stay: bool) -> Result<(), StepError>
    requires open { world.old.closed ≡ false }
    ensures open { OnOk result (world.new.closed ≡ false) }
    ensures header { world.new.header ≡ world.old.header }
    ensures kinds { world.new.kinds ≡ world.old.kinds }
    ensures faults { IfErr result (IsFault world.new) }
    ensures plays { Plays (does (lines.Answer req stay)) world.old.log result world.new.log }
{
    match step(world, Event::Answer { req, stay }) {
        Ok(_) => return Ok(()),
        Err(error) => return Err(error),
    }
}

/// Has the document discarded that is kept longest.
fn evict(world: &mut World) -> Result<(), StepError>
    requires open { world.old.closed ≡ false }
    ensures open { OnOk result (world.new.closed ≡ false) }
    ensures header { world.new.header ≡ world.old.header }
    ensures kinds { world.new.kinds ≡ world.old.kinds }
    ensures faults { IfErr result (IsFault world.new) }
    ensures plays { Plays (does lines.Evict) world.old.log result world.new.log }
{
    match step(world, Event::Evict) {
        Ok(_) => return Ok(()),
        Err(error) => return Err(error),
    }
}
