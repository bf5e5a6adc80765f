//! `Built`, the lines that a caller can play.
ghost use Rattle.std.specs.Prelude.{◌≡◌};
ghost use Rattle.scenario_text.specs.Plays as spec;

use crate::line::ScenarioLine;
use crate::place::{Place, Stage};
use log_model::Request;

/// The lines that a caller can play; any other is refused as `unbuilt`, once it has no other fault.
#[derive(Clone, Copy, PartialEq, Eq, Debug)]
pub enum Built {
    /// The lines of a tab with loads, in which no document is asked and no process dies: `load`, `go`, `push`, `replace`, `fragment`, `frame`, `remove`, `docgo`, `edit`, `answer`, `evict`, `act`, `begin`, `finish`, `deliver` and `settle`.
    Loads,
    /// All lines.
    All,
}

impl Built {
    /// Whether the caller can play the line.
    pub fn plays(self, line: &ScenarioLine) -> bool
        ensures { result ≡ spec.plays self line.now }
    {
        match self {
            Built::Loads => is_of_loads(line),
            Built::All => true,
        }
    }

    /// Whether the caller can play the line of the header that leads to the place.
    pub fn plays_place(self, place: &Place) -> bool
        ensures { result ≡ spec.plays_place self place.now }
    {
        match place {
            Place::Heading(stage, _) => self.plays_stage(*stage),
            Place::Start | Place::Body(_, _) => true,
        }
    }

    fn plays_stage(self, stage: Stage) -> bool
        ensures { result ≡ spec.plays_stage self stage }
    {
        match (self, stage) {
            (Built::Loads, Stage::Page) => false,
            (Built::Loads, Stage::Version | Stage::Keep | Stage::Site) | (Built::All, _) => true,
        }
    }
}

/// Whether it is one step of a process.
pub fn is_step(line: &ScenarioLine) -> bool
    ensures { result ≡ spec.is_step line.now }
{
    match line {
        ScenarioLine::Act { .. }
        | ScenarioLine::Begin { .. }
        | ScenarioLine::Finish { .. }
        | ScenarioLine::Deliver { .. } => true,
        ScenarioLine::Ask(_)
        | ScenarioLine::Answer { .. }
        | ScenarioLine::Evict
        | ScenarioLine::Kill { .. }
        | ScenarioLine::Settle => false,
    }
}

/// Whether it is a line of a tab with loads.
fn is_of_loads(line: &ScenarioLine) -> bool
    ensures { result ≡ spec.is_of_loads line.now }
{
    match line {
        ScenarioLine::Ask(request) => is_request_of_loads(request),
        ScenarioLine::Act { .. }
        | ScenarioLine::Begin { .. }
        | ScenarioLine::Finish { .. }
        | ScenarioLine::Deliver { .. }
        | ScenarioLine::Answer { .. }
        | ScenarioLine::Evict
        | ScenarioLine::Settle => true,
        ScenarioLine::Kill { .. } => false,
    }
}

fn is_request_of_loads(request: &Request) -> bool
    ensures { result ≡ spec.is_request_of_loads request.now }
{
    match request {
        Request::Load { .. } | Request::Go { .. } | Request::Poke { .. } => true,
        Request::Reload { .. } => false,
    }
}
