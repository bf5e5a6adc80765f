//! `ScenarioLine`, one step of a scenario.
ghost use Rattle.std.specs.Prelude.{◌≡◌, IfOk};

use address::OutOfMemory;
use log_model::{Items, Request};
use tab_ids::{ProcId, ReqId};

/// A line of a scenario after `open`.
#[derive(Drop)]
pub enum ScenarioLine {
    /// A request; requests are numbered from 1 in the order of their lines.
    Ask(Request),
    /// The user's answer to the unload prompt of a request.
    Answer { req: ReqId, stay: bool },
    /// A kept document is evicted.
    Evict,
    /// A process is killed.
    Kill { proc: ProcId },
    /// A process makes the next change that was asked of it.
    Act { proc: ProcId },
    /// A process takes the next order.
    Begin { proc: ProcId },
    /// A process finishes the order in hand.
    Finish { proc: ProcId },
    /// The next report of a process reaches the coordinator.
    Deliver { proc: ProcId },
    /// Rounds of steps until nothing is in transit.
    Settle,
}

impl ScenarioLine {
    /// An equal line.
    pub fn copy(&self) -> Result<ScenarioLine, OutOfMemory>
        ensures { IfOk result (λ line. line ≡ self.now) }
    {
        match self {
            ScenarioLine::Ask(request) => {
                let request = request.copy()?;
                Ok(ScenarioLine::Ask(request))
            }
            ScenarioLine::Answer { req, stay } => Ok(ScenarioLine::Answer {
                req: *req,
                stay: *stay,
            }),
            ScenarioLine::Evict => Ok(ScenarioLine::Evict),
            ScenarioLine::Kill { proc } => Ok(ScenarioLine::Kill { proc: *proc }),
            ScenarioLine::Act { proc } => Ok(ScenarioLine::Act { proc: *proc }),
            ScenarioLine::Begin { proc } => Ok(ScenarioLine::Begin { proc: *proc }),
            ScenarioLine::Finish { proc } => Ok(ScenarioLine::Finish { proc: *proc }),
            ScenarioLine::Deliver { proc } => Ok(ScenarioLine::Deliver { proc: *proc }),
            ScenarioLine::Settle => Ok(ScenarioLine::Settle),
        }
    }
}

/// The lines of a scenario after `open`, in order.
pub type Lines = Items<ScenarioLine>;
