//! `make`, the scenario of a number.
ghost use Rattle.std.specs.Prelude.{◌≡◌, ◌++◌, ◌<◌, ◌+◌, ◌^◌, false, Ok, IfOk, OnOk};
ghost use Rattle.scenario_text.specs.declared.built.Built.TheVariants as builts;
ghost use Rattle.scenario_text.specs.Grammar.{IsSpelled, scenario_of};
ghost use Rattle.scenario_text.specs.Printed.{text_of};
ghost use Rattle.scenario_make.specs.Turns.{turn_after};
ghost use Rattle.scenario_make.specs.Scenarios.{made_lines, made_scenario, made_turns, number_after, turn_lines};

use crate::draws::Draws;
use crate::error::MakeError;
use crate::header::header;
use crate::turn::next_line;
use address::OutOfMemory;
use log_model::{Action, Request};
use scenario_text::{Lines, Scenario, ScenarioLine};
use std::alloc::Global;
use tab_ids::{NavId, ReqId};

/// Adds the lines of a turn, and answers the number of the next request.
fn add_turn(lines: &mut Lines, line: ScenarioLine, number: u32) -> Result<u32, OutOfMemory>
    requires { number + 1 < 2 ^ 32 }
    ensures lines { OnOk result (lines.new ≡ lines.old ++ turn_lines number line) }
    ensures number { IfOk result (λ next. next ≡ number_after number line) }
{
    let is_request = matches!(&line, ScenarioLine::Ask(_));
    lines.push(line)?;
    lines.push(ScenarioLine::Settle)?;
    if !is_request {
        return Ok(number);
    }
    let req = ReqId(number);
    lines.push(ScenarioLine::Answer { req, stay: false })?;
    lines.push(ScenarioLine::Settle)?;
    Ok(number + 1)
}

/// Adds the lines of 1,000 turns.
fn add_turns(alloc: Global, lines: &mut Lines, n: u32) -> Result<(), MakeError>
    ensures { OnOk result (lines.new ≡ lines.old ++ made_turns 1000 n 2) }
{
    let mut draws = Draws { kept: n };
    let mut number: u32 = 2;
    'turns: for turn in 0..1_000u32 {
        let line = next_line(alloc, &mut draws)?;
        number = add_turn(lines, line, number)?;
    }
    Ok(())
}

/// The lines after `open`.
#[tactic(auto, unfolding(crate::specs::Scenarios::made_lines))]
fn lines(alloc: Global, n: u32) -> Result<Lines, MakeError>
    ensures { IfOk result (λ lines. lines ≡ made_lines n) }
{
    let mut lines = Lines::new(alloc);
    lines.push(ScenarioLine::Ask(Request::Poke {
        nav: NavId(0),
        action: Action::AddFrame { nav: NavId(1) },
    }))?;
    lines.push(ScenarioLine::Settle)?;
    add_turns(alloc, &mut lines, n)?;
    Ok(lines)
}

/// The scenario that is made of a number: settings that are always the same, a frame, and 1,000 turns, of which each is drawn.
///
/// It is spelled, so it can be printed. `UrlOverflow` is the crate `url`'s alone to answer.
pub fn make(alloc: Global, n: u32) -> Result<Scenario, MakeError>
    ensures made { IfOk result (λ scenario. scenario ≡ made_scenario n) }
    ensures spelled { IfOk result (λ scenario. IsSpelled scenario) }
    ensures read_back { IfOk result (λ scenario. scenario_of false builts.All (text_of scenario) ≡ Ok scenario) }
{
    let header = header(alloc)?;
    let lines = lines(alloc, n)?;
    Ok(Scenario { header, lines })
}
