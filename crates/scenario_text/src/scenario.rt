//! `Scenario`, the settings of a tab and what is asked of it.
ghost use Rattle.std.specs.Prelude.{◌≡◌, ◌≤◌, IfOk};
ghost use Rattle.scenario_text.specs.Grammar.{scenario_of, at_end, read_pieces, IsSpelled};
ghost use Rattle.scenario_text.specs.Pieces.{pieces};
ghost use Rattle.scenario_text.specs.Printed.{text_of, IsReadBack};
ghost use Rattle.scenario_text.specs.Written.{IsWrittenPlace};
ghost use Rattle.scenario_text.specs.Gives.{Reads};
ghost use Rattle.scenario_text.specs.declared.place.Place.TheVariants as places;

use crate::built::Built;
use crate::cut::cut;
use crate::error::{Refusal, ScenarioError};
use crate::line::Lines;
use crate::place::Place;
use crate::printing::{put_header, put_lines};
use crate::progress::take_line;
use crate::reason::Reason;
use address::{OutOfMemory, Text};
use log_model::Header;
use std::alloc::Global;
use std::marker::Model;

/// The settings under which a tab is opened, and the lines that are played then.
#[derive(Drop)]
pub struct Scenario {
    pub header: Header,
    pub lines: Lines,
}

impl Model for Scenario {
    ghost use Rattle.scenario_text.specs.Scenarios.{Scenario};
    ghost use Rattle.scenario_text.specs.Written.{AreWritten};

    ghost Value = { Scenario };

    ghost view = { λ s. record { header = s.header; lines = s.lines } };

    // Its addresses are written as they are read, so what is printed is read back.
    ghost invariant = { λ s. AreWritten (record { header = s.header; lines = s.lines }) };
}

fn refused(line: u32, reason: Reason) -> ScenarioError
    ensures { result ≡ ScenarioError.Refused (record { line = line; reason = reason }) }
{
    ScenarioError::Refused(Refusal { line, reason })
}

/// What the lines give, where what stands after the last line feed has this number.
#[tactic(auto, unfolding(crate::specs::Grammar::at_end))]
fn at_end(number: u32, place: Place, rest: &[u8]) -> Result<Scenario, ScenarioError>
    requires { IsWrittenPlace place }
    ensures read { Reads result (at_end number place rest.now) }
{
    if !rest.is_empty() {
        if number > 65_536 {
            return Err(refused(number, Reason::TooMany));
        }
        return Err(refused(number, Reason::NoEnd));
    }
    match place {
        Place::Body(header, lines) => Ok(Scenario { header, lines }),
        Place::Start | Place::Heading(_, _) => Err(refused(number, Reason::Header)),
    }
}

/// What the lines of a text give.
#[tactic(auto, using(crate::proofs::StandingLaws::lines_stand))]
fn read_lines(
    alloc: Global,
    in_run: bool,
    built: Built,
    text: &Text,
) -> Result<Scenario, ScenarioError>
    ensures read { Reads result (read_pieces in_run built 1 places.Start (pieces 10 text.now)) }
{
    let mut place = Place::Start;
    let mut rest = text.bytes();
    let mut number: u32 = 1;
    'lines: while let Some((line, after)) = cut(rest, b'\n') {
        if number > 65_536 {
            return Err(refused(number, Reason::TooMany));
        }
        match take_line(
            alloc,
            in_run,
            built,
            &mut place,
            text,
            line,
            after.len() + 1,
        ) {
            Ok(()) => (),
            Err(e) => return Err(e.at(number)),
        }
        rest = after;
        number += 1;
    }
    at_end(number, place, rest)
}

impl Scenario {
    /// The scenario that bytes spell.
    ///
    /// `in_run` says whether it is for threads, `built` which lines the caller can play.
    pub fn read(
        alloc: Global,
        bytes: &[u8],
        in_run: bool,
        built: Built,
    ) -> Result<Scenario, ScenarioError>
        ensures read { Reads result (scenario_of in_run built bytes.now) }
        ensures spelled { IfOk result (λ scenario. IsSpelled scenario) }
    {
        if bytes.len() > 4_194_304 {
            return Err(refused(0, Reason::TooLong));
        }
        let Ok(bytes) = Vec::from_slice(alloc, bytes) else {
            return Err(ScenarioError::OutOfMemory);
        };
        Scenario::read_vec(alloc, bytes, in_run, built)
    }

    /// The same of a list of bytes, none of which is copied.
    ///
    /// The list stays as long as a memo, a reference or a fragment of the scenario is used.
    pub fn read_vec(
        alloc: Global,
        bytes: Vec<u8>,
        in_run: bool,
        built: Built,
    ) -> Result<Scenario, ScenarioError>
        ensures read { Reads result (scenario_of in_run built bytes.items) }
        ensures spelled { IfOk result (λ scenario. IsSpelled scenario) }
    {
        if bytes.as_slice().len() > 4_194_304 {
            return Err(refused(0, Reason::TooLong));
        }
        let text = Text::from_vec(bytes)?;
        read_lines(alloc, in_run, built, &text)
    }

    /// The text that spells the scenario; `keep` always has its line.
    #[tactic(auto, using(crate::proofs::HeaderLaws::spelled_read_back), unfolding(crate::specs::Printed::text_of))]
    pub fn print(&self, alloc: Global) -> Result<Text, OutOfMemory>
        requires spelled { IsSpelled self.now }
        ensures text { IfOk result (λ text. text ≡ text_of self.now) }
        ensures read_back { IsReadBack self.now }
    {
        let mut out = Vec::new(alloc);
        put_header(alloc, &mut out, &self.header)?;
        put_lines(alloc, &mut out, self.lines.as_slice())?;
        let text = Text::of(alloc, &out)?;
        Ok(text)
    }
}
