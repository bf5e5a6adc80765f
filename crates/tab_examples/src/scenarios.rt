//! Scenarios that are read and printed.
use crate::case::Case;
use crate::out::{put, put_line};
use address::OutOfMemory;
use handler_table::HandlerTable;
use log_model::Header;
use report_text::{World, summary};
use scenario_text::{Built, Refusal, Scenario, ScenarioError};
use std::alloc::Global;

/// The scenario as it is printed, or why the bytes are none. `scenario` is read for a caller that plays all lines, `scenario one` for one of one document, `scenario run` for the second where threads run.
pub fn tell(alloc: Global, out: &mut Vec<u8>, case: &Case) -> Result<(), OutOfMemory> {
    let (in_run, built) = match case.words.get(1) {
        Some(word) if word.as_str() == "run" => (true, Built::Loads),
        Some(_) => (false, Built::Loads),
        None => (false, Built::All),
    };
    match Scenario::read(alloc, case.input.as_slice(), in_run, built) {
        Ok(scenario) => put(out, scenario.print(alloc)?.bytes()),
        Err(ScenarioError::Refused(refusal)) => put_refusal(alloc, out, refusal),
        Err(ScenarioError::UrlOverflow(_)) => put_line(out, b"! url overflow"),
        Err(ScenarioError::OutOfMemory) => Err(OutOfMemory),
    }
}

fn put_refusal(alloc: Global, out: &mut Vec<u8>, refusal: Refusal) -> Result<(), OutOfMemory> {
    let line = format!(in alloc;
        "! scenario line {}: {}",
        refusal.line,
        refusal.reason.text()
    )?;
    put_line(out, line.as_bytes())
}

/// The summary of a tab that was opened by the scenario's header, of which no line is played.
pub fn tell_opened(alloc: Global, out: &mut Vec<u8>, case: &Case) -> Result<(), OutOfMemory> {
    match Scenario::read(alloc, case.input.as_slice(), false, Built::Loads) {
        Ok(scenario) => put_opened(alloc, out, &scenario.header),
        Err(_) => put_line(out, b"! no scenario"),
    }
}

fn put_opened(alloc: Global, out: &mut Vec<u8>, header: &Header) -> Result<(), OutOfMemory> {
    let handlers = HandlerTable::new(alloc);
    let world = World::fresh(alloc, header, &handlers)?;
    let told = summary(alloc, &world);
    let_go(world);
    put(out, told?.bytes())
}

/// Drops a world, in one place: each that drops one takes long to prove.
fn let_go(world: World) {
    let _log = world.into_log();
}
