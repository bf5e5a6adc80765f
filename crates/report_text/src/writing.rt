//! `report`, the report of a world's log.
ghost use Rattle.std.specs.Prelude.{◌≡◌, ◌++◌, false, true, IfOk, OnOk, flat_map};
ghost use Rattle.std.specs.Option.{option_copied};
ghost use Rattle.log_model.specs.Equal.{holds};
ghost use Rattle.log_model.specs.Formed.{running_documents};
ghost use Rattle.log_model.specs.History.{history_length, history_index};
ghost use Rattle.log_model.specs.Logs.{history_of, seen_of};
ghost use Rattle.log_model.specs.Order.{ordered};
ghost use Rattle.report_text.specs.Endings.{ending_lines};
ghost use Rattle.report_text.specs.Reports as spec;

use crate::pieces::{put_entry, put_moves, put_quiet, put_request, put_runs, put_step};
use address::{OutOfMemory, Text};
use doc_view::View;
use entry_store::Store;
use log_model::{Ending, Row, Rows};
use std::alloc::Global;
use world::World;

/// The report of a world's log. It is made of what the world keeps beside the log, so it reads no row again.
#[tactic(auto, using(crate::proofs::WorldReport::report_is))]
pub fn report(alloc: Global, world: &World) -> Result<Text, OutOfMemory>
    requires open { world.now.closed ≡ false }
    ensures { IfOk result (λ text. text ≡ spec.report_of world.now.log) }
{
    let mut out = Vec::new(alloc);
    write(&mut out, world)?;
    Text::from_vec(out)
}

fn write(out: &mut Vec<u8>, world: &World) -> Result<(), OutOfMemory>
    requires open { world.now.closed ≡ false }
    ensures { OnOk result (out.new.items ≡ out.old.items ++ spec.report_with (seen_of world.now.log)) }
{
    let rows = entries(world)?;
    let at = stands_at(world);
    put_quiet(out, world.is_quiet())?;
    put_step(out, at.step, at.length, at.index)?;
    put_entries(out, rows.as_slice())?;
    put_navs(out, world, rows.as_slice())?;
    put_endings(out, world)?;
    Ok(())
}

/// The entries, by navigable and then by step.
fn entries(world: &World) -> Result<Rows, OutOfMemory>
    requires open { world.now.closed ≡ false }
    ensures { IfOk result (λ rows. rows ≡ ordered (history_of world.now.log).rows) }
{
    world.store().rows()
}

/// The current step, with the history's length and index.
#[derive(Clone, Copy)]
pub(crate) struct Position {
    pub(crate) step: u64,
    pub(crate) length: u64,
    pub(crate) index: u64,
}

/// Where the history stands.
pub(crate) fn stands_at(world: &World) -> Position
    requires open { world.now.closed ≡ false }
    ensures step { result.step ≡ (history_of world.now.log).current }
    ensures length { result.length ≡ history_length (history_of world.now.log).rows }
    ensures index { result.index ≡ history_index (history_of world.now.log).rows (history_of world.now.log).current }
{
    let store = world.store();
    let step = store.current();
    let (length, index) = store.length_index(step);
    Position {
        step: u64::from(step.0),
        length: u64::from(length),
        index: u64::from(index),
    }
}

fn put_entries(out: &mut Vec<u8>, rows: &[Row]) -> Result<(), OutOfMemory>
    ensures { OnOk result (out.new.items ≡ out.old.items ++ flat_map spec.entry_line rows.now) }
{
    for row in rows {
        put_entry(out, row)?;
    }
    Ok(())
}

/// How each request ended.
#[tactic(auto, using(crate::proofs::WorldReport::lines_of_endings))]
fn put_endings(out: &mut Vec<u8>, world: &World) -> Result<(), OutOfMemory>
    requires open { world.now.closed ≡ false }
    ensures { OnOk result (out.new.items ≡ out.old.items ++ spec.request_lines 1 (seen_of world.now.log).requests) }
{
    put_requests(out, world.endings())
}

fn put_requests(out: &mut Vec<u8>, endings: &[Option<Ending>]) -> Result<(), OutOfMemory>
    ensures { OnOk result (out.new.items ≡ out.old.items ++ ending_lines 1 endings.now) }
{
    for (i, ending) in endings.iter().enumerate() {
        put_request(out, i as u64 + 1, *ending)?;
    }
    Ok(())
}

/// For each shown navigable, by number: its document shows its target, or is on its way there.
fn put_navs(out: &mut Vec<u8>, world: &World, rows: &[Row]) -> Result<(), OutOfMemory>
    requires open { world.now.closed ≡ false }
    ensures { OnOk result (out.new.items ≡ out.old.items ++ flat_map (spec.shown_line (seen_of world.now.log)) rows.now) }
{
    for row in rows {
        put_shown(out, world, row)?;
    }
    Ok(())
}

/// The line of a row's navigable, where the row is the target of a shown one.
fn put_shown(out: &mut Vec<u8>, world: &World, row: &Row) -> Result<(), OutOfMemory>
    requires open { world.now.closed ≡ false }
    ensures { OnOk result (out.new.items ≡ out.old.items ++ spec.shown_line (seen_of world.now.log) row.now) }
{
    if !is_shown_target(world, row) {
        return Ok(());
    }
    put_target(out, world, row)
}

/// Whether the row is the target of a shown navigable.
fn is_shown_target(world: &World, row: &Row) -> bool
    requires open { world.now.closed ≡ false }
    ensures { result ≡ spec.is_shown_target (history_of world.now.log) row.now }
{
    is_target(world, row) && world.is_shown(row.nav)
}

/// Whether the row is its navigable's target at the current step.
fn is_target(world: &World, row: &Row) -> bool
    requires open { world.now.closed ≡ false }
    ensures { result ≡ spec.is_target (history_of world.now.log) row.now }
{
    let store = world.store();
    match store.target(row.nav, store.current()) {
        Some(entry) => entry == row.entry,
        None => false,
    }
}

/// The line of a navigable with its target, which it shows or is on its way to.
fn put_target(out: &mut Vec<u8>, world: &World, row: &Row) -> Result<(), OutOfMemory>
    requires open { world.now.closed ≡ false }
    requires target { spec.is_target (history_of world.now.log) row.now ≡ true }
    ensures { OnOk result (out.new.items ≡ out.old.items ++ spec.nav_line (seen_of world.now.log) row.now) }
{
    let at = stands_at(world);
    let nav = u64::from(row.nav.0);
    let step = u64::from(row.step.0);
    if shows(world, row, at) {
        put_runs(out, nav, step, at.length, at.index)?;
    } else {
        put_moves(out, nav, step)?;
    }
    Ok(())
}

/// Whether exactly one document of a target's navigable runs, and shows the target with this length and index.
fn shows(world: &World, row: &Row, at: Position) -> bool
    requires open { world.now.closed ≡ false }
    requires target { spec.is_target (history_of world.now.log) row.now ≡ true }
    ensures { result ≡ spec.one_is_at row.now at.length at.index (running_documents (seen_of world.now.log) row.now.nav) }
{
    if !world.is_sole(row.nav) {
        return false;
    }
    is_shown(row, at, world.view(row.nav))
}

/// Whether the view is at the row.
fn is_shown(row: &Row, at: Position, view: Option<&View>) -> bool
    ensures { result ≡ holds (λ v. spec.is_at row.now at.length at.index v) (option_copied view.entry) }
{
    match view {
        Some(view) => is_at(row, at.length, at.index, view),
        None => false,
    }
}

/// Whether a view has the entry, the length and the index.
fn is_at(row: &Row, length: u64, index: u64, view: &View) -> bool
    ensures { result ≡ spec.is_at row.now length index view.now }
{
    view.entry() == row.entry
        && u64::from(view.length()) == length
        && u64::from(view.index()) == index
}
