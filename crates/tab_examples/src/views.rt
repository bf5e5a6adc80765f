//! A document's view that acts on pokes and does orders, as the rows of a log name them.
ghost use Rattle.std.specs.Bool.{OnTrue};
ghost use Rattle.doc_view.specs.Jobs.{IsForView};

use crate::case::Case;
use crate::logs::put_error;
use crate::out::{put, put_line};
use address::OutOfMemory;
use doc_view::{ActError, View};
use history_log::Log;
use log_model::{Action, Actor, Job, LogRow, Made, Request, RowKind, Task};
use report_text::{read_log, row_line};
use std::alloc::Global;
use tab_ids::{ProcId, ReqId};

/// The most entries that a document makes here.
const MOST: u32 = 1_000;

/// After each row of the log what the view of its first document then shows: it acts on each accepted poke and does each order that is sent.
pub fn tell(alloc: Global, out: &mut Vec<u8>, case: &Case) -> Result<(), OutOfMemory> {
    match read_log(alloc, case.input.as_slice()) {
        Ok(log) => put_views(alloc, out, &log),
        Err(error) => put_error(alloc, out, error),
    }
}

fn put_views(alloc: Global, out: &mut Vec<u8>, log: &Log) -> Result<(), OutOfMemory> {
    let mut view: Option<View> = None;
    for row in log.rows() {
        if let RowKind::Opened {
            doc,
            entry,
            address,
            ..
        } = &row.row
        {
            view = Some(View::opening(*doc, *entry, address.copy()?));
        }
        if let Some(view) = &mut view {
            put_done(alloc, out, view, row)?;
            put_view(alloc, out, view)?;
        }
    }
    Ok(())
}

/// What comes of a row for the view.
fn put_done(
    alloc: Global,
    out: &mut Vec<u8>,
    view: &mut View,
    row: &LogRow,
) -> Result<(), OutOfMemory> {
    match &row.row {
        RowKind::Accepted {
            req,
            what: Request::Poke { action, .. },
            ..
        } => put_act(alloc, out, view, *req, action),
        RowKind::Sent { job } => put_order(alloc, out, view, job),
        _ => Ok(()),
    }
}

fn put_act(
    alloc: Global,
    out: &mut Vec<u8>,
    view: &mut View,
    req: ReqId,
    action: &Action,
) -> Result<(), OutOfMemory> {
    if view.index() >= MOST || view.numbered() >= MOST {
        return put_line(out, b"! too many entries");
    }
    match view.act(req, action) {
        Ok(made) => put_made(alloc, out, made),
        Err(ActError::NotRunning) => put_line(out, b"! no-document"),
        Err(ActError::NotRewritable) => put_line(out, b"! address"),
        Err(ActError::UrlOverflow(_)) => put_line(out, b"! url overflow"),
        Err(ActError::OutOfMemory) => Err(OutOfMemory),
    }
}

fn put_order(
    alloc: Global,
    out: &mut Vec<u8>,
    view: &mut View,
    job: &Job,
) -> Result<(), OutOfMemory> {
    if view.index() >= MOST || view.numbered() >= MOST {
        return put_line(out, b"! too many entries");
    }
    if job.doc != view.doc() || !is_for_view(&job.task) {
        return put_line(out, b"! not for the view");
    }
    match view.do_job(job)? {
        Some(made) => put_made(alloc, out, made),
        None => Ok(()),
    }
}

/// Whether a view does the order.
fn is_for_view(task: &Task) -> bool
    ensures { OnTrue result (IsForView task.now) }
{
    match task {
        Task::Populate { .. } | Task::Discard => false,
        Task::Activate { .. }
        | Task::Update { .. }
        | Task::Freeze
        | Task::Ask { .. }
        | Task::DoFragment { .. } => true,
    }
}

/// What was made, as the log of the first process has it.
fn put_made(alloc: Global, out: &mut Vec<u8>, made: Made) -> Result<(), OutOfMemory> {
    let proc = ProcId(1);
    let row = LogRow {
        event: 0,
        actor: Actor::Proc(proc),
        row: RowKind::Made { proc, made },
    };
    put(out, row_line(alloc, &row)?.bytes())
}

/// What the view shows.
fn put_view(alloc: Global, out: &mut Vec<u8>, view: &View) -> Result<(), OutOfMemory> {
    let entry = view.entry();
    let line = format!(in alloc;
        "entry {}.{} length {} index {} epoch {} {} {} ",
        entry.maker,
        entry.nr,
        view.length(),
        view.index(),
        view.epoch().0,
        if view.running() { "running" } else { "frozen" },
        if view.dirty() { "dirty" } else { "clean" }
    )?;
    put(out, line.as_bytes())?;
    match view.memo() {
        Some(memo) => put(out, memo.bytes())?,
        None => put(out, b"-")?,
    }
    put(out, b" ")?;
    put_line(out, view.address().text())
}
