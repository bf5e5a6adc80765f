//! Whether nothing waits in a process, read along the rows of a log.
ghost use Rattle.std.specs.Prelude.{◌≡◌, ◌+◌, ◌-◌, ◌<◌, ◌^◌, ◌≤◌, true, false, is_some, length, take, drop, slice_get, IfSome, if◌then◌else◌};
ghost use Rattle.log_model.specs.Seen.{desk_of};
ghost use Rattle.log_model.specs.Logs as logs;
ghost use Rattle.log_model.specs.Logs.{seen_of};
ghost use Rattle.history_log.specs.Desks as spec;
ghost use Rattle.history_log.specs.Lefts as lefts;
ghost use Rattle.history_log.specs.Lefts.{have_opening};

use crate::left::{first_left, head_after, is_drop};
use crate::order_reader::{OrderReader, read_orders};
use log_model::{LogRow, RowKind, What};
use tab_ids::ProcId;

/// Whether the process makes something.
fn is_made_by(proc: ProcId, row: &RowKind) -> bool
    ensures { result ≡ lefts.is_made_by proc row.now }
{
    match row {
        RowKind::Made { proc: maker, .. } => *maker == proc,
        RowKind::Opened { .. }
        | RowKind::Accepted { .. }
        | RowKind::Started { .. }
        | RowKind::Applied { .. }
        | RowKind::Refused { .. }
        | RowKind::Dropped { .. }
        | RowKind::Prompted { .. }
        | RowKind::Answered { .. }
        | RowKind::Sent { .. }
        | RowKind::Taken { .. }
        | RowKind::Finished { .. }
        | RowKind::Delivered { .. }
        | RowKind::Killed { .. }
        | RowKind::Evicted { .. } => false,
    }
}

/// The process that finishes an order in the row.
fn finisher(row: &RowKind) -> Option<ProcId>
    ensures { result ≡ spec.finisher row.now }
{
    match row {
        RowKind::Finished { proc, .. } => Some(*proc),
        RowKind::Opened { .. }
        | RowKind::Accepted { .. }
        | RowKind::Started { .. }
        | RowKind::Applied { .. }
        | RowKind::Refused { .. }
        | RowKind::Dropped { .. }
        | RowKind::Prompted { .. }
        | RowKind::Answered { .. }
        | RowKind::Sent { .. }
        | RowKind::Taken { .. }
        | RowKind::Made { .. }
        | RowKind::Delivered { .. }
        | RowKind::Killed { .. }
        | RowKind::Evicted { .. } => None,
    }
}

/// Whether the row at an index finishes an order; `held` says whether `proc` has one in hand then.
fn finishes(rows: &[LogRow], i: usize, proc: ProcId, held: bool) -> bool
    requires here { i < length rows.now }
    requires held { is_some (desk_of (seen_of (take i rows.now)) proc).in_hand ≡ held }
    ensures { IfSome (slice_get rows.now i) (λ row. result ≡ spec.finishes_of (seen_of (take i rows.now)) (spec.finisher row.row)) }
{
    let Some(other) = finisher(&rows[i].row) else {
        return false;
    };
    if other == proc {
        return held;
    }
    read_orders(&rows[..i], other).holds
}

/// Whether what the process makes in a row joins the report of the order before it.
fn joins_order(rows: &[LogRow], k: usize, proc: ProcId, held: bool) -> bool
    requires here { k < length rows.now }
    requires held { is_some (desk_of (seen_of (take (k - 1) rows.now)) proc).in_hand ≡ held }
    ensures { IfSome (slice_get rows.now k) (λ row. result ≡ spec.joins_order proc (seen_of (take k rows.now)) row) }
{
    let row = &rows[k];
    if k == 0 {
        return false;
    }
    if !is_made_by(proc, &row.row) {
        return false;
    }
    let prev = &rows[k - 1];
    if prev.event != row.event {
        return false;
    }
    finishes(rows, k - 1, proc, held)
}

/// Whether what was made of a poke is reported.
fn is_reported(what: &What) -> bool
    ensures { result ≡ spec.is_reported what.now }
{
    match what {
        What::Edit => false,
        What::Push { .. }
        | What::Replace { .. }
        | What::AddFrame { .. }
        | What::RemoveFrame { .. }
        | What::Go { .. } => true,
    }
}

/// How many reports wait after one more row.
fn reports_after(proc: ProcId, joins: bool, holds: bool, reports: usize, row: &RowKind) -> usize
    requires { reports + 1 < 2 ^ 64 }
    ensures after { result ≡ spec.reports_after proc joins holds reports row.now }
    ensures few { result ≤ reports + 1 }
{
    match row {
        RowKind::Opened { .. } => 0,
        RowKind::Finished { proc: other, .. } => {
            if *other == proc && holds {
                reports + 1
            } else {
                reports
            }
        }
        RowKind::Made { proc: other, made } => {
            if *other == proc && !joins && is_reported(&made.what) {
                reports + 1
            } else {
                reports
            }
        }
        RowKind::Delivered { proc: other } => {
            if *other == proc {
                reports.saturating_sub(1)
            } else {
                reports
            }
        }
        RowKind::Killed { proc: other, .. } => {
            if *other == proc { reports + 1 } else { reports }
        }
        RowKind::Accepted { .. }
        | RowKind::Started { .. }
        | RowKind::Applied { .. }
        | RowKind::Refused { .. }
        | RowKind::Dropped { .. }
        | RowKind::Prompted { .. }
        | RowKind::Answered { .. }
        | RowKind::Sent { .. }
        | RowKind::Taken { .. }
        | RowKind::Evicted { .. } => reports,
    }
}

/// From which row on no row drops a request, after one more row at an index.
fn last_drop_after(last_drop: usize, k: usize, row: &RowKind) -> usize
    requires { k + 1 < 2 ^ 64 }
    ensures { result ≡ (if lefts.is_drop row.now then k + 1 else last_drop) }
{
    if is_drop(row) { k + 1 } else { last_drop }
}

/// Whether nothing waits in the process.
pub fn is_idle(rows: &[LogRow], proc: ProcId, opens_once: bool) -> bool
    requires { opens_once ≡ true → have_opening (drop 1 rows.now) ≡ false }
    ensures { result ≡ logs.is_idle (desk_of (seen_of rows.now) proc) }
{
    let mut orders = OrderReader::new();
    let mut held = false;
    let mut reports: usize = 0;
    let mut head: usize = 0;
    let mut last_drop: usize = 0;
    for k in 0..rows.len() {
        let row = &rows[k];
        let joins = joins_order(rows, k, proc, held);
        last_drop = last_drop_after(last_drop, k, &row.row);
        head = head_after(
            &rows[..k + 1],
            row,
            head,
            proc,
            opens_once,
            last_drop,
            joins,
        );
        reports = reports_after(proc, joins, orders.holds, reports, &row.row);
        held = orders.holds;
        orders.note(proc, &row.row);
    }
    let is_served = first_left(rows, head, proc, opens_once, last_drop).is_none();
    is_served && orders.mail.gone == orders.mail.sent && !orders.holds && reports == 0
}
