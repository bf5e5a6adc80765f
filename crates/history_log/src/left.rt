//! Which accepted pokes are left in the input of a process.
ghost use Rattle.std.specs.Prelude.{◌≡◌, ◌+◌, ◌<◌, ◌≤◌, true, false, length, take, drop, slice_get, IfSome, MatchOption};
ghost use Rattle.history_log.specs.Lefts as spec;
ghost use Rattle.history_log.specs.Lefts.{left_from, is_kept, poked_by, have_opening, have_drop, IsFirstLeft, HaveNoneLeft};

use crate::owner::{opens, owner_of};
use log_model::{Actor, LogRow, Request, RowKind};
use tab_ids::{DocId, ProcId, ReqId};

/// Whether the row drops the request.
fn drops(req: ReqId, row: &RowKind) -> bool
    ensures { result ≡ spec.drops req row.now }
{
    match row {
        RowKind::Dropped { req: dropped, .. } => *dropped == req,
        RowKind::Opened { .. }
        | RowKind::Accepted { .. }
        | RowKind::Started { .. }
        | RowKind::Applied { .. }
        | RowKind::Refused { .. }
        | RowKind::Prompted { .. }
        | RowKind::Answered { .. }
        | RowKind::Sent { .. }
        | RowKind::Taken { .. }
        | RowKind::Finished { .. }
        | RowKind::Made { .. }
        | RowKind::Delivered { .. }
        | RowKind::Killed { .. }
        | RowKind::Evicted { .. } => false,
    }
}

/// Whether the row drops a request.
pub fn is_drop(row: &RowKind) -> bool
    ensures { result ≡ spec.is_drop row.now }
{
    match row {
        RowKind::Dropped { .. } => true,
        RowKind::Opened { .. }
        | RowKind::Accepted { .. }
        | RowKind::Started { .. }
        | RowKind::Applied { .. }
        | RowKind::Refused { .. }
        | RowKind::Prompted { .. }
        | RowKind::Answered { .. }
        | RowKind::Sent { .. }
        | RowKind::Taken { .. }
        | RowKind::Finished { .. }
        | RowKind::Made { .. }
        | RowKind::Delivered { .. }
        | RowKind::Killed { .. }
        | RowKind::Evicted { .. } => false,
    }
}

/// Whether a row from one on drops the request; none from `until` on drops any.
fn is_dropped(rows: &[LogRow], from: usize, until: usize, req: ReqId) -> bool
    requires until { until ≤ length rows.now }
    requires none_later { have_drop (drop until rows.now) ≡ false }
    ensures { result ≡ spec.is_dropped_by req (drop from rows.now) }
{
    for i in from..until {
        if drops(req, &rows[i].row) {
            return true;
        }
    }
    false
}

/// The request and the document of a poke.
fn poke_of(row: &RowKind) -> Option<(ReqId, DocId)>
    ensures { result ≡ spec.poke_face row.now }
{
    match row {
        RowKind::Accepted { req, doc, what } => face_of(*doc, what, *req),
        RowKind::Opened { .. }
        | RowKind::Started { .. }
        | RowKind::Applied { .. }
        | RowKind::Refused { .. }
        | RowKind::Dropped { .. }
        | RowKind::Prompted { .. }
        | RowKind::Answered { .. }
        | RowKind::Sent { .. }
        | RowKind::Taken { .. }
        | RowKind::Finished { .. }
        | RowKind::Made { .. }
        | RowKind::Delivered { .. }
        | RowKind::Killed { .. }
        | RowKind::Evicted { .. } => None,
    }
}

fn face_of(doc: Option<DocId>, what: &Request, req: ReqId) -> Option<(ReqId, DocId)>
    ensures { result ≡ spec.face_of doc what.now req }
{
    let doc = doc?;
    match what {
        Request::Poke { .. } => Some((req, doc)),
        Request::Load { .. } | Request::Go { .. } | Request::Reload { .. } => None,
    }
}

/// Whether the row at an index pokes the process, and no later row drops that request.
fn is_left(rows: &[LogRow], i: usize, proc: ProcId, opens_once: bool, last_drop: usize) -> bool
    requires here { i < length rows.now }
    requires opens_once { opens_once ≡ true → have_opening (drop 1 rows.now) ≡ false }
    requires until { last_drop ≤ length rows.now }
    requires none_later { have_drop (drop last_drop rows.now) ≡ false }
    ensures { IfSome (slice_get rows.now i) (λ row. result ≡ is_kept (poked_by proc (take i rows.now) row.row) (drop (i + 1) rows.now)) }
{
    let Some((req, doc)) = poke_of(&rows[i].row) else {
        return false;
    };
    let Some(owner) = owner_of(&rows[..i], opens_once, doc) else {
        return false;
    };
    if owner != proc {
        return false;
    }
    !is_dropped(rows, i + 1, last_drop, req)
}

/// The first row from one on whose poke is left in the input of the process.
pub fn first_left(
    rows: &[LogRow],
    from: usize,
    proc: ProcId,
    opens_once: bool,
    last_drop: usize,
) -> Option<usize>
    requires opens_once { opens_once ≡ true → have_opening (drop 1 rows.now) ≡ false }
    requires until { last_drop ≤ length rows.now }
    requires none_later { have_drop (drop last_drop rows.now) ≡ false }
    ensures { MatchOption result (HaveNoneLeft proc rows.now from) (λ i. IsFirstLeft proc rows.now from i) }
{
    for i in from..rows.len() {
        if is_left(rows, i, proc, opens_once, last_drop) {
            return Some(i);
        }
    }
    None
}

/// Whether the actor is the process.
fn is_process(proc: ProcId, actor: Actor) -> bool
    ensures { result ≡ spec.is_process proc actor }
{
    match actor {
        Actor::Proc(other) => other == proc,
        Actor::Start | Actor::Ui | Actor::Coord => false,
    }
}

/// Whether the process serves its first poke.
fn serves(proc: ProcId, joins: bool, row: &LogRow) -> bool
    ensures { result ≡ spec.serves proc joins row.now.actor row.now.row }
{
    match &row.row {
        RowKind::Refused { .. } => is_process(proc, row.actor),
        RowKind::Made { proc: other, .. } => *other == proc && !joins,
        RowKind::Opened { .. }
        | RowKind::Accepted { .. }
        | RowKind::Started { .. }
        | RowKind::Applied { .. }
        | RowKind::Dropped { .. }
        | RowKind::Prompted { .. }
        | RowKind::Answered { .. }
        | RowKind::Sent { .. }
        | RowKind::Taken { .. }
        | RowKind::Finished { .. }
        | RowKind::Delivered { .. }
        | RowKind::Killed { .. }
        | RowKind::Evicted { .. } => false,
    }
}

/// From which row on the pokes are left after the last of these rows.
pub fn head_after(
    rows: &[LogRow],
    row: &LogRow,
    head: usize,
    proc: ProcId,
    opens_once: bool,
    last_drop: usize,
    joins: bool,
) -> usize
    requires opens_once { opens_once ≡ true → have_opening (drop 1 rows.now) ≡ false }
    requires until { last_drop ≤ length rows.now }
    requires none_later { have_drop (drop last_drop rows.now) ≡ false }
    requires head { head ≤ length rows.now }
    ensures opened { spec.opens row.now.row ≡ true → result ≡ length rows.now }
    ensures served { spec.opens row.now.row ≡ false → spec.serves proc joins row.now.actor row.now.row ≡ true → drop 1 (left_from proc (take head rows.now) (drop head rows.now)) ≡ left_from proc (take result rows.now) (drop result rows.now) }
    ensures stays { spec.opens row.now.row ≡ false → spec.serves proc joins row.now.actor row.now.row ≡ false → result ≡ head }
    ensures within { result ≤ length rows.now }
{
    if opens(&row.row) {
        return rows.len();
    }
    if !serves(proc, joins, row) {
        return head;
    }
    match first_left(rows, head, proc, opens_once, last_drop) {
        Some(i) => i + 1,
        None => rows.len(),
    }
}
