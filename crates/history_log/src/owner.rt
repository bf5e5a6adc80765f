//! In which process a document is, by the rows of a log.
ghost use Rattle.std.specs.Prelude.{◌≡◌, ◌+◌, true, false, drop, slice_get, Some, IsTrue};
ghost use Rattle.history_log.specs.Owners as spec;
ghost use Rattle.history_log.specs.Lefts as lefts;

use log_model::{Job, LogRow, RowKind, Task};
use tab_ids::{DocId, ProcId};

fn placed_by_task(doc: DocId, job: &Job) -> Option<ProcId>
    ensures { result ≡ spec.placed_by_task doc job.now job.now.task }
{
    match &job.task {
        Task::Populate { .. } => { if job.doc == doc { Some(job.proc) } else { None } }
        Task::Activate { .. }
        | Task::Update { .. }
        | Task::Freeze
        | Task::Discard
        | Task::Ask { .. }
        | Task::DoFragment { .. } => None,
    }
}

/// The process of a document after one more row.
fn owner_after(doc: DocId, owner: Option<ProcId>, row: &RowKind) -> Option<ProcId>
    ensures { result ≡ spec.owner_after doc owner row.now }
{
    match row {
        RowKind::Opened {
            doc: opened,
            proc,
            ..
        } => { if *opened == doc { Some(*proc) } else { None } }
        RowKind::Sent { job } => match owner {
            Some(proc) => Some(proc),
            None => placed_by_task(doc, job),
        },
        RowKind::Accepted { .. }
        | RowKind::Started { .. }
        | RowKind::Applied { .. }
        | RowKind::Refused { .. }
        | RowKind::Dropped { .. }
        | RowKind::Prompted { .. }
        | RowKind::Answered { .. }
        | RowKind::Taken { .. }
        | RowKind::Finished { .. }
        | RowKind::Made { .. }
        | RowKind::Delivered { .. }
        | RowKind::Killed { .. }
        | RowKind::Evicted { .. } => owner,
    }
}

/// The process of a document. Where only the first row opens the log, the search ends at the row that places the document.
pub fn owner_of(rows: &[LogRow], opens_once: bool, doc: DocId) -> Option<ProcId>
    requires { opens_once ≡ true → lefts.have_opening (drop 1 rows.now) ≡ false }
    ensures { result ≡ spec.owner_of rows.now doc }
{
    let mut owner = None;
    for row in rows {
        owner = owner_after(doc, owner, &row.row);
        if opens_once && owner.is_some() {
            return owner;
        }
    }
    owner
}

/// Whether a row opens the log.
pub fn opens(row: &RowKind) -> bool
    ensures { result ≡ lefts.opens row.now }
{
    match row {
        RowKind::Opened { .. } => true,
        RowKind::Accepted { .. }
        | RowKind::Started { .. }
        | RowKind::Applied { .. }
        | RowKind::Refused { .. }
        | RowKind::Dropped { .. }
        | RowKind::Prompted { .. }
        | RowKind::Answered { .. }
        | RowKind::Sent { .. }
        | RowKind::Taken { .. }
        | RowKind::Finished { .. }
        | RowKind::Made { .. }
        | RowKind::Delivered { .. }
        | RowKind::Killed { .. }
        | RowKind::Evicted { .. } => false,
    }
}

/// Whether one of the rows opens the log.
fn have_opening(rows: &[LogRow]) -> bool
    ensures { result ≡ lefts.have_opening rows.now }
{
    for row in rows {
        if opens(&row.row) {
            return true;
        }
    }
    false
}

/// Whether only the first row, if any, opens the log.
pub fn opens_once(rows: &[LogRow]) -> bool
    ensures { result ≡ true → lefts.have_opening (drop 1 rows.now) ≡ false }
{
    match rows {
        [] => true,
        [_, others @ ..] => !have_opening(others),
    }
}
