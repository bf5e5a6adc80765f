//! The row that a line may spell.
ghost use Rattle.std.specs.Prelude.{◌≡◌, IfOk};
ghost use Rattle.log_reading.specs.Rows as spec;
ghost use Rattle.log_reading.specs.Gives.{Gives};
ghost use Rattle.log_reading.specs.Readable.{IsKind, IsReadable};

use crate::causes::cause_of;
use crate::changes::change_of;
use crate::cut::next;
use crate::fault::Fault;
use crate::fields::poked_of;
use crate::kinds::short_kind_of;
use crate::naming::{actor_of, doc_of, epoch_of, job_of, proc_of, req_of, why_of};
use crate::number::plain_of;
use crate::outcomes::outcome_of;
use crate::part::words;
use crate::requests::request_of;
use crate::tasks::task_of;
use crate::things::thing_of;
use log_model::{Job, LogRow, Made, RowKind};
use std::alloc::Global;

/// REQ DOC, and the line of a scenario.
#[tactic(auto, unfolding(crate::specs::Rows::accepted_row))]
fn accepted_row(alloc: Global, text: &[u8]) -> Result<RowKind, Fault>
    ensures read { Gives result (spec.accepted_row text.now) }
    ensures fits { IfOk result (λ row. IsKind row) }
{
    let (req, rest) = next(text);
    let (doc, rest) = next(rest);
    let req = req_of(req)?;
    let doc = poked_of(doc)?;
    let what = request_of(alloc, words(rest))?;
    Ok(RowKind::Accepted { req, doc, what })
}

/// REQ and a change.
#[tactic(auto, unfolding(crate::specs::Rows::applied_row))]
fn applied_row(alloc: Global, text: &[u8]) -> Result<RowKind, Fault>
    ensures read { Gives result (spec.applied_row text.now) }
    ensures fits { IfOk result (λ row. IsKind row) }
{
    let (req, rest) = next(text);
    let req = req_of(req)?;
    let change = change_of(alloc, words(rest))?;
    Ok(RowKind::Applied { req, change })
}

/// REQ and a cause.
#[tactic(auto, unfolding(crate::specs::Rows::dropped_row))]
fn dropped_row(text: &[u8]) -> Result<RowKind, Fault>
    ensures read { Gives result (spec.dropped_row text.now) }
    ensures fits { IfOk result (λ row. IsKind row) }
{
    let (req, rest) = next(text);
    let req = req_of(req)?;
    let cause = cause_of(words(rest))?;
    Ok(RowKind::Dropped { req, cause })
}

/// PROC JOB and an outcome.
#[tactic(auto, unfolding(crate::specs::Rows::finished_row))]
fn finished_row(text: &[u8]) -> Result<RowKind, Fault>
    ensures read { Gives result (spec.finished_row text.now) }
    ensures fits { IfOk result (λ row. IsKind row) }
{
    let (proc, rest) = next(text);
    let (job, rest) = next(rest);
    let proc = proc_of(proc)?;
    let job = job_of(job)?;
    let outcome = outcome_of(words(rest))?;
    Ok(RowKind::Finished { proc, job, outcome })
}

/// JOB PROC INCARNATION DOC WHY and a task.
#[tactic(auto, unfolding(crate::specs::Rows::sent_row))]
fn sent_row(alloc: Global, text: &[u8]) -> Result<RowKind, Fault>
    ensures read { Gives result (spec.sent_row text.now) }
    ensures fits { IfOk result (λ row. IsKind row) }
{
    let (nr, rest) = next(text);
    let (proc, rest) = next(rest);
    let (incarnation, rest) = next(rest);
    let (doc, rest) = next(rest);
    let (why, rest) = next(rest);
    let nr = job_of(nr)?;
    let proc = proc_of(proc)?;
    let incarnation = plain_of(incarnation)?;
    let doc = doc_of(doc)?;
    let why = why_of(why)?;
    let task = task_of(alloc, words(rest))?;
    Ok(RowKind::Sent {
        job: Job {
            nr,
            proc,
            incarnation,
            doc,
            why,
            task,
        },
    })
}

/// PROC REQ DOC EPOCH and what was made.
#[tactic(auto, unfolding(crate::specs::Rows::made_row))]
fn made_row(alloc: Global, text: &[u8]) -> Result<RowKind, Fault>
    ensures read { Gives result (spec.made_row text.now) }
    ensures fits { IfOk result (λ row. IsKind row) }
{
    let (proc, rest) = next(text);
    let (req, rest) = next(rest);
    let (doc, rest) = next(rest);
    let (epoch, rest) = next(rest);
    let proc = proc_of(proc)?;
    let req = req_of(req)?;
    let doc = doc_of(doc)?;
    let epoch = epoch_of(epoch)?;
    let what = thing_of(alloc, words(rest))?;
    Ok(RowKind::Made {
        proc,
        made: Made {
            req,
            doc,
            epoch,
            what,
        },
    })
}

/// What happened: the kind of a row, and what it tells.
#[tactic(auto, unfolding(crate::specs::Rows::kind_of))]
fn kind_of(alloc: Global, kind: &[u8], text: &[u8]) -> Result<RowKind, Fault>
    ensures read { Gives result (spec.kind_of kind.now text.now) }
    ensures fits { IfOk result (λ row. IsKind row) }
{
    if kind == b"accepted".as_slice() {
        accepted_row(alloc, text)
    } else if kind == b"applied".as_slice() {
        applied_row(alloc, text)
    } else if kind == b"dropped".as_slice() {
        dropped_row(text)
    } else if kind == b"finished".as_slice() {
        finished_row(text)
    } else if kind == b"sent".as_slice() {
        sent_row(alloc, text)
    } else if kind == b"made".as_slice() {
        made_row(alloc, text)
    } else {
        short_kind_of(alloc, kind, words(text))
    }
}

/// The row that a line without its end may spell.
#[tactic(auto, unfolding(crate::specs::Rows::row_of))]
pub fn row_of(alloc: Global, line: &[u8]) -> Result<LogRow, Fault>
    ensures read { Gives result (spec.row_of line.now) }
    ensures fits { IfOk result (λ row. IsReadable row) }
{
    let (event, rest) = next(line);
    let (actor, rest) = next(rest);
    let (kind, rest) = next(rest);
    let event = plain_of(event)?;
    let actor = actor_of(actor)?;
    let row = kind_of(alloc, kind, rest)?;
    Ok(LogRow { event, actor, row })
}
