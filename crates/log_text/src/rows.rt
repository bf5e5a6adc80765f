//! The line of a row: the event's number, who acts, the row's kind with what it names, and then what it tells of.
ghost use Rattle.std.specs.Prelude.{◌≡◌, ◌++◌, ◌∷◌, [], codes, fold};
ghost use Rattle.log_model.specs.declared.row_kind.RowKind.TheVariants.{Opened, Sent, Made as MadeRow};
ghost use Rattle.log_text.specs.Lines as spec;
ghost use Rattle.log_text.specs.Spellings.{job_name, proc_name, req_name};

use crate::changes::put_change;
use crate::names::{
    put_death, put_doc, put_entry, put_job, put_number, put_proc, put_req, put_state, put_text,
};
use crate::naming::{put_actor, put_answer, put_denial, put_poked, put_slot, put_why};
use crate::out::Out;
use crate::outcomes::{put_cause, put_outcome, put_taken};
use crate::requests::put_request;
use crate::tasks::put_task;
use crate::things::put_made;
use address::Address;
use log_model::{Job, LogRow, Made, RowKind};
use tab_ids::{DocId, EntryId, JobId, ProcId, ReqId, StateId, Step};

/// The opening of a tab: its first entry, with the document that shows it.
fn put_opened<O: Out>(
    out: &mut O,
    entry: EntryId,
    state: StateId,
    doc: DocId,
    proc: ProcId,
    slot: Option<u8>,
    address: &Address,
)
    ensures { out.new ≡ fold O.after out.old (spec.spaced (spec.row_words (Opened entry state doc proc slot address.now))) }
{
    out.put(b" opened n0");
    put_entry(out, entry);
    put_state(out, state);
    put_doc(out, doc);
    put_proc(out, proc);
    put_slot(out, slot);
    put_text(out, address.text());
}

/// A request that begins, a traversal with its goal.
fn put_started<O: Out>(out: &mut O, req: ReqId, goal: Option<Step>)
    ensures { out.new ≡ fold O.after out.old (spec.spaced (codes "started" ∷ req_name req ∷ spec.goal_words goal)) }
{
    out.put(b" started");
    put_req(out, req);
    if let Some(goal) = goal {
        put_number(out, u64::from(goal.0));
    }
}

/// An order, with its task.
fn put_sent<O: Out>(out: &mut O, job: &Job)
    ensures { out.new ≡ fold O.after out.old (spec.spaced (spec.row_words (Sent job.now))) }
{
    out.put(b" sent");
    put_job(out, job.nr);
    put_proc(out, job.proc);
    put_number(out, u64::from(job.incarnation));
    put_doc(out, job.doc);
    put_why(out, job.why);
    put_task(out, &job.task);
}

/// The order that a row tells of, after its process.
#[inline(always)]
fn put_order<O: Out>(out: &mut O, proc: ProcId, job: JobId)
    ensures { out.new ≡ fold O.after out.old (spec.spaced (proc_name proc ∷ job_name job ∷ [])) }
{
    put_proc(out, proc);
    put_job(out, job);
}

/// What a document made, under which epoch.
fn put_made_row<O: Out>(out: &mut O, proc: ProcId, made: &Made)
    ensures { out.new ≡ fold O.after out.old (spec.spaced (spec.row_words (MadeRow proc made.now))) }
{
    out.put(b" made");
    put_proc(out, proc);
    put_req(out, made.req);
    put_doc(out, made.doc);
    put_number(out, made.epoch.0);
    put_made(out, &made.what);
}

/// What a row says.
fn put_kind<O: Out>(out: &mut O, row: &RowKind)
    ensures { out.new ≡ fold O.after out.old (spec.spaced (spec.row_words row.now)) }
{
    match row {
        RowKind::Opened {
            entry,
            state,
            doc,
            proc,
            slot,
            address,
        } => put_opened(out, *entry, *state, *doc, *proc, *slot, address),
        RowKind::Accepted { req, doc, what } => {
            out.put(b" accepted");
            put_req(out, *req);
            put_poked(out, *doc);
            put_request(out, what);
        }
        RowKind::Started { req, goal } => put_started(out, *req, *goal),
        RowKind::Applied { req, change } => {
            out.put(b" applied");
            put_req(out, *req);
            put_change(out, change);
        }
        RowKind::Refused { req, reason } => {
            out.put(b" refused");
            put_req(out, *req);
            put_denial(out, *reason);
        }
        RowKind::Dropped { req, cause } => {
            out.put(b" dropped");
            put_req(out, *req);
            put_cause(out, *cause);
        }
        RowKind::Prompted { req, doc } => {
            out.put(b" prompted");
            put_req(out, *req);
            put_doc(out, *doc);
        }
        RowKind::Answered { req, stay } => {
            out.put(b" answered");
            put_req(out, *req);
            put_answer(out, *stay);
        }
        RowKind::Sent { job } => put_sent(out, job),
        RowKind::Taken {
            proc,
            job,
            live,
            dirty,
        } => {
            out.put(b" taken");
            put_order(out, *proc, *job);
            put_taken(out, *live, *dirty);
        }
        RowKind::Finished { proc, job, outcome } => {
            out.put(b" finished");
            put_order(out, *proc, *job);
            put_outcome(out, *outcome);
        }
        RowKind::Made { proc, made } => put_made_row(out, *proc, made),
        RowKind::Delivered { proc } => {
            out.put(b" delivered");
            put_proc(out, *proc);
        }
        RowKind::Killed { proc, death } => {
            out.put(b" killed");
            put_proc(out, *proc);
            put_death(out, *death);
        }
        RowKind::Evicted { state } => {
            out.put(b" evicted");
            put_state(out, *state);
        }
    }
}

/// The line of a row, its line feed with it.
pub fn put_row<O: Out>(out: &mut O, row: &LogRow)
    ensures { out.new ≡ fold O.after out.old (spec.line_of_row row.now) }
{
    out.put_number(b"", u64::from(row.event));
    put_actor(out, row.actor);
    put_kind(out, &row.row);
    out.put(b"\n");
}
