//! A request begins and asks: its row, and an order to each document that it asks.
ghost use Rattle.std.specs.Prelude.{◌≡◌, ◌+◌, ◌++◌, ◌∷◌, [], IfOk, OnOk, length};
ghost use Rattle.std.specs.Option.{IsSome};
ghost use Rattle.asking_facts.specs.Asking.{questions_sent};
ghost use Rattle.log_model.specs.declared.row_kind.RowKind.TheVariants as rows;
ghost use Rattle.seen_laws.specs.InEvent.{InEvent, log_of};
ghost use Rattle.tab_asks.specs.Asks.{AreThere, HasBegunAsking, HasBegunCheck, HasCounted, HaveProcs, question_order, question_orders};
ghost use Rattle.tab_doors.specs.Ties.{proc_in};
ghost use Rattle.tab_doors.specs.Working.{IsAtWork};

use crate::checks::begin_check;
use address::OutOfMemory;
use leave_questions::Question;
use log_model::{Docs, Job, Out, RowKind, Task, Why};
use std::alloc::Global;
use tab_doors::{Tables, count_order};
use tab_ids::{ReqId, Step};

/// The order that asks a question for a request, once it was counted. It goes to the document's process.
fn question_order(tables: &mut Tables, req: ReqId, question: Question) -> Result<Job, OutOfMemory>
    requires known { IsSome (proc_in tables.old.whose.entries question.0) }
    ensures job { IfOk result (λ job. job ≡ question_order tables.old.whose.entries req (length tables.old.sent.items) question) }
    ensures counted { OnOk result (HasCounted 1 tables.old tables.new) }
{
    let task = Task::Ask {
        slot: question.slot,
        cause: question.cause,
    };
    let proc = tables.proc_there(question.doc);
    count_order(&mut tables.sent, proc, question.doc, Why::Req(req), task)
}

/// A document is asked a question for a request.
fn ask(
    tables: &mut Tables,
    out: &mut Out,
    req: ReqId,
    question: Question,
) -> Result<(), OutOfMemory>
    requires known { IsSome (proc_in tables.old.whose.entries question.0) }
    ensures out { OnOk result (out.new ≡ out.old ++ rows.Sent (question_order tables.old.whose.entries req (length tables.old.sent.items) question) ∷ []) }
    ensures counted { OnOk result (HasCounted 1 tables.old tables.new) }
{
    let job = question_order(tables, req, question)?;
    out.push(RowKind::Sent { job })?;
    Ok(())
}

/// The documents are asked these questions for a request, in their order.
fn ask_all(
    tables: &mut Tables,
    out: &mut Out,
    req: ReqId,
    questions: &[Question],
) -> Result<(), OutOfMemory>
    requires known { HaveProcs tables.old.whose.entries questions.now }
    ensures out { OnOk result (out.new ≡ out.old ++ questions_sent (question_orders tables.old.whose.entries req (length tables.old.sent.items) questions.now)) }
    ensures counted { OnOk result (HasCounted (length questions.now) tables.old tables.new) }
{
    for question in questions {
        ask(tables, out, req, *question)?;
    }
    Ok(())
}

/// A request begins and asks: its row, then an order to each of these documents, in their order, which asks whether it may be left. The table of checks is told of what was discarded before, the run of these documents (`run`) first, and the request's check begins in it. HTML Standard, "checking if unloading is canceled".
pub fn begin_asking(
    alloc: Global,
    tables: &mut Tables,
    run: &mut Docs,
    out: &mut Out,
    req: ReqId,
    goal: Option<Step>,
    questions: &[Question],
) -> Result<(), OutOfMemory>
    ghost e: { InEvent }
    requires work { IsAtWork e out.old tables.old }
    requires there { AreThere (log_of e out.old) questions.now }
    ensures out { OnOk result (HasBegunAsking (log_of e out.old) req goal questions.now out.old out.new) }
    ensures tables { OnOk result (HasBegunCheck run.old out.old req questions.now tables.old tables.new) }
    ensures none { OnOk result (run.new ≡ []) }
{
    begin_check(alloc, &mut tables.checks, run, out, req, questions)?;
    out.push(RowKind::Started { req, goal })?;
    ask_all(tables, out, req, questions)?;
    Ok(())
}
