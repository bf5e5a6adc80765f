//! The check of a request begins in the table.
ghost use Rattle.std.specs.Prelude.{◌≡◌, [], IfOk, OnOk, map};
ghost use Rattle.asking_facts.specs.Asking.{checks_begun};
ghost use Rattle.checking_facts.specs.Prompts.{told_by};
ghost use Rattle.log_model.specs.Orders.{Question};

use crate::telling::tell_rows;
use address::OutOfMemory;
use leave_questions::Question;
use log_model::{Docs, Out};
use std::alloc::Global;
use tab_ids::ReqId;
use unload_check::UnloadCheck;

/// The documents of these questions.
fn docs_of(alloc: Global, questions: &[Question]) -> Result<Docs, OutOfMemory>
    ensures { IfOk result (λ docs. docs ≡ map (λ (question : Question). question.0) questions.now) }
{
    let mut docs = Docs::new(alloc);
    for question in questions {
        docs.push(question.doc)?;
    }
    Ok(docs)
}

/// The table is told of the run of documents that lasted before, and of those that the rows discarded, and then the request's check begins in it.
pub(crate) fn begin_check(
    alloc: Global,
    checks: &mut UnloadCheck,
    run: &mut Docs,
    out: &Out,
    req: ReqId,
    questions: &[Question],
) -> Result<(), OutOfMemory>
    ensures begun { OnOk result (checks.new ≡ checks_begun (told_by run.old checks.old out.now) req questions.now) }
    ensures none { OnOk result (run.new ≡ []) }
{
    tell_rows(alloc, checks, run, out)?;
    let docs = docs_of(alloc, questions)?;
    checks.begin(req, docs)?;
    Ok(())
}
