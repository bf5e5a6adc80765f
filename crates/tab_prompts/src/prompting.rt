//! The user is asked for requests, where a document wants it.
ghost use Rattle.check_facts.specs.Prompting.{prompt_of, todo_of};
ghost use Rattle.std.specs.Prelude.{◌≡◌, ◌∷◌, [], ◌++◌, OnOk};
ghost use Rattle.tab_prompts.specs.Prompts.{prompts_for};

use address::OutOfMemory;
use log_model::{Out, RowKind};
use tab_ids::{DocId, ReqId};
use unload_check::{Check, UnloadCheck};

/// The document for whose sake the user is to be asked, by what a check has come to.
fn prompt_of(check: Check) -> Option<DocId>
    ensures { result ≡ prompt_of check }
{
    match check {
        Check::Waiting => None,
        Check::Prompt(doc) => Some(doc),
        Check::Go => None,
        Check::Stay => None,
    }
}

/// The document for whose sake the user is to be asked about the request.
fn todo_of(checks: &UnloadCheck, req: ReqId) -> Option<DocId>
    ensures { result ≡ todo_of checks.now req }
{
    match checks.outcome(req) {
        Some(check) => prompt_of(check),
        None => None,
    }
}

/// The user is asked about the request, where a document wants it.
fn prompt_one(checks: &UnloadCheck, out: &mut Out, req: ReqId) -> Result<(), OutOfMemory>
    ensures { OnOk result (out.new ≡ out.old ++ prompts_for checks.now (req ∷ [])) }
{
    match todo_of(checks, req) {
        Some(doc) => out.push(RowKind::Prompted { req, doc })?,
        None => {}
    }
    Ok(())
}

/// The user is asked about each of these requests, in their order, where a document wants it. They are those that waited before the table was told of what was discarded, and weren't dropped since: so none of them has its prompt up already. HTML Standard, "checking if unloading is canceled"; one prompt for each request is this project's own.
pub fn prompt_settled(
    checks: &UnloadCheck,
    out: &mut Out,
    waited: &[ReqId],
) -> Result<(), OutOfMemory>
    ensures { OnOk result (out.new ≡ out.old ++ prompts_for checks.now waited.now) }
{
    for req in waited {
        prompt_one(checks, out, *req)?;
    }
    Ok(())
}
