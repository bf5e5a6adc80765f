//! Which requests wait for an answer in the table of checks.
ghost use Rattle.std.specs.Prelude.{◌≡◌, ◌∷◌, [], ◌++◌, IfOk, OnOk};
ghost use Rattle.tab_prompts.specs.Prompts.{is_open, is_waiting, waiting_among};

use address::OutOfMemory;
use log_model::Items;
use std::alloc::Global;
use tab_ids::ReqId;
use unload_check::{Check, UnloadCheck};

/// A list of requests.
pub type Reqs = Items<ReqId>;

/// Whether an asked document has neither answered nor died.
fn is_open(check: Check) -> bool
    ensures { result ≡ is_open check }
{
    match check {
        Check::Waiting => true,
        Check::Prompt(_) => false,
        Check::Go => false,
        Check::Stay => false,
    }
}

/// Whether the request's check waits for an answer.
fn is_waiting(checks: &UnloadCheck, req: ReqId) -> bool
    ensures { result ≡ is_waiting checks.now req }
{
    match checks.outcome(req) {
        Some(check) => is_open(check),
        None => false,
    }
}

/// Adds the request, if it waits.
fn add_waiting(checks: &UnloadCheck, waiting: &mut Reqs, req: ReqId) -> Result<(), OutOfMemory>
    ensures { OnOk result (waiting.new ≡ waiting.old ++ waiting_among checks.now (req ∷ [])) }
{
    if is_waiting(checks, req) {
        waiting.push(req)?;
    }
    Ok(())
}

/// Those of these requests that wait for an answer, in their order.
pub fn waiting_among(
    alloc: Global,
    checks: &UnloadCheck,
    among: &[ReqId],
) -> Result<Reqs, OutOfMemory>
    ensures { IfOk result (λ reqs. reqs ≡ waiting_among checks.now among.now) }
{
    let mut waiting = Reqs::new(alloc);
    for req in among {
        add_waiting(checks, &mut waiting, *req)?;
    }
    Ok(waiting)
}
