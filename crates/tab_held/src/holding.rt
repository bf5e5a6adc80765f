//! One pass while a traversal in its unload check holds the queue: documents that it discards may have been asked for that traversal.
ghost use Rattle.std.specs.Prelude.{◌≡◌, ◌⊎◌, [], None, IfOk, false, true};
ghost use Rattle.seen_laws.specs.InEvent.{now_of};
ghost use Rattle.tab_facts.specs.Calm.Calm.{IsCalmYet};
ghost use Rattle.tab_held.specs.Holding.{GoesOnAfter, HasRestedHeld, HoldsQueue, InCut, IsToldOfEnded, RestsNoted, WaitsAlone, goes_on, held_cut, is_over};
ghost use Rattle.tab_prompts.specs.Asking.{BeginsAsked};
ghost use Rattle.tab_settles.specs.Held.{EndsRun, InHeld, IsClearedNoted, NoneStray};
ghost use Rattle.tab_settles.specs.Settling.{IsReadyIn};
ghost use Rattle.unload_check.specs.Checks.{after_all_deaths};

use crate::rows::put_all;
use address::OutOfMemory;
use indexmap::IndexMap;
use log_model::{Docs, Header, Out};
use std::alloc::Global;
use tab_asks::tell_ended;
use tab_doors::Tables;
use tab_ids::{ReqId, StateId};
use tab_prompts::{prompt_settled, waiting_among};
use tab_settles::{Reasons, clear_held, rest_held};
use unload_check::{Check, UnloadCheck};

/// Whether a check has come to an end that asks the user nothing.
fn is_over(check: Check) -> bool
    ensures { result ≡ is_over check }
{
    match check {
        Check::Waiting => false,
        Check::Prompt(_) => false,
        Check::Go => true,
        Check::Stay => true,
    }
}

/// Whether the request's check is settled and no document wants a prompt, once these documents are gone.
fn goes_on(alloc: Global, checks: &UnloadCheck, req: ReqId, run: &Docs) -> Result<bool, OutOfMemory>
    ensures { IfOk result (λ goes. goes ≡ goes_on (after_all_deaths run.now checks.now) req) }
{
    match checks.outcome_after(alloc, req, run)? {
        Some(check) => Ok(is_over(check)),
        None => Ok(false),
    }
}

/// The table of checks is told of what the first part of a pass discarded, but of the run that lasts. Where that run settles the last question of the traversal and no document wants a prompt, nothing more is done; else the table is told of the run, too, the user is asked, where that settled the question and a document wants a prompt, and the second part of the pass follows. Answers whether the traversal goes on.
fn tell_and_rest(
    alloc: Global,
    header: &Header,
    tables: &mut Tables,
    run: &mut Docs,
    out: &mut Out,
    reasons: &Reasons,
    req: ReqId,
) -> Result<bool, OutOfMemory>
    ghost c: { InCut }
    requires header { header.now ≡ c.held.pass.event.header }
    requires run { run.old ≡ c.held.pass.event.ran }
    requires cut { c.at ≡ held_cut c.held.pass.event out.old tables.old.checks req }
    requires cleared { IsClearedNoted true c.held.pass out.old tables.old c.held.queue reasons.now.cause }
    requires ends { EndsRun out.old ⊎ NoneStray (now_of c.held.pass.event out.old) }
    requires begins { BeginsAsked c.held.pass.event tables.old.checks }
    requires alone { WaitsAlone c.held.pass.event tables.old.checks req }
    requires holds { HoldsQueue c.held.pass.event c.held.queue req }
    ensures rests { IfOk result (λ goes. goes ≡ false → RestsNoted c req out.old tables.old out.new tables.new reasons.now.cause) }
    ensures none { IfOk result (λ goes. goes ≡ false → run.new ≡ []) }
    ensures stays { IfOk result (λ goes. goes ≡ true → out.new ≡ out.old) }
    ensures told { IfOk result (λ goes. goes ≡ true → IsToldOfEnded c.held.pass.event out.old tables.old tables.new run.new) }
    ensures over { IfOk result (λ goes. goes ≡ true → goes_on (after_all_deaths run.new tables.new.checks) req ≡ true) }
{
    let waited = waiting_among(alloc, &tables.checks, &[req])?;
    tell_ended(alloc, &mut tables.checks, run, out)?;
    let goes = goes_on(alloc, &tables.checks, req, run)?;
    if goes {
        return Ok(true);
    }
    tables.checks.died(run);
    *run = Docs::new(alloc);
    prompt_settled(&tables.checks, out, waited.as_slice())?;
    let mut more = Out::new(alloc);
    rest_held(alloc, header, tables, &mut more, reasons)?;
    put_all(out, &more)?;
    Ok(false)
}

/// Brings the tab to rest while a traversal in its unload check (`req`) holds the queue: stray documents are discarded and loads of navigables without an entry dropped; the table of checks is told, and the user is asked where that settled the last question of the traversal and a document wants a prompt; each navigable that needs it is shown its target, or has its document made, and who is awake is told length and index. Where the traversal's last question was settled and no document wants a prompt, all that stays undone from there, and the table isn't told of the run of discarded documents that lasts then: answers whether the traversal goes on. `run` is that run, before and after. HTML Standard, "apply the history step" and "checking if unloading is canceled".
pub fn rest_while_held(
    alloc: Global,
    header: &Header,
    tables: &mut Tables,
    blame: &mut IndexMap<StateId, ReqId>,
    run: &mut Docs,
    out: &mut Out,
    reasons: &Reasons,
    req: ReqId,
) -> Result<bool, OutOfMemory>
    ghost h: { InHeld }
    requires header { header.now ≡ h.pass.event.header }
    requires run { run.old ≡ h.pass.event.ran }
    requires idle { tables.old.running ≡ None }
    requires ready { IsReadyIn true h.pass out.old tables.old h.queue blame.old.entries reasons.now.cause }
    requires calm { IsCalmYet (now_of h.pass.event out.old) }
    requires begins { BeginsAsked h.pass.event tables.old.checks }
    requires alone { WaitsAlone h.pass.event tables.old.checks req }
    requires holds { HoldsQueue h.pass.event h.queue req }
    ensures rests { IfOk result (λ goes. goes ≡ false → HasRestedHeld h.pass out.old out.new tables.old tables.new h.queue blame.new.entries reasons.now.cause req) }
    ensures none { IfOk result (λ goes. goes ≡ false → run.new ≡ []) }
    ensures goes { IfOk result (λ goes. goes ≡ true → GoesOnAfter h.pass out.old out.new tables.old tables.new run.new h.queue blame.new.entries reasons.now.cause req) }
{
    clear_held(alloc, tables, blame, out, reasons)?;
    let goes = tell_and_rest(alloc, header, tables, run, out, reasons, req)?;
    Ok(goes)
}
