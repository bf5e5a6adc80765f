//! Rows of few words.
ghost use Rattle.std.specs.Prelude.{◌≡◌, IfOk};
ghost use Rattle.log_reading.specs.Rows as spec;
ghost use Rattle.log_reading.specs.Gives.{Gives};
ghost use Rattle.log_reading.specs.Readable.{IsKind, IsTaken};
ghost use Rattle.log_reading.specs.Words.{shown};

use crate::fault::Fault;
use crate::fields::{address_of, goal_of, slot_of};
use crate::naming::{
    death_of, denial_of, doc_of, either_of, entry_of, job_of, proc_of, req_of, state_of,
};
use crate::part::Part;
use log_model::RowKind;
use std::alloc::Global;

/// Whether the order was taken up by a live process, and whether its document was dirty.
#[tactic(auto, unfolding(crate::specs::Rows::taken_of))]
fn taken_of(part: Part<'_>) -> Result<(bool, bool), Fault>
    ensures read { Gives result (spec.taken_of (shown part.entry)) }
    ensures fits { IfOk result (λ taken. IsTaken taken.0 taken.1) }
{
    if part.b == b"void".as_slice() {
        return Ok((false, false));
    }
    let dirty = either_of(b"dirty", b"clean", part.c)?;
    Ok((true, dirty))
}

/// `n0` ENTRY STATE DOC PROC SLOT ADDRESS.
#[tactic(auto, unfolding(crate::specs::Rows::opened_row))]
fn opened_row(alloc: Global, part: Part<'_>) -> Result<RowKind, Fault>
    ensures read { Gives result (spec.opened_row (shown part.entry)) }
    ensures fits { IfOk result (λ row. IsKind row) }
{
    let entry = entry_of(part.a)?;
    let state = state_of(part.b)?;
    let doc = doc_of(part.c)?;
    let proc = proc_of(part.d)?;
    let slot = slot_of(part.e)?;
    let address = address_of(alloc, part.f)?;
    Ok(RowKind::Opened {
        entry,
        state,
        doc,
        proc,
        slot,
        address,
    })
}

/// REQ, or REQ GOAL.
#[tactic(auto, unfolding(crate::specs::Rows::started_row))]
fn started_row(part: Part<'_>) -> Result<RowKind, Fault>
    ensures read { Gives result (spec.started_row (shown part.entry)) }
    ensures fits { IfOk result (λ row. IsKind row) }
{
    let req = req_of(part.name)?;
    let goal = goal_of(part.a)?;
    Ok(RowKind::Started { req, goal })
}

/// REQ REASON.
#[tactic(auto, unfolding(crate::specs::Rows::refused_row))]
fn refused_row(part: Part<'_>) -> Result<RowKind, Fault>
    ensures read { Gives result (spec.refused_row (shown part.entry)) }
    ensures fits { IfOk result (λ row. IsKind row) }
{
    let req = req_of(part.name)?;
    let reason = denial_of(part.a)?;
    Ok(RowKind::Refused { req, reason })
}

/// REQ DOC.
#[tactic(auto, unfolding(crate::specs::Rows::prompted_row))]
fn prompted_row(part: Part<'_>) -> Result<RowKind, Fault>
    ensures read { Gives result (spec.prompted_row (shown part.entry)) }
    ensures fits { IfOk result (λ row. IsKind row) }
{
    let req = req_of(part.name)?;
    let doc = doc_of(part.a)?;
    Ok(RowKind::Prompted { req, doc })
}

/// REQ, and whether the user stays.
#[tactic(auto, unfolding(crate::specs::Rows::answered_row))]
fn answered_row(part: Part<'_>) -> Result<RowKind, Fault>
    ensures read { Gives result (spec.answered_row (shown part.entry)) }
    ensures fits { IfOk result (λ row. IsKind row) }
{
    let req = req_of(part.name)?;
    let stay = either_of(b"stay", b"leave", part.a)?;
    Ok(RowKind::Answered { req, stay })
}

/// PROC JOB, and how it was taken up.
#[tactic(auto, unfolding(crate::specs::Rows::taken_row))]
fn taken_row(part: Part<'_>) -> Result<RowKind, Fault>
    ensures read { Gives result (spec.taken_row (shown part.entry)) }
    ensures fits { IfOk result (λ row. IsKind row) }
{
    let proc = proc_of(part.name)?;
    let job = job_of(part.a)?;
    let (live, dirty) = taken_of(part)?;
    Ok(RowKind::Taken {
        proc,
        job,
        live,
        dirty,
    })
}

/// PROC.
#[tactic(auto, unfolding(crate::specs::Rows::delivered_row))]
fn delivered_row(part: Part<'_>) -> Result<RowKind, Fault>
    ensures read { Gives result (spec.delivered_row (shown part.entry)) }
    ensures fits { IfOk result (λ row. IsKind row) }
{
    let proc = proc_of(part.name)?;
    Ok(RowKind::Delivered { proc })
}

/// PROC DEATH.
#[tactic(auto, unfolding(crate::specs::Rows::killed_row))]
fn killed_row(part: Part<'_>) -> Result<RowKind, Fault>
    ensures read { Gives result (spec.killed_row (shown part.entry)) }
    ensures fits { IfOk result (λ row. IsKind row) }
{
    let proc = proc_of(part.name)?;
    let death = death_of(part.a)?;
    Ok(RowKind::Killed { proc, death })
}

/// STATE.
#[tactic(auto, unfolding(crate::specs::Rows::evicted_row))]
fn evicted_row(part: Part<'_>) -> Result<RowKind, Fault>
    ensures read { Gives result (spec.evicted_row (shown part.entry)) }
    ensures fits { IfOk result (λ row. IsKind row) }
{
    let state = state_of(part.name)?;
    Ok(RowKind::Evicted { state })
}

/// A row of few words, where its kind is one of those.
#[tactic(auto, unfolding(crate::specs::Rows::short_kind_of))]
pub fn short_kind_of(alloc: Global, kind: &[u8], part: Part<'_>) -> Result<RowKind, Fault>
    ensures read { Gives result (spec.short_kind_of kind.now (shown part.entry)) }
    ensures fits { IfOk result (λ row. IsKind row) }
{
    if kind == b"opened".as_slice() {
        opened_row(alloc, part)
    } else if kind == b"started".as_slice() {
        started_row(part)
    } else if kind == b"refused".as_slice() {
        refused_row(part)
    } else if kind == b"prompted".as_slice() {
        prompted_row(part)
    } else if kind == b"answered".as_slice() {
        answered_row(part)
    } else if kind == b"taken".as_slice() {
        taken_row(part)
    } else if kind == b"delivered".as_slice() {
        delivered_row(part)
    } else if kind == b"killed".as_slice() {
        killed_row(part)
    } else if kind == b"evicted".as_slice() {
        evicted_row(part)
    } else {
        Err(Fault::NoRow)
    }
}
