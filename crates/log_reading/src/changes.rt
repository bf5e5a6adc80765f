//! A change of the history, after its request.
ghost use Rattle.std.specs.Prelude.{◌≡◌, IfOk};
ghost use Rattle.log_reading.specs.Tables as spec;
ghost use Rattle.log_reading.specs.Gives.{Gives};
ghost use Rattle.log_reading.specs.Readable.{IsChange};
ghost use Rattle.log_reading.specs.Words.{shown};

use crate::fault::Fault;
use crate::fields::{address_of, memo_of};
use crate::naming::{entry_of, nav_of, state_of, step_of};
use crate::part::Part;
use log_model::Change;
use std::alloc::Global;

/// NAV ENTRY STATE MEMO ADDRESS.
#[tactic(auto, unfolding(crate::specs::Tables::push_change))]
fn push_change(alloc: Global, part: Part<'_>) -> Result<Change, Fault>
    ensures read { Gives result (spec.push_change (shown part.entry)) }
    ensures fits { IfOk result (λ change. IsChange change) }
{
    let nav = nav_of(part.a)?;
    let entry = entry_of(part.b)?;
    let state = state_of(part.c)?;
    let memo = memo_of(alloc, part.d)?;
    let address = address_of(alloc, part.e)?;
    Ok(Change::Push {
        nav,
        entry,
        state,
        address,
        memo,
    })
}

/// NAV OVER ENTRY STATE MEMO ADDRESS.
#[tactic(auto, unfolding(crate::specs::Tables::replace_change))]
fn replace_change(alloc: Global, part: Part<'_>) -> Result<Change, Fault>
    ensures read { Gives result (spec.replace_change (shown part.entry)) }
    ensures fits { IfOk result (λ change. IsChange change) }
{
    let nav = nav_of(part.a)?;
    let over = entry_of(part.b)?;
    let entry = entry_of(part.c)?;
    let state = state_of(part.d)?;
    let memo = memo_of(alloc, part.e)?;
    let address = address_of(alloc, part.f)?;
    Ok(Change::Replace {
        nav,
        over,
        entry,
        state,
        address,
        memo,
    })
}

/// OWNER NAV ENTRY STATE.
#[tactic(auto, unfolding(crate::specs::Tables::frame_change))]
fn frame_change(part: Part<'_>) -> Result<Change, Fault>
    ensures read { Gives result (spec.frame_change (shown part.entry)) }
    ensures fits { IfOk result (λ change. IsChange change) }
{
    let owner = state_of(part.a)?;
    let nav = nav_of(part.b)?;
    let entry = entry_of(part.c)?;
    let state = state_of(part.d)?;
    Ok(Change::AddFrame {
        owner,
        nav,
        entry,
        state,
    })
}

/// NAV of a removal.
#[tactic(auto, unfolding(crate::specs::Tables::remove_change))]
fn remove_change(part: Part<'_>) -> Result<Change, Fault>
    ensures read { Gives result (spec.remove_change (shown part.entry)) }
    ensures fits { IfOk result (λ change. IsChange change) }
{
    let nav = nav_of(part.a)?;
    Ok(Change::RemoveFrame { nav })
}

/// GOAL.
#[tactic(auto, unfolding(crate::specs::Tables::traverse_change))]
fn traverse_change(part: Part<'_>) -> Result<Change, Fault>
    ensures read { Gives result (spec.traverse_change (shown part.entry)) }
    ensures fits { IfOk result (λ change. IsChange change) }
{
    let goal = step_of(part.a)?;
    Ok(Change::Traverse { goal })
}

/// NAV of a reload.
#[tactic(auto, unfolding(crate::specs::Tables::reload_change))]
fn reload_change(part: Part<'_>) -> Result<Change, Fault>
    ensures read { Gives result (spec.reload_change (shown part.entry)) }
    ensures fits { IfOk result (λ change. IsChange change) }
{
    let nav = nav_of(part.a)?;
    Ok(Change::Reload { nav })
}

/// A change of the history.
#[tactic(auto, unfolding(crate::specs::Tables::change_of))]
pub fn change_of(alloc: Global, part: Part<'_>) -> Result<Change, Fault>
    ensures read { Gives result (spec.change_of (shown part.entry)) }
    ensures fits { IfOk result (λ change. IsChange change) }
{
    if part.name == b"push".as_slice() {
        push_change(alloc, part)
    } else if part.name == b"replace".as_slice() {
        replace_change(alloc, part)
    } else if part.name == b"frame".as_slice() {
        frame_change(part)
    } else if part.name == b"remove".as_slice() {
        remove_change(part)
    } else if part.name == b"traverse".as_slice() {
        traverse_change(part)
    } else if part.name == b"reload".as_slice() {
        reload_change(part)
    } else if part.name == b"edit".as_slice() {
        Ok(Change::Edit)
    } else {
        Err(Fault::NoRow)
    }
}
