//! What a document made of an action.
ghost use Rattle.std.specs.Prelude.{◌≡◌, IfOk};
ghost use Rattle.log_reading.specs.Tables as spec;
ghost use Rattle.log_reading.specs.Gives.{Gives};
ghost use Rattle.log_reading.specs.Readable.{IsThing};
ghost use Rattle.log_reading.specs.Words.{shown};

use crate::fault::Fault;
use crate::fields::{address_of, memo_of};
use crate::naming::{entry_of, nav_of};
use crate::number::delta_of;
use crate::part::Part;
use log_model::What;
use std::alloc::Global;

/// ENTRY MEMO ADDRESS.
#[tactic(auto, unfolding(crate::specs::Tables::push_thing))]
fn push_thing(alloc: Global, part: Part<'_>) -> Result<What, Fault>
    ensures read { Gives result (spec.push_thing (shown part.entry)) }
    ensures fits { IfOk result (λ what. IsThing what) }
{
    let entry = entry_of(part.a)?;
    let memo = memo_of(alloc, part.b)?;
    let address = address_of(alloc, part.c)?;
    Ok(What::Push {
        entry,
        memo,
        address,
    })
}

/// OVER ENTRY MEMO ADDRESS.
#[tactic(auto, unfolding(crate::specs::Tables::replace_thing))]
fn replace_thing(alloc: Global, part: Part<'_>) -> Result<What, Fault>
    ensures read { Gives result (spec.replace_thing (shown part.entry)) }
    ensures fits { IfOk result (λ what. IsThing what) }
{
    let over = entry_of(part.a)?;
    let entry = entry_of(part.b)?;
    let memo = memo_of(alloc, part.c)?;
    let address = address_of(alloc, part.d)?;
    Ok(What::Replace {
        over,
        entry,
        memo,
        address,
    })
}

/// NAV of a new frame.
#[tactic(auto, unfolding(crate::specs::Tables::frame_thing))]
fn frame_thing(part: Part<'_>) -> Result<What, Fault>
    ensures read { Gives result (spec.frame_thing (shown part.entry)) }
    ensures fits { IfOk result (λ what. IsThing what) }
{
    let nav = nav_of(part.a)?;
    Ok(What::AddFrame { nav })
}

/// NAV of a removal.
#[tactic(auto, unfolding(crate::specs::Tables::remove_thing))]
fn remove_thing(part: Part<'_>) -> Result<What, Fault>
    ensures read { Gives result (spec.remove_thing (shown part.entry)) }
    ensures fits { IfOk result (λ what. IsThing what) }
{
    let nav = nav_of(part.a)?;
    Ok(What::RemoveFrame { nav })
}

/// DELTA.
#[tactic(auto, unfolding(crate::specs::Tables::go_thing))]
fn go_thing(part: Part<'_>) -> Result<What, Fault>
    ensures read { Gives result (spec.go_thing (shown part.entry)) }
    ensures fits { IfOk result (λ what. IsThing what) }
{
    let delta = delta_of(part.a)?;
    Ok(What::Go { delta })
}

/// What a document made of an action.
#[tactic(auto, unfolding(crate::specs::Tables::thing_of))]
pub fn thing_of(alloc: Global, part: Part<'_>) -> Result<What, Fault>
    ensures read { Gives result (spec.thing_of (shown part.entry)) }
    ensures fits { IfOk result (λ what. IsThing what) }
{
    if part.name == b"push".as_slice() {
        push_thing(alloc, part)
    } else if part.name == b"replace".as_slice() {
        replace_thing(alloc, part)
    } else if part.name == b"frame".as_slice() {
        frame_thing(part)
    } else if part.name == b"remove".as_slice() {
        remove_thing(part)
    } else if part.name == b"go".as_slice() {
        go_thing(part)
    } else if part.name == b"edit".as_slice() {
        Ok(What::Edit)
    } else {
        Err(Fault::NoRow)
    }
}
