//! An accepted request, in the words of a scenario's line.
ghost use Rattle.std.specs.Prelude.{◌≡◌, IfOk};
ghost use Rattle.log_reading.specs.Tables as spec;
ghost use Rattle.log_reading.specs.Gives.{Gives};
ghost use Rattle.log_reading.specs.Readable.{IsMemo, IsReference, IsRequest, IsU32};
ghost use Rattle.log_reading.specs.Words.{shown};

use crate::fault::Fault;
use crate::fields::{address_of, memo_of, reference_of, text_of};
use crate::naming::{mode_of, plain_nav_of};
use crate::number::delta_of;
use crate::part::Part;
use address::Text;
use log_model::{Action, Request};
use std::alloc::Global;
use tab_ids::NavId;

fn poke(nav: NavId, action: Action) -> Request
    ensures { result ≡ Request.Poke nav action }
{
    Request::Poke { nav, action }
}

/// NAV MEMO, or NAV MEMO REF.
#[tactic(auto, unfolding(crate::specs::Tables::entry_fields))]
fn entry_fields(alloc: Global, part: Part<'_>) -> Result<(NavId, Option<Text>, Option<Text>), Fault>
    ensures read { Gives result (spec.entry_fields (shown part.entry)) }
    ensures fits { IfOk result (λ entry. IsU32 entry.0.0 × IsMemo entry.1 × IsReference entry.2) }
{
    let nav = plain_nav_of(part.a)?;
    let memo = memo_of(alloc, part.b)?;
    let reference = reference_of(alloc, part.c)?;
    Ok((nav, memo, reference))
}

/// NAV CHILD.
#[tactic(auto, unfolding(crate::specs::Tables::nav_and_child))]
fn nav_and_child(part: Part<'_>) -> Result<(NavId, NavId), Fault>
    ensures read { Gives result (spec.nav_and_child (shown part.entry)) }
    ensures fits { IfOk result (λ both. IsU32 both.0.0 × IsU32 both.1.0) }
{
    let nav = plain_nav_of(part.a)?;
    let child = plain_nav_of(part.b)?;
    Ok((nav, child))
}

/// NAV MODE ADDRESS.
#[tactic(auto, unfolding(crate::specs::Tables::load_of))]
fn load_of(alloc: Global, part: Part<'_>) -> Result<Request, Fault>
    ensures read { Gives result (spec.load_of (shown part.entry)) }
    ensures fits { IfOk result (λ request. IsRequest request) }
{
    let nav = plain_nav_of(part.a)?;
    let mode = mode_of(part.b)?;
    let address = address_of(alloc, part.c)?;
    Ok(Request::Load { nav, mode, address })
}

/// DELTA.
#[tactic(auto, unfolding(crate::specs::Tables::go_of))]
fn go_of(part: Part<'_>) -> Result<Request, Fault>
    ensures read { Gives result (spec.go_of (shown part.entry)) }
    ensures fits { IfOk result (λ request. IsRequest request) }
{
    let delta = delta_of(part.a)?;
    Ok(Request::Go { delta })
}

/// NAV of a reload.
#[tactic(auto, unfolding(crate::specs::Tables::reload_of))]
fn reload_of(part: Part<'_>) -> Result<Request, Fault>
    ensures read { Gives result (spec.reload_of (shown part.entry)) }
    ensures fits { IfOk result (λ request. IsRequest request) }
{
    let nav = plain_nav_of(part.a)?;
    Ok(Request::Reload { nav })
}

/// NAV MEMO [REF] of a push.
#[tactic(auto, unfolding(crate::specs::Tables::push_of))]
fn push_of(alloc: Global, part: Part<'_>) -> Result<Request, Fault>
    ensures read { Gives result (spec.push_of (shown part.entry)) }
    ensures fits { IfOk result (λ request. IsRequest request) }
{
    let (nav, memo, reference) = entry_fields(alloc, part)?;
    Ok(poke(nav, Action::Push { memo, reference }))
}

/// NAV MEMO [REF] of a replace.
#[tactic(auto, unfolding(crate::specs::Tables::replace_of))]
fn replace_of(alloc: Global, part: Part<'_>) -> Result<Request, Fault>
    ensures read { Gives result (spec.replace_of (shown part.entry)) }
    ensures fits { IfOk result (λ request. IsRequest request) }
{
    let (nav, memo, reference) = entry_fields(alloc, part)?;
    Ok(poke(nav, Action::Replace { memo, reference }))
}

/// NAV TEXT.
#[tactic(auto, unfolding(crate::specs::Tables::fragment_of))]
fn fragment_of(alloc: Global, part: Part<'_>) -> Result<Request, Fault>
    ensures read { Gives result (spec.fragment_of (shown part.entry)) }
    ensures fits { IfOk result (λ request. IsRequest request) }
{
    let nav = plain_nav_of(part.a)?;
    let text = text_of(alloc, part.b)?;
    Ok(poke(nav, Action::Fragment { text }))
}

/// NAV CHILD of a new frame.
#[tactic(auto, unfolding(crate::specs::Tables::frame_of))]
fn frame_of(part: Part<'_>) -> Result<Request, Fault>
    ensures read { Gives result (spec.frame_of (shown part.entry)) }
    ensures fits { IfOk result (λ request. IsRequest request) }
{
    let (nav, child) = nav_and_child(part)?;
    Ok(poke(nav, Action::AddFrame { nav: child }))
}

/// NAV CHILD of a removal.
#[tactic(auto, unfolding(crate::specs::Tables::remove_of))]
fn remove_of(part: Part<'_>) -> Result<Request, Fault>
    ensures read { Gives result (spec.remove_of (shown part.entry)) }
    ensures fits { IfOk result (λ request. IsRequest request) }
{
    let (nav, child) = nav_and_child(part)?;
    Ok(poke(nav, Action::RemoveFrame { nav: child }))
}

/// NAV DELTA.
#[tactic(auto, unfolding(crate::specs::Tables::docgo_of))]
fn docgo_of(part: Part<'_>) -> Result<Request, Fault>
    ensures read { Gives result (spec.docgo_of (shown part.entry)) }
    ensures fits { IfOk result (λ request. IsRequest request) }
{
    let nav = plain_nav_of(part.a)?;
    let delta = delta_of(part.b)?;
    Ok(poke(nav, Action::Go { delta }))
}

/// NAV of an edit.
#[tactic(auto, unfolding(crate::specs::Tables::edit_of))]
fn edit_of(part: Part<'_>) -> Result<Request, Fault>
    ensures read { Gives result (spec.edit_of (shown part.entry)) }
    ensures fits { IfOk result (λ request. IsRequest request) }
{
    let nav = plain_nav_of(part.a)?;
    Ok(poke(nav, Action::Edit))
}

/// A request, as the line of a scenario that asks for it.
#[tactic(auto, unfolding(crate::specs::Tables::request_of))]
pub fn request_of(alloc: Global, part: Part<'_>) -> Result<Request, Fault>
    ensures read { Gives result (spec.request_of (shown part.entry)) }
    ensures fits { IfOk result (λ request. IsRequest request) }
{
    if part.name == b"load".as_slice() {
        load_of(alloc, part)
    } else if part.name == b"go".as_slice() {
        go_of(part)
    } else if part.name == b"reload".as_slice() {
        reload_of(part)
    } else if part.name == b"push".as_slice() {
        push_of(alloc, part)
    } else if part.name == b"replace".as_slice() {
        replace_of(alloc, part)
    } else if part.name == b"fragment".as_slice() {
        fragment_of(alloc, part)
    } else if part.name == b"frame".as_slice() {
        frame_of(part)
    } else if part.name == b"remove".as_slice() {
        remove_of(part)
    } else if part.name == b"docgo".as_slice() {
        docgo_of(part)
    } else if part.name == b"edit".as_slice() {
        edit_of(part)
    } else {
        Err(Fault::NoRow)
    }
}
