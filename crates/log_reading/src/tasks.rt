//! What an order asks of a document.
ghost use Rattle.std.specs.Prelude.{◌≡◌, IfOk};
ghost use Rattle.log_reading.specs.Tables as spec;
ghost use Rattle.log_reading.specs.Gives.{Gives};
ghost use Rattle.log_reading.specs.Readable.{IsTask};
ghost use Rattle.log_reading.specs.Words.{shown};

use crate::fault::Fault;
use crate::fields::{address_of, memo_of};
use crate::naming::{
    either_of, entry_of, epoch_of, leave_cause_of, mode_of, nav_of, req_of, state_of,
};
use crate::number::{plain_of, small_of};
use crate::part::Part;
use log_model::Task;
use std::alloc::Global;

/// NAV STATE, whether it is initial, ADDRESS.
#[tactic(auto, unfolding(crate::specs::Tables::populate_task))]
fn populate_task(alloc: Global, part: Part<'_>) -> Result<Task, Fault>
    ensures read { Gives result (spec.populate_task (shown part.entry)) }
    ensures fits { IfOk result (λ task. IsTask task) }
{
    let nav = nav_of(part.a)?;
    let state = state_of(part.b)?;
    let initial = either_of(b"initial", b"plain", part.c)?;
    let address = address_of(alloc, part.d)?;
    Ok(Task::Populate {
        nav,
        state,
        address,
        initial,
    })
}

/// ENTRY EPOCH LENGTH INDEX MEMO ADDRESS.
#[tactic(auto, unfolding(crate::specs::Tables::activate_task))]
fn activate_task(alloc: Global, part: Part<'_>) -> Result<Task, Fault>
    ensures read { Gives result (spec.activate_task (shown part.entry)) }
    ensures fits { IfOk result (λ task. IsTask task) }
{
    let entry = entry_of(part.a)?;
    let epoch = epoch_of(part.b)?;
    let length = plain_of(part.c)?;
    let index = plain_of(part.d)?;
    let memo = memo_of(alloc, part.e)?;
    let address = address_of(alloc, part.f)?;
    Ok(Task::Activate {
        entry,
        epoch,
        length,
        index,
        memo,
        address,
    })
}

/// LENGTH INDEX.
#[tactic(auto, unfolding(crate::specs::Tables::update_task))]
fn update_task(part: Part<'_>) -> Result<Task, Fault>
    ensures read { Gives result (spec.update_task (shown part.entry)) }
    ensures fits { IfOk result (λ task. IsTask task) }
{
    let length = plain_of(part.a)?;
    let index = plain_of(part.b)?;
    Ok(Task::Update { length, index })
}

/// SLOT CAUSE.
#[tactic(auto, unfolding(crate::specs::Tables::ask_task))]
fn ask_task(part: Part<'_>) -> Result<Task, Fault>
    ensures read { Gives result (spec.ask_task (shown part.entry)) }
    ensures fits { IfOk result (λ task. IsTask task) }
{
    let slot = small_of(part.a)?;
    let cause = leave_cause_of(part.b)?;
    Ok(Task::Ask { slot, cause })
}

/// REQ MODE ADDRESS.
#[tactic(auto, unfolding(crate::specs::Tables::fragment_task))]
fn fragment_task(alloc: Global, part: Part<'_>) -> Result<Task, Fault>
    ensures read { Gives result (spec.fragment_task (shown part.entry)) }
    ensures fits { IfOk result (λ task. IsTask task) }
{
    let req = req_of(part.a)?;
    let mode = mode_of(part.b)?;
    let address = address_of(alloc, part.c)?;
    Ok(Task::DoFragment { req, mode, address })
}

/// What an order asks of a document.
#[tactic(auto, unfolding(crate::specs::Tables::task_of))]
pub fn task_of(alloc: Global, part: Part<'_>) -> Result<Task, Fault>
    ensures read { Gives result (spec.task_of (shown part.entry)) }
    ensures fits { IfOk result (λ task. IsTask task) }
{
    if part.name == b"populate".as_slice() {
        populate_task(alloc, part)
    } else if part.name == b"activate".as_slice() {
        activate_task(alloc, part)
    } else if part.name == b"update".as_slice() {
        update_task(part)
    } else if part.name == b"freeze".as_slice() {
        Ok(Task::Freeze)
    } else if part.name == b"discard".as_slice() {
        Ok(Task::Discard)
    } else if part.name == b"ask".as_slice() {
        ask_task(part)
    } else if part.name == b"fragment".as_slice() {
        fragment_task(alloc, part)
    } else {
        Err(Fault::NoRow)
    }
}
