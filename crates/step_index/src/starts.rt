//! Where each document state starts: the least step of the rows that have it.
ghost use Rattle.std.specs.Prelude.{◌≡◌, ◌<◌, ◌≤◌, ◌==◌, if◌then◌else◌, [], ◌∷◌, IsSome, IsOk, OnOk, OnErr};
ghost use Rattle.indexmap.specs.IndexMap.{spare};
ghost use Rattle.step_index.specs.Starts.{start_of, is_by, is_start, StartsOne, StartsAnew, StartsLess};
ghost use Rattle.tab_ids.specs.declared.StateId.{StateId};

use address::OutOfMemory;
use indexmap::IndexMap;
use log_model::Row;
use tab_ids::{StateId, Step};

/// The least step of a row with the document state; None where no row has it.
pub fn start_of(starts: &IndexMap<StateId, Step>, state: StateId) -> Option<Step>
    ensures { result ≡ start_of state starts.now.entries }
{
    starts.get(&state).copied()
}

/// Whether the document state starts at the step or before.
pub fn starts_by(starts: &IndexMap<StateId, Step>, state: StateId, step: Step) -> bool
    ensures { result ≡ is_by (start_of state starts.now.entries) step.0 }
{
    match start_of(starts, state) {
        Some(start) => start <= step,
        None => false,
    }
}

/// Takes in that a row at a step has the document state; without memory all is as it was.
pub fn take_start(
    starts: &mut IndexMap<StateId, Step>,
    state: StateId,
    step: Step,
) -> Result<(), OutOfMemory>
    ensures ok { OnOk result (StartsOne starts.old.entries state step starts.new.entries) }
    ensures err { OnErr result (starts.new.entries ≡ starts.old.entries) }
    ensures succeeds { 0 < spare starts.old → IsOk result }
{
    if starts_by(starts, state, step) {
        return Ok(());
    }
    starts.insert(state, step)?;
    Ok(())
}

/// The same, where there is room for it.
pub fn start_in_room(starts: &mut IndexMap<StateId, Step>, state: StateId, step: Step)
    requires room { 0 < spare starts.old }
    ensures { StartsOne starts.old.entries state step starts.new.entries }
{
    match take_start(starts, state, step) {
        Ok(()) => {}
        Err(_) => unreachable!(),
    }
}

/// Takes out the document state of a row that goes, if it starts with it.
pub fn end_start(starts: &mut IndexMap<StateId, Step>, row: &Row)
    ensures less { StartsLess starts.old.entries (row.now ∷ []) starts.new.entries }
    ensures room { spare starts.old ≤ spare starts.new }
{
    if starts_at(starts, row.state, row.step) {
        starts.swap_remove(&row.state);
    }
}

/// Where the document state starts at the step, makes it start later, or takes it out.
pub fn start_anew(
    starts: &mut IndexMap<StateId, Step>,
    state: StateId,
    step: Step,
    later: Option<Step>,
)
    ensures { StartsAnew starts.old.entries state step later starts.new.entries }
{
    if starts_at(starts, state, step) {
        put_start(starts, state, later);
    }
}

// Makes a document state that is there start at another step, or takes it out.
fn put_start(starts: &mut IndexMap<StateId, Step>, state: StateId, start: Option<Step>)
    requires there { IsSome (start_of state starts.old.entries) }
    ensures { (other : StateId) → start_of other starts.new.entries ≡ (if other.0 == state.0 then start else start_of other starts.old.entries) }
{
    match start {
        Some(start) => match starts.insert(state, start) {
            Ok(_) => {}
            Err(_) => unreachable!(),
        },
        None => {
            starts.swap_remove(&state);
        }
    }
}

/// Whether the document state starts at the step.
pub fn starts_at(starts: &IndexMap<StateId, Step>, state: StateId, step: Step) -> bool
    ensures { result ≡ is_start (start_of state starts.now.entries) step.0 }
{
    match start_of(starts, state) {
        Some(start) => start == step,
        None => false,
    }
}
