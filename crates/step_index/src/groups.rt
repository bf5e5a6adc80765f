//! How many rows stand at each step, and how many hang on each document state.
ghost use Rattle.std.specs.Prelude.{◌≡◌, ◌<◌, ◌≤◌, ◌+◌, ◌-◌, if◌then◌else◌, false, nat_lt, [], ◌∷◌, OnOk};
ghost use Rattle.indexmap.specs.IndexMap.{spare};
ghost use Rattle.step_index.specs.Groups.{same_group, count_of, CountsRow, CountsLess, AreBelow};
ghost use Rattle.step_index.specs.declared.groups.Group.{Group};

use address::OutOfMemory;
use indexmap::IndexMap;
use log_model::Row;
use tab_ids::{StateId, Step};

/// What rows are counted by.
#[derive(Clone, Copy, PartialEq, Eq, Hash)]
pub enum Group {
    /// The rows at a step.
    At(Step),
    /// The rows that hang on a document state.
    On(StateId),
}

// How many rows are of the group.
fn count_of(counts: &IndexMap<Group, usize>, group: Group) -> usize
    ensures { result ≡ count_of group counts.now.entries }
{
    match counts.get(&group) {
        Some(count) => *count,
        None => 0,
    }
}

/// Whether a row is of the group.
pub fn has_any(counts: &IndexMap<Group, usize>, group: Group) -> bool
    ensures { result ≡ nat_lt 0 (count_of group counts.now.entries) }
{
    count_of(counts, group) > 0
}

/// Makes room to count one row more.
pub fn reserve_counts(
    counts: &mut IndexMap<Group, usize>,
    step: Step,
    owner: Option<StateId>,
) -> Result<(), OutOfMemory>
    ensures counts { counts.new.entries ≡ counts.old.entries }
    ensures room { OnOk result (2 ≤ spare counts.new) }
    ensures below { OnOk result (AreBelow counts.new.entries step owner) }
{
    counts.reserve(2)?;
    if is_full(counts, step, owner) {
        return Err(OutOfMemory);
    }
    Ok(())
}

// Whether one of the row's groups has as many rows as can be counted.
fn is_full(counts: &IndexMap<Group, usize>, step: Step, owner: Option<StateId>) -> bool
    ensures { result ≡ false → AreBelow counts.now.entries step owner }
{
    if count_of(counts, Group::At(step)) == usize::MAX {
        return true;
    }
    match owner {
        Some(owner) => count_of(counts, Group::On(owner)) == usize::MAX,
        None => false,
    }
}

/// Counts one row more, where there is room for it.
pub fn count_row(counts: &mut IndexMap<Group, usize>, step: Step, owner: Option<StateId>)
    requires room { 2 ≤ spare counts.old }
    requires below { AreBelow counts.old.entries step owner }
    ensures { CountsRow counts.old.entries step owner counts.new.entries }
{
    add_one(counts, Group::At(step));
    match owner {
        Some(owner) => add_one(counts, Group::On(owner)),
        None => {}
    }
}

// One row more of the group.
fn add_one(counts: &mut IndexMap<Group, usize>, group: Group)
    requires room { 0 < spare counts.old }
    requires below { count_of group counts.old.entries < 18446744073709551615 }
    ensures count { (other : Group) → count_of other counts.new.entries ≡ count_of other counts.old.entries + (if same_group group other then 1 else 0) }
    ensures room { spare counts.old ≤ spare counts.new + 1 }
{
    let count = count_of(counts, group) + 1;
    match counts.insert(group, count) {
        Ok(_) => {}
        Err(_) => unreachable!(),
    }
}

/// Counts a row; without memory all is as it was.
pub fn take_row(
    counts: &mut IndexMap<Group, usize>,
    step: Step,
    owner: Option<StateId>,
) -> Result<(), OutOfMemory>
    ensures { OnOk result (CountsRow counts.old.entries step owner counts.new.entries) }
{
    reserve_counts(counts, step, owner)?;
    count_row(counts, step, owner);
    Ok(())
}

/// Counts a row no more.
pub fn uncount_row(counts: &mut IndexMap<Group, usize>, row: &Row)
    ensures { CountsLess counts.old.entries (row.now ∷ []) counts.new.entries }
{
    take_one(counts, Group::At(row.step));
    match row.owner {
        Some(owner) => take_one(counts, Group::On(owner)),
        None => {}
    }
}

// One row less of the group.
fn take_one(counts: &mut IndexMap<Group, usize>, group: Group)
    ensures { (other : Group) → count_of other counts.new.entries ≡ count_of other counts.old.entries - (if same_group group other then 1 else 0) }
{
    let count = count_of(counts, group);
    if count > 1 {
        lower_count(counts, group, count - 1);
    } else {
        counts.swap_remove(&group);
    }
}

// Makes the count of a group that has some another one.
fn lower_count(counts: &mut IndexMap<Group, usize>, group: Group, count: usize)
    requires some { 0 < count_of group counts.old.entries }
    ensures { (other : Group) → count_of other counts.new.entries ≡ (if same_group group other then count else count_of other counts.old.entries) }
{
    match counts.insert(group, count) {
        Ok(_) => {}
        Err(_) => unreachable!(),
    }
}
