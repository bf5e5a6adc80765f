//! The greatest used step, and the history object's length and index.
ghost use Rattle.std.specs.Prelude.{◌≡◌, ◌<◌, filter, length, nat_lt};
ghost use Rattle.log_model.specs.History.{greatest_step, history_length, history_index};
ghost use Rattle.entry_store.specs.Kept.{history_in, IsKept};

use crate::nested::Nested;
use crate::readers::used_step_in;
use std::collections::BTreeSet;
use tab_ids::Step;

/// The greatest used step.
pub fn greatest_step_in(lists: &Nested) -> Step
    requires kept { IsKept (history_in lists.now) lists.now.used.keys }
    ensures { result.0 ≡ greatest_step (history_in lists.now).rows }
{
    match lists.used.last() {
        Some(last) => Step(*last),
        None => Step(0),
    }
}

/// The history object's length, and its index at a step.
pub fn length_index_in(lists: &Nested, s: Step) -> (u32, u32)
    requires kept { IsKept (history_in lists.now) lists.now.used.keys }
    ensures length { result.0 ≡ history_length (history_in lists.now).rows }
    ensures index { result.1 ≡ history_index (history_in lists.now).rows s.0 }
{
    (as_count(lists.used.len()), index_in(lists, s))
}

// The index at a step. From the greatest used step on, all others stand before it; elsewhere they are counted.
fn index_in(lists: &Nested, s: Step) -> u32
    requires kept { IsKept (history_in lists.now) lists.now.used.keys }
    ensures { result ≡ history_index (history_in lists.now).rows s.0 }
{
    if greatest_step_in(lists) <= s {
        as_count(lists.used.len() - 1)
    } else {
        let at = used_step_in(&lists.nests, s);
        as_count(count_before(&lists.used, at.0))
    }
}

// A number of steps.
fn as_count(n: usize) -> u32
    requires { n < 4294967296 }
    ensures { result ≡ n }
{
    n as u32
}

// How many used steps stand before one.
fn count_before(used: &BTreeSet<u32>, at: u32) -> usize
    ensures { result ≡ length (filter (λ step. nat_lt step at) used.now.keys) }
{
    used.iter().filter(|step| **step < at).count()
}
