//! What a look-up that is counted costs at most.
ghost use Rattle.std.specs.Prelude.{◌≡◌, ◌≤◌, ◌+◌, length, filter};
ghost use Rattle.log_model.specs.History.{is_of};
ghost use Rattle.step_index.specs.Held.{history_held};

use std::marker::Brand;
use std::sync::ledger::{Blank, Ledger};
use step_index::{StepIndex, Steps};
use tab_ids::{EntryId, NavId, Step};

/// Whether the top has a target entry at step 5.
pub fn found_in_seven(store: &StepIndex) -> bool {
    counted::<Brand>(store, Blank::new(1)).is_some()
}

fn counted<L: Ledger>(store: &StepIndex, blank: Blank) -> Option<EntryId>
    requires name { blank.name ≡ L.name }
    requires parts { blank.parts ≡ L.parts }
    requires one { L.parts ≡ 1 }
{
    let mut steps = Steps::<L>::new(blank);
    target_in_seven(store, &mut steps)
}

// Three comparisons are enough where the top has seven entries.
fn target_in_seven<L: Ledger>(store: &StepIndex, steps: &mut Steps<L>) -> Option<EntryId>
    ensures { length (filter (is_of record { 0 = 0 }) (history_held store.now).rows) ≡ 7 → steps.new ≤ steps.old + 3 }
{
    store.target_counted(NavId(0), Step(5), steps)
}
