//! A traversal in the lists.
ghost use Rattle.std.specs.Prelude.{◌≡◌, ◌≤◌};
ghost use Rattle.log_model.specs.History.{Fits, applied, greatest_step};
ghost use Rattle.log_model.specs.Order.{SameHistory};
ghost use Rattle.log_model.specs.declared.change.Change.TheVariants.{Traverse};
ghost use Rattle.entry_store.specs.Kept.{history_in, IsKept};

use crate::nested::Nested;
use crate::readers::used_step_in;
use tab_ids::Step;

/// Makes the used step of the goal current.
#[tactic(auto, using(crate::proofs::MoveLaw::moved_laws))]
pub fn move_in(lists: &mut Nested, goal: Step)
    requires kept { IsKept (history_in lists.old) lists.old.used.keys }
    requires may { goal.0 ≤ greatest_step (history_in lists.old).rows }
    ensures kept { IsKept (history_in lists.new) lists.new.used.keys }
    ensures fits { Fits (history_in lists.old) (Traverse goal) }
    ensures ok { SameHistory (history_in lists.new) (applied (history_in lists.old) (Traverse goal)) }
{
    lists.current = used_step_in(&lists.nests, goal);
}
