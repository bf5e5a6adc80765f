//! The removal of a frame from the lists.
ghost use Rattle.std.specs.Prelude.{◌≡◌, IfErr, OnOk, OnErr};
ghost use Rattle.log_model.specs.History.{Fits, applied};
ghost use Rattle.log_model.specs.Order.{SameHistory};
ghost use Rattle.log_model.specs.declared.change.Change.TheVariants.{RemoveFrame};
ghost use Rattle.entry_store.specs.Store.{IsRefused};
ghost use Rattle.entry_store.specs.Kept.{history_in, IsKept};

use crate::cut::Cut;
use crate::error::StoreError;
use crate::nested::Nested;
use crate::plan::plan_of;
use crate::readers::{has_row_in, used_step_in};
use crate::sweep::sweep;
use tab_ids::NavId;

/// Takes out a navigable's entries, and those of all frames below its documents.
pub fn remove_in(lists: &mut Nested, nav: NavId) -> Result<(), StoreError>
    requires kept { IsKept (history_in lists.old) lists.old.used.keys }
    ensures kept { IsKept (history_in lists.new) lists.new.used.keys }
    ensures fits { OnOk result (Fits (history_in lists.old) (RemoveFrame nav)) }
    ensures ok { OnOk result (SameHistory (history_in lists.new) (applied (history_in lists.old) (RemoveFrame nav))) }
    ensures refused { IfErr result (IsRefused (history_in lists.old) (RemoveFrame nav)) }
    ensures err { OnErr result (history_in lists.new ≡ history_in lists.old) }
{
    if nav.0 == 0 {
        return Err(StoreError::NoNavigable);
    }
    if !has_row_in(&lists.nests, nav) {
        return Err(StoreError::NoNavigable);
    }
    let cut = Cut::Navigable(nav);
    let left = plan_of(*lists.nests.allocator(), &lists.nests, &cut)?;
    sweep(&mut lists.nests, &cut, &left.states);
    lists.current = used_step_in(&lists.nests, lists.current);
    lists.used = left.steps;
    Ok(())
}
