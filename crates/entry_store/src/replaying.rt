//! `replay`, a list of changes made one after the other, in any store.
ghost use Rattle.std.specs.Prelude.{◌≡◌, fold, IfErr, OnOk};
ghost use Rattle.log_model.specs.History.{applied};
ghost use Rattle.log_model.specs.Order.{SameHistory};
ghost use Rattle.entry_store.specs.Replay.{MayReplay, IsRefusedAt};

use crate::error::StoreError;
use crate::store::Store;
use log_model::{Change, Items};

/// A list of changes.
pub type Changes = Items<Change>;

/// Makes the changes in their order, and stops at the first refusal, with the changes before it made.
pub fn replay<S: Store>(store: &mut S, changes: &Changes) -> Result<(), StoreError>
    requires may { MayReplay (S.history store.old) changes.now }
    ensures ok { OnOk result (SameHistory (S.history store.new) (fold applied (S.history store.old) changes.now)) }
    ensures refused { IfErr result (IsRefusedAt (S.history store.old) changes.now (S.history store.new)) }
{
    for change in changes.as_slice() {
        if let Err(error) = store.apply(change) {
            return Err(error);
        }
    }
    Ok(())
}
