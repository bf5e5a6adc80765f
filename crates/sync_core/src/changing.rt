//! `change_of`, the change that a report asks of the history.
ghost use Rattle.std.specs.Prelude.{◌≡◌, ◌↔◌, Some, true, false, IfOk, OnOk, IsErrOf};
ghost use Rattle.log_model.specs.History.{has_nav};
ghost use Rattle.log_model.specs.Soundness.{hangs_on};
ghost use Rattle.sync_core.specs.Changes.{is_go, takes_used_number, lacks_frame, asked_change};

use crate::error::SyncError;
use address::OutOfMemory;
use entry_store::Store;
use log_model::{Change, Made, What, copy_memo};
use tab_ids::{EntryId, NavId, StateId};

/// The change that a report asks of the history. `nav` is the navigable of the document that made it, and `state` the document state; a new frame begins with `entry` and `fresh`, a new entry and a new document state, which serve nothing else.
pub fn change_of<S: Store>(
    store: &S,
    made: &Made,
    nav: NavId,
    state: StateId,
    entry: EntryId,
    fresh: StateId,
) -> Result<Change, SyncError>
    requires { is_go made.now.what ≡ false }
    ensures ok { IfOk result (λ change. asked_change (S.history store.now) made.now.what nav state entry fresh ≡ Some change) }
    ensures taken { IsErrOf result SyncError.NavTaken ↔ (takes_used_number (S.history store.now) made.now.what ≡ true) }
    ensures found { OnOk result (lacks_frame (S.history store.now) state made.now.what ≡ false) }
    ensures lacking { IsErrOf result SyncError.NoNavigable → lacks_frame (S.history store.now) state made.now.what ≡ true }
{
    match &made.what {
        What::Push {
            entry,
            memo,
            address,
        } => {
            let address = address.copy()?;
            let memo = copy_memo(memo)?;
            Ok(Change::Push {
                nav,
                entry: *entry,
                state,
                address,
                memo,
            })
        }
        What::Replace {
            over,
            entry,
            memo,
            address,
        } => {
            let address = address.copy()?;
            let memo = copy_memo(memo)?;
            Ok(Change::Replace {
                nav,
                over: *over,
                entry: *entry,
                state,
                address,
                memo,
            })
        }
        What::AddFrame { nav: child } => {
            if child.0 == 0 || store.was_added(*child) {
                return Err(SyncError::NavTaken);
            }
            Ok(Change::AddFrame {
                owner: state,
                nav: *child,
                entry,
                state: fresh,
            })
        }
        What::RemoveFrame { nav: child } => {
            if !is_child(store, *child, state)? {
                return Err(SyncError::NoNavigable);
            }
            Ok(Change::RemoveFrame { nav: *child })
        }
        What::Go { .. } => unreachable!(),
        What::Edit => Ok(Change::Edit),
    }
}

/// Whether a row of the navigable hangs on the document state.
#[tactic(auto, using(crate::proofs::Children::children_any))]
fn is_child<S: Store>(store: &S, child: NavId, state: StateId) -> Result<bool, OutOfMemory>
    ensures { IfOk result (λ is. is ≡ hangs_on child state (S.history store.now).rows) }
{
    let children = store.children(state)?;
    Ok(is_among(children.as_slice(), child))
}

/// Whether the navigable is in the list.
fn is_among(navs: &[NavId], nav: NavId) -> bool
    ensures { result ≡ has_nav navs.now nav }
{
    navs.iter().any(|other| *other == nav)
}
