//! `Nav`, what the coordinator keeps of a navigable.
use crate::reload::ReloadPhase;
use crate::status::NavStatus;
use log_model::Why;
use tab_ids::{EntryId, Epoch, NavId, ReqId, StateId};

/// A navigable. Its parent and owner never change; all else is as the coordinator last set it.
#[derive(Clone, Copy, PartialEq, Eq, Debug)]
pub struct Nav {
    /// The navigable it was added to; none for the traversable at the top.
    pub parent: Option<NavId>,
    /// The document state its entries hang on: that of its parent's document when it was added.
    pub owner: Option<StateId>,
    pub status: NavStatus,
    /// The entry of the last Activate sent for it, or of a later same-document change.
    pub given: Option<EntryId>,
    /// How many Activates were sent for it; at the top the opening counts as one.
    pub epoch: Epoch,
    /// Why it is as it is: the request or the death of the last Activate, putting to sleep or loss.
    pub why: Why,
    /// The running traversal has sent it an Activate or put it to sleep.
    pub moved: bool,
    /// The finish of its last Activate was delivered.
    pub stands: bool,
    pub reload: ReloadPhase,
    /// The history object's length and index that its document was last told, where these are known.
    pub told: Option<(u32, u32)>,
    /// The request that added it; none at the top.
    pub added_by: Option<ReqId>,
}
