//! How orders and requests end.
use crate::handler::Verdict;
use tab_ids::{Death, ReqId};

/// How a finished order went, one variant a kind of task. A populated document has the handler slot of its page.
#[derive(Clone, Copy, PartialEq, Eq, Debug)]
pub enum Outcome {
    Populated(Option<u8>),
    Activated,
    Updated,
    Frozen,
    Discarded,
    Asked(Verdict),
    Fragmented,
}

/// Why a request was refused.
#[derive(Clone, Copy, PartialEq, Eq, Debug)]
pub enum Denial {
    NoStep,
    NoNavigable,
    NotShown,
    NoDocument,
    NavTaken,
    BadAddress,
}

/// Why a request was dropped.
#[derive(Clone, Copy, PartialEq, Eq, Debug)]
pub enum Cause {
    /// The user answered its prompt by staying.
    Stay,
    /// Another request moved its navigable, or took its place.
    By(ReqId),
    /// Another request removed its navigable.
    Destroyed(ReqId),
    /// A death took its document.
    Gone(Death),
}

/// How a request ended.
#[derive(Clone, Copy, PartialEq, Eq, Debug)]
pub enum Ending {
    Applied,
    Refused(Denial),
    Dropped(Cause),
}
