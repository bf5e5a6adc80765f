//! `SyncError`, why a report asks no change of the history.
use address::OutOfMemory;
use thiserror::Error;

/// Why what a document made can't change the history.
#[derive(Clone, Copy, PartialEq, Eq, Debug, Error)]
pub enum SyncError {
    /// A frame with the new frame's number was added before, or it is the top's.
    #[error("a frame with this number was added before")]
    NavTaken,
    /// The frame that is to be removed doesn't hang on the document.
    #[error("the document has no such frame")]
    NoNavigable,
    /// The allocator had no memory.
    #[error("out of memory")]
    OutOfMemory,
}

impl From<OutOfMemory> for SyncError {
    ghost use Rattle.std.specs.Prelude.{◌≡◌};
    ghost use Rattle.sync_core.specs.declared.error.SyncError.TheVariants as errors;

    ghost from_gives = { λ _ e. e ≡ errors.OutOfMemory };

    fn from(_: OutOfMemory) -> SyncError {
        SyncError::OutOfMemory
    }
}
