//! `StoreError`, why a store refuses a change.
use address::OutOfMemory;
use std::alloc::{AllocError, AllocFailed};

/// Why a store refused a change; the history stays as it was. The earlier variant is answered where several fit.
#[derive(Clone, Copy, PartialEq, Eq, Debug)]
pub enum StoreError {
    /// The change names a navigable without an entry, or would remove the top.
    NoNavigable,
    /// The navigable doesn't have the entry that is to be replaced, or no entry has the new frame's owner.
    NoEntry,
    /// A frame with this number was added before, or it is the top's.
    NavTaken,
    /// The allocator had no memory.
    OutOfMemory,
}

impl From<OutOfMemory> for StoreError {
    ghost use Rattle.std.specs.Prelude.{◌≡◌};
    ghost use Rattle.entry_store.specs.declared.error.StoreError.TheVariants as errors;

    ghost from_gives = { λ _ e. e ≡ errors.OutOfMemory };

    fn from(_: OutOfMemory) -> StoreError {
        StoreError::OutOfMemory
    }
}
