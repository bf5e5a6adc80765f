//! `MakeError`, why no scenario was made.
use address::{OutOfMemory, Overflowed};
use std::alloc::AllocError;
use thiserror::Error;

/// Why no scenario was made.
#[derive(Clone, Copy, PartialEq, Eq, Debug, Error)]
pub enum MakeError {
    /// An address is too large for the crate `url`.
    #[error("too large for a URL")]
    UrlOverflow(Overflowed),
    /// The allocator had no memory.
    #[error("out of memory")]
    OutOfMemory,
}

impl From<OutOfMemory> for MakeError {
    ghost use Rattle.std.specs.Prelude.{◌≡◌};
    ghost use Rattle.scenario_make.specs.declared.error.MakeError.TheVariants as errors;

    ghost from_gives = { λ _ e. e ≡ errors.OutOfMemory };

    fn from(_: OutOfMemory) -> MakeError {
        MakeError::OutOfMemory
    }
}

impl From<AllocError> for MakeError {
    ghost use Rattle.std.specs.Prelude.{◌≡◌};
    ghost use Rattle.scenario_make.specs.declared.error.MakeError.TheVariants as errors;

    ghost from_gives = { λ _ e. e ≡ errors.OutOfMemory };

    fn from(_: AllocError) -> MakeError {
        MakeError::OutOfMemory
    }
}
