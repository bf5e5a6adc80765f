//! `StepError`, why a step of a world changed nothing, or closed it.
use address::{OutOfMemory, Overflowed};
use thiserror::Error;

/// The earlier variant is answered where several fit.
#[derive(Clone, Copy, PartialEq, Eq, Debug, Error)]
pub enum StepError {
    /// An earlier step answered one of the last two variants.
    #[error("closed")]
    Closed,
    /// The log has 1,000,000 rows or more.
    #[error("log full")]
    LogFull,
    /// An address was too large for the crate `url`.
    #[error("url overflow")]
    UrlOverflow(Overflowed),
    /// The allocator had no memory.
    #[error("out of memory")]
    OutOfMemory,
}

impl From<OutOfMemory> for StepError {
    ghost use Rattle.std.specs.Prelude.{◌≡◌};
    ghost use Rattle.world.specs.declared.error.StepError.TheVariants as errors;

    ghost from_gives = { λ _ e. e ≡ errors.OutOfMemory };

    fn from(_: OutOfMemory) -> StepError {
        StepError::OutOfMemory
    }
}
