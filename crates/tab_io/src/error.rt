//! What may go wrong with a source or a sink.
use address::OutOfMemory;
use std::alloc::AllocError;
use thiserror::Error;

/// A call of a source or a sink failed; its count of faults has risen.
#[derive(Clone, Copy, PartialEq, Eq, Debug, Error)]
#[error("a fault of a source or a sink")]
pub struct Failed;

/// Why the whole input was not read.
#[derive(Clone, Copy, PartialEq, Eq, Debug, Error)]
pub enum ReadAllError {
    /// More bytes came than the limit.
    #[error("more bytes than the limit")]
    TooLong,
    /// A read of the source failed.
    #[error("a fault of the source")]
    ReadFault,
    /// The allocator had no memory.
    #[error("out of memory")]
    OutOfMemory,
}

impl From<OutOfMemory> for ReadAllError {
    ghost use Rattle.std.specs.Prelude.{◌≡◌};
    ghost use Rattle.tab_io.specs.declared.error.ReadAllError.TheVariants as errors;

    ghost from_gives = { λ _ e. e ≡ errors.OutOfMemory };

    fn from(_: OutOfMemory) -> ReadAllError {
        ReadAllError::OutOfMemory
    }
}

impl From<AllocError> for ReadAllError {
    ghost use Rattle.std.specs.Prelude.{◌≡◌};
    ghost use Rattle.tab_io.specs.declared.error.ReadAllError.TheVariants as errors;

    ghost from_gives = { λ _ e. e ≡ errors.OutOfMemory };

    fn from(_: AllocError) -> ReadAllError {
        ReadAllError::OutOfMemory
    }
}

/// A write of the sink failed before all bytes were taken.
#[derive(Clone, Copy, PartialEq, Eq, Debug, Error)]
#[error("a fault of the sink")]
pub struct WriteFault;
