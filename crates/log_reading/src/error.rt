//! `LogTextError`, why a text gave no log.
ghost use Rattle.std.specs.Prelude.{◌≡◌};

use address::{OutOfMemory, Overflowed};

/// Why a text gave no log; the earlier variant is answered where several fit.
#[derive(Clone, Copy, PartialEq, Eq, Debug)]
pub enum LogTextError {
    /// There is no line.
    NoRows,
    /// There are more than 2,000,000 lines.
    TooManyRows,
    /// The number of the first line, counted from 1, that spells no row or has no end.
    BadLine(u32),
    /// An address is too large for the crate `url`.
    UrlOverflow(Overflowed),
    OutOfMemory,
}

impl From<OutOfMemory> for LogTextError {
    ghost use Rattle.std.specs.Prelude.{◌≡◌};
    ghost use Rattle.log_reading.specs.declared.error.LogTextError.TheVariants as errors;

    ghost from_gives = { λ _ e. e ≡ errors.OutOfMemory };

    fn from(_: OutOfMemory) -> LogTextError {
        LogTextError::OutOfMemory
    }
}
