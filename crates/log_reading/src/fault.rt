//! `Fault`, why one line could not be read.
use address::{OutOfMemory, Overflowed};

/// Why one line could not be read; its number is not known there.
#[derive(Clone, Copy, PartialEq, Eq, Debug)]
pub enum Fault {
    /// It spells no row.
    NoRow,
    UrlOverflow(Overflowed),
    OutOfMemory,
}

impl From<OutOfMemory> for Fault {
    ghost use Rattle.std.specs.Prelude.{◌≡◌};
    ghost use Rattle.log_reading.specs.declared.fault.Fault.TheVariants as faults;

    ghost from_gives = { λ _ e. e ≡ faults.OutOfMemory };

    fn from(_: OutOfMemory) -> Fault {
        Fault::OutOfMemory
    }
}
