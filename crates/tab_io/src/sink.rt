//! `Sink`, which a contract sees as the bytes that it took, where they are told, and a count of faults.
ghost use Rattle.std.specs.Prelude.{ℕ, List, ◌<◌, length, IfOk};
ghost use Rattle.std.specs.declared.option.Option.{Option};
ghost use Rattle.std.specs.Io.{WritesAtMost};
ghost use Rattle.std.specs.Io.KnownBytes.{WriteAppends};
ghost use Rattle.tab_io.specs.Causes.{HasCause};

use crate::error::Failed;

/// Where bytes go.
pub trait Sink {
    // The bytes that were taken, where they are told.
    ghost taken: { Self → Option (List ℕ) };

    // How many writes have failed. It never falls, and stays at its last value.
    ghost faults: { Self → ℕ };

    /// Takes bytes from the front of the piece, and says how many.
    ///
    /// Of a piece that isn't empty it takes at least one.
    fn write(&mut self, bytes: &[u8]) -> Result<usize, Failed>
        ensures bound { WritesAtMost result bytes.now }
        ensures some { 0 < length bytes.now → IfOk result (λ count. 0 < count) }
        ensures bytes { WriteAppends (taken self.old) (taken self.new) result bytes.now }
        ensures cause { HasCause (faults self.old) (faults self.new) result };
}
