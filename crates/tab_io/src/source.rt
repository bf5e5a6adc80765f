//! `Source`, which a contract sees as the bytes that are left, where told, and a count of faults.
ghost use Rattle.std.specs.Prelude.{ℕ, List, ◌<◌, length};
ghost use Rattle.std.specs.declared.option.Option.{Option};
ghost use Rattle.std.specs.Io.{ReadsAtMost};
ghost use Rattle.std.specs.Io.KnownBytes.{ReadConsumes};
ghost use Rattle.tab_io.specs.Causes.{HasCause};

use crate::error::Failed;

/// Where bytes come from.
pub trait Source {
    // The bytes that reads will give from here on, where they are told.
    ghost left: { Self → Option (List ℕ) };

    // How many reads have failed. It never falls, and stays at its last value.
    ghost faults: { Self → ℕ };

    /// Reads the next bytes into the front of `out`, and says how many; 0 means the end.
    fn read(&mut self, out: &mut [u8]) -> Result<usize, Failed>
        requires { 0 < length out.old }
        ensures bound { ReadsAtMost result out.new }
        ensures bytes { ReadConsumes (left self.old) (left self.new) result out.new }
        ensures cause { HasCause (faults self.old) (faults self.new) result };
}
