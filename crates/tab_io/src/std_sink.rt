//! `StdSink`, of which a contract sees the count of faults alone.
ghost use Rattle.std.specs.Prelude.{◌≡◌};
ghost use Rattle.tab_io.specs.Causes.{HasCause};

use crate::error::Failed;
use crate::sink::Sink;
use std::io::Write;
use std::marker::Model;

/// A writer of std as a sink. Each error of the writer is a fault, an interrupted write too.
///
/// A write that takes no byte of a piece that has some is a fault as well.
#[derive(Drop)]
pub struct StdSink<W> {
    writer: W,
    faults: u64,
}

impl<W> Model for StdSink<W> {
    ghost use Rattle.std.specs.Prelude.{ℕ};

    ghost Value = { ℕ };

    ghost view = { λ s. s.faults };
}

impl<W> StdSink<W> {
    /// A sink that writes to the writer.
    pub fn new(writer: W) -> StdSink<W>
        ensures { result ≡ 0 }
    {
        StdSink { writer, faults: 0 }
    }
}

impl<W: Write> StdSink<W> {
    /// Lets the writer hand on what it holds back. A failure is a fault.
    pub fn flush(&mut self) -> Result<(), Failed>
        ensures { HasCause self.old self.new result }
    {
        match self.writer.flush() {
            Ok(()) => Ok(()),
            Err(_) => {
                self.faults = self.faults.saturating_add(1);
                Err(Failed)
            }
        }
    }
}

impl<W: Write> Sink for StdSink<W> {
    ghost use Rattle.std.specs.Prelude.{None};

    ghost taken = { λ _. None };

    ghost faults = { λ s. s };

    fn write(&mut self, bytes: &[u8]) -> Result<usize, Failed> {
        match self.writer.write(bytes) {
            Ok(count) if count > 0 || bytes.is_empty() => Ok(count),
            _ => {
                self.faults = self.faults.saturating_add(1);
                Err(Failed)
            }
        }
    }
}
