//! `MemorySink`, which a contract sees as the bytes that it took, with its calls and faults.
ghost use Rattle.std.specs.Prelude.{◌≡◌, ◌++◌, ◌<◌, [], IfOk, IsErr, IsTrue, OnErr, Some, length, take};
ghost use Rattle.std.specs.Io.{WritesAtMost};
ghost use Rattle.std.specs.Io.KnownBytes.{WriteAppends};
ghost use Rattle.tab_io.specs.Causes.{HasCause};
ghost use Rattle.tab_io.specs.Memory.{called, fails, faulted, fresh_memory, moved};

use crate::error::Failed;
use crate::memory::is_call;
use crate::sink::Sink;
use std::alloc::Global;
use std::marker::Model;

/// A sink that keeps what it takes. It takes its bytes in small pieces, and fails at a chosen call.
///
/// It fails, too, where it has no memory for what it should take.
#[derive(Drop)]
pub struct MemorySink {
    taken: Vec<u8>,
    chunk: usize,
    failing: Option<u32>,
    calls: u64,
    faults: u64,
}

impl Model for MemorySink {
    ghost use Rattle.std.specs.Prelude.{◌<◌};
    ghost use Rattle.tab_io.specs.Memory.{Memory};

    ghost Value = { Memory };

    ghost view = { λ s. record {
      bytes = s.taken.items;
      chunk = s.chunk;
      failing = s.failing;
      calls = s.calls;
      faults = s.faults;
    } };

    ghost invariant = { λ s. 0 < s.chunk };
}

impl MemorySink {
    /// A sink that takes at most `chunk` bytes in a call.
    ///
    /// It fails at the call of the number `failing`, counted from 1.
    pub fn new(alloc: Global, chunk: usize, failing: Option<u32>) -> MemorySink
        requires { 0 < chunk }
        ensures { result ≡ fresh_memory [] chunk failing }
    {
        MemorySink {
            taken: Vec::new(alloc),
            chunk,
            failing,
            calls: 0,
            faults: 0,
        }
    }

    /// The bytes that it took.
    pub fn bytes(&self) -> &[u8]
        ensures { result.now ≡ self.now.bytes }
    {
        &self.taken
    }
}

impl Sink for MemorySink {
    ghost use Rattle.std.specs.Prelude.{Some};

    ghost taken = { λ s. Some s.bytes };

    ghost faults = { λ s. s.faults };

    fn write(&mut self, bytes: &[u8]) -> Result<usize, Failed>
        ensures bound { WritesAtMost result bytes.now }
        ensures some { 0 < length bytes.now → IfOk result (λ count. 0 < count) }
        ensures bytes { WriteAppends (Some self.old.bytes) (Some self.new.bytes) result bytes.now }
        ensures cause { HasCause self.old.faults self.new.faults result }

        ensures fails { IsTrue (fails (called self.old)) → IsErr result }
        ensures err { OnErr result (self.new ≡ faulted (called self.old)) }
        ensures ok { IfOk result (λ count.
            self.new ≡ record (called self.old) { bytes = self.old.bytes ++ take count bytes.now }) }
        ensures count { IfOk result (λ count. count ≡ moved self.old (length bytes.now)) }
    {
        self.calls = self.calls.saturating_add(1);
        if is_call(self.failing, self.calls) {
            self.faults = self.faults.saturating_add(1);
            return Err(Failed);
        }
        let count = bytes.len().min(self.chunk);
        match self.taken.extend_from_slice(&bytes[..count]) {
            Ok(()) => Ok(count),
            Err(_) => {
                self.faults = self.faults.saturating_add(1);
                Err(Failed)
            }
        }
    }
}
