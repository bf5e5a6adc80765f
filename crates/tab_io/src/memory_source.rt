//! `MemorySource`, which a contract sees as the bytes that are left, with its calls and faults.
ghost use Rattle.std.specs.Prelude.{◌≡◌, ◌≤◌, ◌↔◌, ◌<◌, IfOk, IsErr, IsTrue, None, OnErr, Some, drop, length, min, take};
ghost use Rattle.std.specs.Io.{ReadsAtMost};
ghost use Rattle.std.specs.Io.KnownBytes.{ReadConsumes};
ghost use Rattle.tab_io.specs.Causes.{HasCause};
ghost use Rattle.tab_io.specs.Memory.{called, fails, faulted, fresh_memory, moved};

use crate::error::Failed;
use crate::memory::{copy_front, is_call};
use crate::source::Source;
use address::Text;
use std::marker::Model;

/// A text as a source. It gives its bytes in small pieces, and fails at a chosen call.
#[derive(Drop)]
pub struct MemorySource {
    text: Text,
    at: usize,
    chunk: usize,
    failing: Option<u32>,
    calls: u64,
    faults: u64,
}

impl Model for MemorySource {
    ghost use Rattle.std.specs.Prelude.{◌≤◌, ◌<◌, ◌≡◌, drop, length};
    ghost use Rattle.tab_io.specs.Memory.{Memory};

    ghost Value = { Memory };

    ghost view = { λ s. record {
      bytes = drop s.at s.text;
      chunk = s.chunk;
      failing = s.failing;
      calls = s.calls;
      faults = s.faults;
    } };

    ghost invariant = { λ s. (s.at ≤ length s.text) × (0 < s.chunk) };
}

impl MemorySource {
    /// A source of these bytes that gives at most `chunk` of them in a call.
    ///
    /// It fails at the call of the number `failing`, counted from 1.
    pub fn new(bytes: Text, chunk: usize, failing: Option<u32>) -> MemorySource
        requires { 0 < chunk }
        ensures { result ≡ fresh_memory bytes chunk failing }
    {
        MemorySource {
            text: bytes,
            at: 0,
            chunk,
            failing,
            calls: 0,
            faults: 0,
        }
    }
}

impl Source for MemorySource {
    ghost use Rattle.std.specs.Prelude.{Some};

    ghost left = { λ s. Some s.bytes };

    ghost faults = { λ s. s.faults };

    fn read(&mut self, out: &mut [u8]) -> Result<usize, Failed>
        ensures bound { ReadsAtMost result out.new }
        ensures bytes { ReadConsumes (Some self.old.bytes) (Some self.new.bytes) result out.new }
        ensures cause { HasCause self.old.faults self.new.faults result }

        ensures fails { IsErr result ↔ IsTrue (fails (called self.old)) }
        ensures err { OnErr result (self.new ≡ faulted (called self.old)) }
        ensures ok { IfOk result (λ count.
            self.new ≡ record (called self.old) { bytes = drop count self.old.bytes }) }
        ensures count { IfOk result (λ count.
            count ≡ min (moved self.old (length self.old.bytes)) (length out.old)) }
    {
        self.calls = self.calls.saturating_add(1);
        if is_call(self.failing, self.calls) {
            self.faults = self.faults.saturating_add(1);
            return Err(Failed);
        }
        let count = copy_front(&self.text.bytes()[self.at..], self.chunk, out);
        self.at += count;
        Ok(count)
    }
}
