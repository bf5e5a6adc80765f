//! Writing all bytes of a piece.
ghost use Rattle.tab_io.specs.Causes.{HasCause};
ghost use Rattle.tab_io.specs.Streams.{WritesAll};

use crate::error::{Failed, WriteFault};
use crate::sink::Sink;

/// Writes the bytes, piece by piece, until all are taken or a write fails. It takes no memory.
pub fn write_all<K: Sink>(sink: &mut K, bytes: &[u8]) -> Result<(), WriteFault>
    ensures bytes { WritesAll (K.taken sink.old) (K.taken sink.new) bytes.now result }
    ensures cause { HasCause (K.faults sink.old) (K.faults sink.new) result }
{
    let mut at = 0;
    'pieces: while at < bytes.len() {
        match sink.write(&bytes[at..]) {
            Ok(count) => at += count,
            Err(Failed) => return Err(WriteFault),
        }
    }
    Ok(())
}
