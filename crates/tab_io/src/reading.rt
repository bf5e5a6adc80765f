//! Reading a whole input.
ghost use Rattle.std.specs.Prelude.{◌≡◌, ◌≢◌, ◌+◌, ◌<◌, ◌++◌, length, vec_len, IfOk, OnErr, OnOk};
ghost use Rattle.std.specs.Io.KnownBytes.{IsAtEnd};
ghost use Rattle.std.specs.Result.{result_map_both};
ghost use Rattle.tab_io.specs.Streams.{IsRestAfter, KeepsCame, ReadHasCause, ReadsAll};

use crate::error::{Failed, ReadAllError};
use crate::source::Source;
use address::Text;
use std::alloc::Global;

// The size of the pieces that are read.
const PIECE: usize = 65536;

/// The whole input as a text, where it has no more bytes than the limit.
pub fn read_all<S: Source>(
    alloc: Global,
    source: &mut S,
    limit: usize,
) -> Result<Text, ReadAllError>
    ensures bytes { ReadsAll (S.left source.old) (S.left source.new) limit result }
    ensures cause { ReadHasCause (S.faults source.old) (S.faults source.new) result }
{
    let bytes = read_bytes(alloc, source, limit)?;
    Ok(Text::of(alloc, &bytes)?)
}

/// The whole input as bytes, where it has no more of them than the limit. A text is made of a copy; this is for a caller that needs none.
pub fn read_bytes<S: Source>(
    alloc: Global,
    source: &mut S,
    limit: usize,
) -> Result<Vec<u8>, ReadAllError>
    ensures bytes { ReadsAll (S.left source.old) (S.left source.new) limit (result_map_both (λ read. read.items) (λ e. e) result) }
    ensures cause { ReadHasCause (S.faults source.old) (S.faults source.new) (result_map_both (λ read. read.items) (λ e. e) result) }
{
    let mut buffer = vec![in alloc; 0; limit.saturating_add(1).min(PIECE)]?;
    let mut bytes = Vec::new(alloc);
    'pieces: while bytes.len() <= limit {
        let most = (limit - bytes.len()).saturating_add(1).min(buffer.len());
        if read_piece(source, &mut buffer[..most], &mut bytes)? == 0 {
            return Ok(bytes);
        }
    }
    Err(ReadAllError::TooLong)
}

// Reads one piece to the end of the bytes that came before, and says its length; 0 means the end.
#[tactic(auto, using(crate::proofs::Pieces::pieces))]
fn read_piece<S: Source>(
    source: &mut S,
    buffer: &mut [u8],
    bytes: &mut Vec<u8>,
) -> Result<usize, ReadAllError>
    requires { 0 < length buffer.old }
    ensures came { OnOk result
        (KeepsCame (S.left source.old) (S.left source.new) bytes.old.items bytes.new.items) }
    ensures count { IfOk result (λ count. vec_len bytes.new ≡ vec_len bytes.old + count) }
    ensures end { IfOk result (λ count. count ≡ 0 → IsAtEnd (S.left source.new)) }

    ensures rest { OnErr result (IsRestAfter (S.left source.old) (S.left source.new) bytes.old.items) }
    ensures not_long { result ≢ Err ReadAllError.TooLong }
    ensures cause { ReadHasCause (S.faults source.old) (S.faults source.new) result }
{
    match source.read(buffer) {
        Ok(count) => match bytes.extend_from_slice(&buffer[..count]) {
            Ok(()) => Ok(count),
            Err(_) => Err(ReadAllError::OutOfMemory),
        },
        Err(Failed) => Err(ReadAllError::ReadFault),
    }
}
