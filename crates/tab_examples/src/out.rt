//! The text that is written at the end.
use address::OutOfMemory;

/// Puts bytes at the end.
pub fn put(out: &mut Vec<u8>, bytes: &[u8]) -> Result<(), OutOfMemory> {
    out.extend_from_slice(bytes)?;
    Ok(())
}

/// Puts bytes and a line feed at the end.
pub fn put_line(out: &mut Vec<u8>, bytes: &[u8]) -> Result<(), OutOfMemory> {
    put(out, bytes)?;
    put(out, b"\n")
}

/// Ends a line that was begun.
pub fn end_line(out: &mut Vec<u8>) -> Result<(), OutOfMemory> {
    match out.last() {
        Some(b'\n') | None => Ok(()),
        Some(_) => put(out, b"\n"),
    }
}
