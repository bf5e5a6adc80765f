//! What sources and sinks in memory share.
ghost use Rattle.std.specs.Prelude.{◌≡◌, ◌≤◌, ◌++◌, drop, length, min, nat_eq, take, Some};
ghost use Rattle.std.specs.Option.{option_eq};

/// Whether a call has the number of the call that fails.
pub(crate) fn is_call(failing: Option<u32>, call: u64) -> bool
    ensures { result ≡ option_eq nat_eq failing (Some call) }
{
    match failing {
        Some(number) => u64::from(number) == call,
        None => false,
    }
}

/// Copies bytes to the front of a piece, at most `chunk` of them, and says how many.
pub(crate) fn copy_front(bytes: &[u8], chunk: usize, out: &mut [u8]) -> usize
    ensures count { result ≡ min (min (length bytes.now) chunk) (length out.old) }
    ensures copied { take result out.new ≡ take result bytes.now }
{
    let count = bytes.len().min(chunk).min(out.len());
    out[..count].copy_from_slice(&bytes[..count]);
    count
}
