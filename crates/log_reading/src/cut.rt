//! Cutting bytes at the first separator.
ghost use Rattle.std.specs.Prelude.{◌≡◌, ◌==◌};
ghost use Rattle.std.specs.List.{position};
ghost use Rattle.log_reading.specs.Words as spec;

/// Where the first separator stands.
pub fn place_of(bytes: &[u8], separator: u8) -> Option<usize>
    ensures { result ≡ position (λ b. b == separator) bytes.now }
{
    bytes.iter().position(|b| *b == separator)
}

/// What stands before the first separator and what stands after it; without one all bytes and none.
pub fn cut(bytes: &[u8], separator: u8) -> (&[u8], &[u8])
    ensures before { result.0.now ≡ spec.before separator bytes.now }
    ensures after { result.1.now ≡ spec.after separator bytes.now }
{
    match place_of(bytes, separator) {
        Some(at) => (&bytes[..at], &bytes[at + 1..]),
        None => (bytes, &[]),
    }
}

/// The first word of a text, and what follows it.
pub fn next(text: &[u8]) -> (&[u8], &[u8])
    ensures word { result.0.now ≡ spec.first_word text.now }
    ensures rest { result.1.now ≡ spec.after_word text.now }
{
    cut(text, b' ')
}
