//! Cutting bytes at a separator.
ghost use Rattle.std.specs.Prelude.{◌≡◌, ◌==◌, ◌<◌, [], ◌∷◌, false, length, position, All, MatchOption, IfSome};
ghost use Rattle.scenario_text.specs.Pieces.{pieces};

use memchr::memchr;

/// Where the first separator stands.
#[tactic(auto, using(crate::proofs::CutLaws::position_from_first))]
fn place_of(bytes: &[u8], separator: u8) -> Option<usize>
    ensures { result ≡ position (λ b. b == separator) bytes.now }
{
    memchr(separator, bytes)
}

/// What stands before the first separator, and what stands after it, if there is one.
pub fn cut(bytes: &[u8], separator: u8) -> Option<(&[u8], &[u8])>
    ensures cut { MatchOption result (pieces separator bytes.now ≡ bytes.now ∷ []) (λ x. pieces separator bytes.now ≡ x.0.now ∷ pieces separator x.1.now) }
    ensures free { IfSome result (λ x. All (λ b. (b == separator) ≡ false) x.0.now) }
    ensures shorter { IfSome result (λ x. length x.1.now < length bytes.now) }
{
    match place_of(bytes, separator) {
        Some(at) => Some((&bytes[..at], &bytes[at + 1..])),
        None => None,
    }
}
