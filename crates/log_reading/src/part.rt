//! `Part`, the words that one of the log's tables reads.
ghost use Rattle.std.specs.Prelude.{◌≡◌};
ghost use Rattle.log_reading.specs.Words as spec;

use crate::cut::next;

/// The name of what a row tells, and up to six words after it; one that isn't there is empty.
#[derive(Clone, Copy)]
pub struct Part<'a> {
    pub name: &'a [u8],
    pub a: &'a [u8],
    pub b: &'a [u8],
    pub c: &'a [u8],
    pub d: &'a [u8],
    pub e: &'a [u8],
    pub f: &'a [u8],
}

/// The words that a text begins with.
#[tactic(auto, unfolding(crate::specs::Words::part_of))]
pub fn words(text: &[u8]) -> Part<'_>
    ensures { spec.shown result ≡ spec.part_of text.now }
{
    let (name, rest) = next(text);
    let (a, rest) = next(rest);
    let (b, rest) = next(rest);
    let (c, rest) = next(rest);
    let (d, rest) = next(rest);
    let (e, rest) = next(rest);
    let (f, _) = next(rest);
    Part {
        name,
        a,
        b,
        c,
        d,
        e,
        f,
    }
}
