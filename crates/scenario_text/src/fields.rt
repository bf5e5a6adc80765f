//! `Fields`, the words of a line after its first.
ghost use Rattle.std.specs.Prelude.{◌≡◌};
ghost use Rattle.scenario_text.specs.Grammar.{has_empty_word};
ghost use Rattle.scenario_text.specs.Standing.{IsSplit};

use crate::cut::cut;

/// The words of a line after its first: as many as a line may have, or more.
#[derive(Clone, Copy)]
pub enum Fields<'a> {
    Zero,
    One(&'a [u8]),
    Two(&'a [u8], &'a [u8]),
    Three(&'a [u8], &'a [u8], &'a [u8]),
    More,
}

/// A line cut into words, which are parted by one space: the first, those after it, and whether any is empty.
#[derive(Clone, Copy)]
pub struct Split<'a> {
    pub word: &'a [u8],
    pub fields: Fields<'a>,
    pub has_empty: bool,
}

/// The words of a line.
pub fn words(line: &[u8]) -> Split<'_>
    ensures words { IsSplit result line.now }
    ensures empty { result.has_empty ≡ has_empty_word line.now }
{
    let Some((word, rest)) = cut(line, b' ') else {
        return Split {
            word: line,
            fields: Fields::Zero,
            has_empty: line.is_empty(),
        };
    };
    let Some((a, rest)) = cut(rest, b' ') else {
        return Split {
            word,
            fields: Fields::One(rest),
            has_empty: word.is_empty() | rest.is_empty(),
        };
    };
    let Some((b, rest)) = cut(rest, b' ') else {
        return Split {
            word,
            fields: Fields::Two(a, rest),
            has_empty: word.is_empty() | a.is_empty() | rest.is_empty(),
        };
    };
    let Some((c, others)) = cut(rest, b' ') else {
        return Split {
            word,
            fields: Fields::Three(a, b, rest),
            has_empty: word.is_empty() | a.is_empty() | b.is_empty() | rest.is_empty(),
        };
    };
    Split {
        word,
        fields: Fields::More,
        has_empty: word.is_empty()
            | a.is_empty()
            | b.is_empty()
            | c.is_empty()
            | has_empty_word(others),
    }
}

/// Whether a line begins or ends with a space, or has two spaces together.
fn has_empty_word(line: &[u8]) -> bool
    ensures { result ≡ has_empty_word line.now }
{
    let mut rest = line;
    'words: while let Some((word, after)) = cut(rest, b' ') {
        if word.is_empty() {
            return true;
        }
        rest = after;
    }
    rest.is_empty()
}
