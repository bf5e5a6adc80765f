//! Texts of words, which share the text that they stand in.
ghost use Rattle.std.specs.Prelude.{◌≡◌, IfOk};
ghost use Rattle.scenario_text.specs.Standing.{IsStanding, Stands};

use address::{OutOfMemory, Text};

/// A line where it stands in a text, after which so many bytes of the text follow.
#[derive(Clone, Copy)]
pub struct StandingLine<'a> {
    pub text: &'a Text,
    pub bytes: &'a [u8],
    pub after: usize,
}

/// The text of a word of a line, after which so many bytes of the line follow.
#[tactic(auto, using(crate::proofs::StandingLaws::part_is))]
pub fn shared(line: StandingLine<'_>, word: &[u8], after: usize) -> Result<Text, OutOfMemory>
    requires line { IsStanding line }
    requires word { Stands line.bytes.now word.now after }
    ensures { IfOk result (λ text. text ≡ word.now) }
{
    let end = line.text.bytes().len() - line.after - after;
    let text = line.text.part(end - word.len(), end)?;
    Ok(text)
}
