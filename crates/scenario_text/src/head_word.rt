//! `HeadWord`, the first word of a line of the header.
ghost use Rattle.std.specs.Prelude.{◌≡◌};
ghost use Rattle.scenario_text.specs.Heading as spec;

use crate::place::Stage;

/// The first word of a line between the version and `open`.
#[derive(Clone, Copy)]
pub enum HeadWord {
    Keep,
    Site,
    Page,
    Open,
}

impl HeadWord {
    /// The word that bytes spell, if any.
    fn of(bytes: &[u8]) -> Option<HeadWord>
        ensures { result ≡ spec.head_word_of bytes.now }
    {
        if bytes == b"keep".as_slice() {
            Some(HeadWord::Keep)
        } else if bytes == b"site".as_slice() {
            Some(HeadWord::Site)
        } else if bytes == b"page".as_slice() {
            Some(HeadWord::Page)
        } else if bytes == b"open".as_slice() {
            Some(HeadWord::Open)
        } else {
            None
        }
    }

    /// Whether a line that begins with the word may stand at this stage.
    fn may_stand(self, stage: Stage) -> bool
        ensures { result ≡ spec.may_stand stage self }
    {
        match (stage, self) {
            (Stage::Version, HeadWord::Keep) => true,
            (Stage::Keep | Stage::Site | Stage::Page, HeadWord::Keep) => false,
            (Stage::Page, HeadWord::Site) => false,
            (Stage::Version | Stage::Keep | Stage::Site, HeadWord::Site) => true,
            (_, HeadWord::Page | HeadWord::Open) => true,
        }
    }

    /// The word that bytes spell, where a line that begins with it may stand at this stage.
    pub fn due(stage: Stage, bytes: &[u8]) -> Option<HeadWord>
        ensures { result ≡ spec.due stage (spec.head_word_of bytes.now) }
    {
        match HeadWord::of(bytes) {
            Some(word) => {
                if word.may_stand(stage) {
                    Some(word)
                } else {
                    None
                }
            }
            None => None,
        }
    }
}
