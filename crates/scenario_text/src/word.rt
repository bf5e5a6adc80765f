//! `Word`, the first word of a line after `open`.
ghost use Rattle.std.specs.Prelude.{◌≡◌, bytes_eq};
ghost use Rattle.scenario_text.specs.Body.{word_of};

/// The first word of a line after `open`.
#[derive(Clone, Copy)]
pub enum Word {
    Load,
    Go,
    Reload,
    Push,
    Replace,
    Fragment,
    Frame,
    Remove,
    DocGo,
    Edit,
    Answer,
    Evict,
    Kill,
    Act,
    Begin,
    Finish,
    Deliver,
    Settle,
}

impl Word {
    /// The word that bytes spell, if any.
    pub fn of(bytes: &[u8]) -> Option<Word>
        ensures { result ≡ word_of bytes.now }
    {
        if is_word(bytes, b"load".as_slice()) {
            Some(Word::Load)
        } else if is_word(bytes, b"go".as_slice()) {
            Some(Word::Go)
        } else if is_word(bytes, b"reload".as_slice()) {
            Some(Word::Reload)
        } else if is_word(bytes, b"push".as_slice()) {
            Some(Word::Push)
        } else if is_word(bytes, b"replace".as_slice()) {
            Some(Word::Replace)
        } else if is_word(bytes, b"fragment".as_slice()) {
            Some(Word::Fragment)
        } else if is_word(bytes, b"frame".as_slice()) {
            Some(Word::Frame)
        } else if is_word(bytes, b"remove".as_slice()) {
            Some(Word::Remove)
        } else if is_word(bytes, b"docgo".as_slice()) {
            Some(Word::DocGo)
        } else if is_word(bytes, b"edit".as_slice()) {
            Some(Word::Edit)
        } else if is_word(bytes, b"answer".as_slice()) {
            Some(Word::Answer)
        } else if is_word(bytes, b"evict".as_slice()) {
            Some(Word::Evict)
        } else if is_word(bytes, b"kill".as_slice()) {
            Some(Word::Kill)
        } else if is_word(bytes, b"act".as_slice()) {
            Some(Word::Act)
        } else if is_word(bytes, b"begin".as_slice()) {
            Some(Word::Begin)
        } else if is_word(bytes, b"finish".as_slice()) {
            Some(Word::Finish)
        } else if is_word(bytes, b"deliver".as_slice()) {
            Some(Word::Deliver)
        } else if is_word(bytes, b"settle".as_slice()) {
            Some(Word::Settle)
        } else {
            None
        }
    }
}

/// Whether bytes are a word that is known where this is called, so that no call is left.
#[inline(always)]
pub fn is_word(bytes: &[u8], word: &[u8]) -> bool
    ensures { result ≡ bytes_eq bytes.now word.now }
{
    if bytes.len() != word.len() {
        return false;
    }
    for i in 0..word.len() {
        if bytes[i] != word[i] {
            return false;
        }
    }
    true
}
