//! `Reason`, what is wrong with a line of a scenario.
ghost use Rattle.std.specs.Prelude.{◌≡◌};
ghost use Rattle.scenario_text.specs.Reasons.{reason_text};

/// Why a line is refused; the earlier variant is named where several fit.
#[derive(Clone, Copy, PartialEq, Eq, Debug)]
pub enum Reason {
    /// The scenario has more than 4,194,304 bytes; its line is 0.
    TooLong,
    /// The line is number 65,537.
    TooMany,
    /// It is the last part of the text, isn't empty, and has no line feed.
    NoEnd,
    /// A byte isn't 32 to 126.
    Bytes,
    /// It begins or ends with a space, or has two spaces together.
    Spaces,
    /// It stands before `open`, and its first word isn't one that may stand there; or `open` never comes.
    Header,
    /// It stands after `open`, and its first word is none of a line there.
    Word,
    /// It has too many words, or too few.
    Count,
    /// A number isn't one that may stand there.
    Number,
    /// The mode of a load, or the answer to a prompt, is none.
    Mode,
    /// A memo has more than 64 bytes.
    Memo,
    /// An address, a reference or a fragment is too long.
    UrlLength,
    /// An address is no URL.
    NotUrl,
    /// An address has a scheme that isn't allowed.
    Scheme,
    /// An address has a user name or a password.
    User,
    /// The address of a `site` isn't a bare origin.
    Origin,
    /// The address of a `page` has a fragment.
    Fragment,
    /// An earlier line has the same origin or address.
    Twice,
    /// A single step of a process stands in a scenario for threads.
    StepLine,
    /// It has no other fault, and the caller can't play it.
    Unbuilt,
}

impl Reason {
    /// The reason's word, as it is printed.
    pub fn text(self) -> &'static str
        ensures { result.now ≡ reason_text self }
    {
        match self {
            Reason::TooLong => "too-long",
            Reason::TooMany => "too-many",
            Reason::NoEnd => "no-end",
            Reason::Bytes => "bytes",
            Reason::Spaces => "spaces",
            Reason::Header => "header",
            Reason::Word => "word",
            Reason::Count => "count",
            Reason::Number => "number",
            Reason::Mode => "mode",
            Reason::Memo => "memo",
            Reason::UrlLength => "url-length",
            Reason::NotUrl => "not-url",
            Reason::Scheme => "scheme",
            Reason::User => "user",
            Reason::Origin => "origin",
            Reason::Fragment => "fragment",
            Reason::Twice => "twice",
            Reason::StepLine => "step-line",
            Reason::Unbuilt => "unbuilt",
        }
    }
}
