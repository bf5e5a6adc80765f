//! The words of the command line.
ghost use Rattle.std.specs.Prelude.{◌≡◌, ◌≤◌, Some, None, length, map, string_bytes, if◌then◌else◌};
ghost use Rattle.std.specs.Str.Parse.{digits_value};
ghost use Rattle.scenario_text.specs.Numbers as numbers;
ghost use Rattle.tab_call.specs.Words as spec;

/// What is written of a log.
#[derive(Clone, Copy, PartialEq, Eq, Debug)]
pub enum Output {
    /// Its report.
    Report,
    /// The log, a line for each row, and then its report.
    LogAndReport,
}

/// What the words ask for.
#[derive(Clone, Copy, PartialEq, Eq, Debug)]
pub enum Work {
    /// `play` and `play log`: a scenario is read and played, and this is written of its log.
    Play(Output),
    /// `make N`: the scenario of the number is made, and its text written.
    Make(u32),
}

/// The number that digits write.
fn digits(word: &[u8]) -> Option<u32>
    requires { length word.now ≤ 9 }
    ensures { result ≡ (if numbers.are_digits word.now then Some (digits_value 10 word.now) else None) }
{
    let mut number: u32 = 0;
    for b in word {
        if !b.is_ascii_digit() {
            return None;
        }
        number = number * 10 + u32::from(*b - b'0');
    }
    Some(number)
}

/// The number that a word writes, of 1 to 9 digits and with no 0 in front of others.
fn number_in(word: &[u8]) -> Option<u32>
    ensures { result ≡ spec.number_in word.now }
{
    match word {
        [] => None,
        [b'0', _, ..] => None,
        _ if word.len() > 9 => None,
        _ => digits(word),
    }
}

/// What one word asks for.
fn one_word(word: &str) -> Option<Work>
    ensures { result ≡ spec.work_of_one word.now }
{
    match word {
        "play" => Some(Work::Play(Output::Report)),
        _ => None,
    }
}

/// What two words ask for.
fn two_words(word: &str, more: &str) -> Option<Work>
    ensures { result ≡ spec.work_of_two word.now more.now }
{
    match (word, more) {
        ("play", "log") => Some(Work::Play(Output::LogAndReport)),
        ("play", _) => None,
        ("make", number) => number_in(number.as_bytes()).map(Work::Make),
        _ => None,
    }
}

/// What the words ask for, if anything.
pub(crate) fn asked_work(words: &[String]) -> Option<Work>
    ensures { result ≡ spec.work_of (map (λ w. string_bytes w) words.now) }
{
    match words {
        [word] => one_word(word.as_str()),
        [word, more] => two_words(word.as_str(), more.as_str()),
        _ => None,
    }
}
