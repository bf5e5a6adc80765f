//! `Case`, what is to be run, and the cases of a text.
use address::OutOfMemory;
use std::alloc::Global;

/// What is to be run on which bytes.
#[derive(Drop)]
pub struct Case {
    /// The words and the settings, as they stand.
    pub head: String,
    pub words: Vec<String>,
    /// The call of the source that fails.
    pub source: Option<u32>,
    /// The call of the sink that fails.
    pub sink: Option<u32>,
    pub input: Vec<u8>,
}

impl Case {
    /// The first of the words, or nothing.
    pub fn first_word(&self) -> &str {
        match self.words.first() {
            Some(word) => word.as_str(),
            None => "",
        }
    }
}

/// The cases of a text: each begins with a line that has `= ` in front, and its input goes on to the next such line.
pub fn cases(alloc: Global, text: &str) -> Result<Vec<Case>, OutOfMemory> {
    let mut all = Vec::new(alloc);
    let mut rest = match text.strip_prefix("= ") {
        Some(first) => first,
        None => text,
    };
    for _ in 0..text.len() {
        match rest.split_once("\n= ") {
            Some((case, more)) => {
                all.push(case_of(alloc, case)?)?;
                rest = more;
            }
            None => {
                all.push(case_of(alloc, rest)?)?;
                break;
            }
        }
    }
    Ok(all)
}

/// The case of a first line and its input, which has lost its last line feed.
fn case_of(alloc: Global, text: &str) -> Result<Case, OutOfMemory> {
    match text.split_once('\n') {
        Some((head, input)) => case_with(alloc, head, input.as_bytes(), b"\n"),
        None => case_with(alloc, text, b"", b""),
    }
}

/// The case of a first line and an input with its end. A word with `=` in it is a setting, and so is `cut`, which takes the end away.
fn case_with(alloc: Global, head: &str, input: &[u8], end: &[u8]) -> Result<Case, OutOfMemory> {
    let mut case = Case {
        head: String::from_str(alloc, head)?,
        words: Vec::new(alloc),
        source: None,
        sink: None,
        input: Vec::new(alloc),
    };
    let mut times: u32 = 1;
    let mut last = end;
    for word in head.split_whitespace() {
        match word.split_once('=') {
            Some(("source", call)) => case.source = number(call),
            Some(("sink", call)) => case.sink = number(call),
            Some(("times", n)) => times = number(n).unwrap_or(1),
            Some(_) => (),
            None if word == "cut" => last = b"",
            None => case.words.push(String::from_str(alloc, word)?)?,
        }
    }
    for _ in 0..times {
        case.input.extend_from_slice(input)?;
        case.input.extend_from_slice(last)?;
    }
    Ok(case)
}

fn number(text: &str) -> Option<u32> {
    text.parse::<u32>().ok()
}
