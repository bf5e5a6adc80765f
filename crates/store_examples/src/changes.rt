//! Changes and questions, as words of a letter and digits.
use address::{Address, OutOfMemory, Text};
use log_model::Change;
use std::alloc::Global;
use tab_ids::{EntryId, NavId, StateId, Step};

/// What is asked of a store between two changes.
#[derive(Clone, Copy)]
pub enum Question {
    /// The used step for a step.
    UsedAt(Step),
    /// The length, and the index at a step.
    LengthIndex(Step),
    /// The navigables below a document state, and whether a row has it.
    State(StateId),
    /// Whether a child navigable was ever added.
    WasAdded(NavId),
    /// The row of an entry.
    Row(EntryId),
    /// A navigable's target at a step.
    Target(NavId, Step),
}

/// The question that a letter and its numbers ask.
pub fn asked(words: &[u8]) -> Option<Question> {
    let (first, second) = (digit(words.get(1)), digit(words.get(2)));
    match words.first() {
        Some(b'u') => Some(Question::UsedAt(Step(first))),
        Some(b'i') => Some(Question::LengthIndex(Step(first))),
        Some(b's') => Some(Question::State(StateId(first))),
        Some(b'a') => Some(Question::WasAdded(NavId(first))),
        Some(b'w') => Some(Question::Row(entry(first))),
        Some(b'g') => Some(Question::Target(NavId(first), Step(second))),
        _ => None,
    }
}

/// The change that a letter and its numbers name; the entry that it makes has the number `nr`.
pub fn change_of(alloc: Global, words: &[u8], nr: u32) -> Result<Change, OutOfMemory> {
    let (first, second, third) = (
        digit(words.get(1)),
        digit(words.get(2)),
        digit(words.get(3)),
    );
    match words.first() {
        Some(b'p') => push(alloc, NavId(first), StateId(second), nr),
        Some(b'r') => replace(alloc, NavId(first), entry(second), StateId(third), nr),
        Some(b'f') => Ok(Change::AddFrame {
            owner: StateId(first),
            nav: NavId(second),
            entry: entry(nr),
            state: StateId(third),
        }),
        Some(b'x') => Ok(Change::RemoveFrame { nav: NavId(first) }),
        Some(b't') => Ok(Change::Traverse { goal: Step(first) }),
        Some(b'l') => Ok(Change::Reload { nav: NavId(first) }),
        _ => Ok(Change::Edit),
    }
}

fn push(alloc: Global, nav: NavId, state: StateId, nr: u32) -> Result<Change, OutOfMemory> {
    Ok(Change::Push {
        nav,
        entry: entry(nr),
        state,
        address: address(alloc, nr)?,
        memo: None,
    })
}

fn replace(
    alloc: Global,
    nav: NavId,
    over: EntryId,
    state: StateId,
    nr: u32,
) -> Result<Change, OutOfMemory> {
    let memo = Text::of(alloc, b"memo")?;
    Ok(Change::Replace {
        nav,
        over,
        entry: entry(nr),
        state,
        address: address(alloc, nr)?,
        memo: Some(memo),
    })
}

/// The address of an entry.
fn address(alloc: Global, nr: u32) -> Result<Address, OutOfMemory> {
    let text = format!(in alloc; "http://a.test/{}", nr)?;
    match Address::read(alloc, text.as_bytes()) {
        Ok(address) => Ok(address),
        Err(_) => Err(OutOfMemory),
    }
}

fn entry(nr: u32) -> EntryId {
    EntryId { maker: 0, nr }
}

fn digit(byte: Option<&u8>) -> u32 {
    match byte {
        Some(digit) => u32::from(digit.wrapping_sub(b'0')),
        None => 0,
    }
}
