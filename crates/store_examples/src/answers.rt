//! What a store answers, as text.
use crate::changes::Question;
use address::OutOfMemory;
use entry_store::Store;
use log_model::{Navs, Row};
use std::alloc::Global;

/// The current step, length and index, and all rows: navigable and step, entry, document state, owner, and a star where it is its navigable's target.
pub fn answer<S: Store>(alloc: Global, store: &S) -> Result<String, OutOfMemory> {
    let current = store.current();
    let (length, index) = store.length_index(current);
    let mut said = format!(in alloc; "{} {} {}", current.0, length, index)?;
    for row in store.rows()?.as_slice() {
        let star = store.target(row.nav, current) == Some(row.entry);
        said.push_str(row_text(alloc, row, star)?.as_str())?;
    }
    Ok(said)
}

fn row_text(alloc: Global, row: &Row, star: bool) -> Result<String, OutOfMemory> {
    let star = if star { "*" } else { "" };
    let text = match row.owner {
        Some(owner) => {
            format!(in alloc;
                "; {}:{} {} {} {}{}",
                row.nav.0, row.step.0, row.entry.nr, row.state.0, owner.0, star
            )?
        }
        None => {
            format!(in alloc;
                "; {}:{} {} {} -{}",
                row.nav.0, row.step.0, row.entry.nr, row.state.0, star
            )?
        }
    };
    Ok(text)
}

/// The answer to a question.
pub fn to<S: Store>(alloc: Global, store: &S, question: Question) -> Result<String, OutOfMemory> {
    let text = match question {
        Question::UsedAt(step) => {
            format!(in alloc; "; used {} at {}", store.used_at(step).0, step.0)?
        }
        Question::LengthIndex(step) => {
            let (length, index) = store.length_index(step);
            format!(in alloc; "; length {} index {} at {}", length, index, step.0)?
        }
        Question::State(state) => {
            let below = navs_text(alloc, &store.children(state)?)?;
            let has = store.has_state(state);
            format!(in alloc; "; state {} {}, below it{}", state.0, has, below.as_str())?
        }
        Question::WasAdded(nav) => {
            format!(in alloc; "; navigable {} was added: {}", nav.0, store.was_added(nav))?
        }
        Question::Row(entry) => return entry_text(alloc, store.row(entry)),
        Question::Target(nav, step) => match store.target(nav, step) {
            Some(entry) => {
                format!(in alloc; "; target of {} at {}: {}", nav.0, step.0, entry.nr)?
            }
            None => format!(in alloc; "; target of {} at {}: none", nav.0, step.0)?,
        },
    };
    Ok(text)
}

fn navs_text(alloc: Global, navs: &Navs) -> Result<String, OutOfMemory> {
    let mut text = String::new(alloc);
    for nav in navs.as_slice() {
        text.push_str(format!(in alloc; " {}", nav.0)?.as_str())?;
    }
    Ok(text)
}

/// An entry's step, address and memo.
fn entry_text(alloc: Global, row: Option<&Row>) -> Result<String, OutOfMemory> {
    let Some(row) = row else {
        return Ok(String::from_str(alloc, "; no entry")?);
    };
    let memo = match &row.memo {
        Some(memo) => memo.bytes(),
        None => b"-",
    };
    let mut text = format!(in alloc; "; entry {} at {} ", row.entry.nr, row.step.0)?;
    for bytes in [row.address.text(), b" ", memo] {
        for b in bytes {
            text.push(char::from(*b))?;
        }
    }
    Ok(text)
}
