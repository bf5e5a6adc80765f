//! Runs examples of changes on both stores of session history: each line of standard input, and on standard output what the stores then answer.
#![tactic(auto)]

mod answers;
mod changes;
mod taking;
mod ticks;

use crate::answers::answer;
use crate::changes::{asked, change_of};
use crate::taking::{Taken, take};
use crate::ticks::found_in_seven;
use address::{Address, OutOfMemory};
use entry_store::{EntryStore, Store};
use std::alloc::Global;
use std::io;
use std::process::ExitCode;
use step_index::StepIndex;
use tab_io::{StdSink, StdSource, read_bytes, write_all};

/// The most bytes that the examples may have.
const BYTE_LIMIT: usize = 4_194_304;

fn main(rt: HostRuntime) -> ExitCode {
    let mut source = StdSource::new(rt.reader());
    let Ok(bytes) = read_bytes(rt.alloc(), &mut source, BYTE_LIMIT) else {
        return ExitCode::from(3);
    };
    let Ok(text) = str::from_utf8(&bytes) else {
        return ExitCode::from(2);
    };
    let Ok(told) = tell_all(rt.alloc(), text) else {
        return ExitCode::from(5);
    };
    let mut sink = StdSink::new(io::writer(&rt));
    match write_all(&mut sink, told.as_bytes()) {
        Ok(()) => ExitCode::from(0),
        Err(_) => ExitCode::from(4),
    }
}

/// What comes of each line, one after the other. A line that begins with `#` is a comment, and is written as it stands.
fn tell_all(alloc: Global, text: &str) -> Result<String, OutOfMemory> {
    let mut out = String::new(alloc);
    let mut rest = text;
    for _ in 0..text.len() {
        let Some((line, more)) = rest.split_once('\n') else {
            break;
        };
        rest = more;
        if line.starts_with("#") {
            out.push_str(line)?;
        } else {
            out.push_str(tell(alloc, line)?.as_str())?;
        }
        out.push('\n')?;
    }
    Ok(out)
}

/// What both stores answer after the changes of a line; where they differ, both answers.
fn tell(alloc: Global, line: &str) -> Result<String, OutOfMemory> {
    let Ok(address) = Address::read(alloc, b"http://a.test/") else {
        return Err(OutOfMemory);
    };
    let mut list = EntryStore::fresh(alloc, &address)?;
    let mut said = play(alloc, &mut list, line)?;
    let mut index = StepIndex::fresh(alloc, &address)?;
    let other = play(alloc, &mut index, line)?;
    if said.as_str() != other.as_str() {
        said.push_str(" BUT ")?;
        said.push_str(other.as_str())?;
    }
    if line == SEVEN && !found_in_seven(&index) {
        said.push_str(" BUT no target")?;
    }
    Ok(said)
}

/// Six pushes, after which the top has seven entries.
const SEVEN: &str = "p02 p03 p04 p05 p06 p07";

/// Makes the changes, and writes down what the store then answers, and what it refused.
fn play<S: Store>(alloc: Global, store: &mut S, line: &str) -> Result<String, OutOfMemory> {
    let mut after = String::new(alloc);
    let mut nr: u32 = 1;
    for words in line.split_whitespace() {
        nr = nr.wrapping_add(1);
        if let Some(question) = asked(words.as_bytes()) {
            after.push_str(answers::to(alloc, store, question)?.as_str())?;
            continue;
        }
        let change = change_of(alloc, words.as_bytes(), nr)?;
        match take(store, &change)? {
            Taken::Made => (),
            Taken::Refused(error) => {
                after.push_str(format!(in alloc; "; !{} {:?}", nr, error)?.as_str())?;
            }
            Taken::Unfit => after.push_str(format!(in alloc; "; ?{} unfit", nr)?.as_str())?,
        }
    }
    let mut said = answer(alloc, store)?;
    said.push_str(after.as_str())?;
    Ok(said)
}
