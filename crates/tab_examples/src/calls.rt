//! Calls of the program over a source and a sink in memory.
use crate::case::Case;
use crate::out::{end_line, put, put_line};
use address::{OutOfMemory, Text};
use handler_table::HandlerTable;
use history_log::Log;
use std::alloc::Global;
use tab_call::{Ended, Status, play_call, status_line};
use tab_io::{MemorySink, MemorySource};

/// How many bytes a call of the source or the sink moves at most.
const CHUNK: usize = 16;

/// The most calls of a sink that are made to fail in turn.
const MOST_CALLS: u32 = 1_000;

/// How a call ended, and what it wrote.
#[derive(Drop)]
struct Called {
    status: Status,
    sink: MemorySink,
}

fn call(
    alloc: Global,
    words: &[String],
    case: &Case,
    sink: Option<u32>,
) -> Result<Called, OutOfMemory> {
    let bytes = Text::of(alloc, case.input.as_slice())?;
    let mut source = MemorySource::new(bytes, CHUNK, case.source);
    let mut sink = MemorySink::new(alloc, CHUNK, sink);
    let handlers = HandlerTable::new(alloc);
    let Ended { status, log } = play_call(alloc, words, &mut source, &mut sink, handlers);
    let_go(log);
    Ok(Called { status, sink })
}

/// Drops a log, in one place: each that drops one takes long to prove.
fn let_go(_log: Option<Log>) {}

/// What was written, and the line of the status after `! `, if it has one.
pub fn tell(alloc: Global, out: &mut Vec<u8>, case: &Case) -> Result<(), OutOfMemory> {
    let called = call(alloc, case.words.as_slice(), case, case.sink)?;
    put(out, called.sink.bytes())?;
    put_status(alloc, out, &called.status)
}

fn put_status(alloc: Global, out: &mut Vec<u8>, status: &Status) -> Result<(), OutOfMemory> {
    let line = status_line(alloc, status)?;
    if line.is_empty() {
        return Ok(());
    }
    end_line(out)?;
    put(out, b"! ")?;
    put_line(out, line.as_bytes())
}

/// For each call of the sink, until there is none: how many bytes were written where it fails, and whether they are a part of the text from its beginning; the words are those after the first one.
pub fn tell_faults(alloc: Global, out: &mut Vec<u8>, case: &Case) -> Result<(), OutOfMemory> {
    let Some((_, words)) = case.words.as_slice().split_first() else {
        return Ok(());
    };
    let whole = call(alloc, words, case, None)?;
    for nr in 1..MOST_CALLS {
        let called = call(alloc, words, case, Some(nr))?;
        let written = called.sink.bytes();
        let part = if whole.sink.bytes().starts_with(written) {
            "of the text"
        } else {
            "of another text"
        };
        let line = format!(in alloc; "call {}: {} bytes {}", nr, written.len(), part)?;
        put_line(out, line.as_bytes())?;
        put_status(alloc, out, &called.status)?;
        if called.status == Status::Done {
            break;
        }
    }
    Ok(())
}
