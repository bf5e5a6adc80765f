//! `tab` plays what is asked of a browser tab and reports its session history, or makes a scenario to play.
#![tactic(auto)]

use handler_table::HandlerTable;
use log_model::{HandlerKind, LeaveCause, Leaving, Verdict};
use std::alloc::AllocError;
use std::io::BufWriter;
use std::process::ExitCode;
use std::{env, io, mem};
use tab_call::{Ended, Status, play_call, status_line};
use tab_io::{StdSink, StdSource};

const USAGE: &str =
    "usage: tab play [log] < SCENARIO\n       tab make N\n\n`play` plays a scenario from standard input and prints the report of its log; with `log` the log before it, a line for each row.\n`make` prints the scenario that is made of the number N, of 1 to 9 digits, and reads nothing.\n";

/// What an unload handler answers as its document is to be left.
type Ask = Box<dyn Fn(Leaving) -> Verdict + Send + Sync>;

fn main(rt: HostRuntime) -> ExitCode {
    let mut words = Vec::new(rt.alloc());
    match env::args(&rt) {
        Ok(all) => {
            for (i, word) in all.enumerate() {
                if i > 0 && words.push(word).is_err() {
                    return end(&rt, &Status::OutOfMemory);
                }
            }
        }
        Err(_) => return end(&rt, &Status::Usage),
    }
    if let Some(text) = asked_text(words.as_slice()) {
        let _ = rt.print(text);
        return ExitCode::from(0);
    }
    match run(&rt, words.as_slice()) {
        Ok(status) => end(&rt, &status),
        Err(_) => end(&rt, &Status::OutOfMemory),
    }
}

/// Does what the words ask, with the unload handlers of slots 0, 1 and 2: one prompts where the document has unsaved edits, one always, one where it has unsaved edits and isn't left by a traversal.
fn run(rt: &HostRuntime, words: &[String]) -> Result<Status, AllocError> {
    let mut handlers = HandlerTable::new(rt.alloc());
    let dirty: Ask = Box::new(rt.alloc(), |leaving: Leaving| {
        if leaving.dirty {
            Verdict::Prompt
        } else {
            Verdict::Leave
        }
    })?;
    handlers
        .add(HandlerKind::Dirty, dirty)
        .map_err(|_| AllocError)?;
    let always: Ask = Box::new(rt.alloc(), |_: Leaving| Verdict::Prompt)?;
    handlers
        .add(HandlerKind::Always, always)
        .map_err(|_| AllocError)?;
    let draft: Ask = Box::new(rt.alloc(), |leaving: Leaving| match leaving.cause {
        LeaveCause::Traverse => Verdict::Leave,
        LeaveCause::Load | LeaveCause::Reload => {
            if leaving.dirty {
                Verdict::Prompt
            } else {
                Verdict::Leave
            }
        }
    })?;
    handlers
        .add(HandlerKind::Draft, draft)
        .map_err(|_| AllocError)?;
    call(rt, words, handlers)
}

/// Calls the program's work over the standard streams.
fn call(rt: &HostRuntime, words: &[String], handlers: HandlerTable) -> Result<Status, AllocError> {
    let mut source = StdSource::new(rt.reader());
    let writer = BufWriter::new(rt.alloc(), io::writer(rt)).map_err(|_| AllocError)?;
    let mut sink = StdSink::new(writer);
    let Ended { status, log } = play_call(rt.alloc(), words, &mut source, &mut sink, handlers);
    // The process is about to end, which frees a long log at once, and not row by row.
    mem::forget(log);
    if sink.flush().is_err() {
        return Ok(Status::WriteFault);
    }
    Ok(status)
}

/// The text of `--help` and `--version`.
fn asked_text(words: &[String]) -> Option<&'static str> {
    match words {
        [word] if word.as_str() == "--help" => Some(USAGE),
        [word] if word.as_str() == "--version" => Some("tab 0.1.0\n"),
        _ => None,
    }
}

/// Prints why the work did not end well, if so, and gives the status's number.
fn end(rt: &HostRuntime, status: &Status) -> ExitCode {
    if let Ok(line) = status_line(rt.alloc(), status) {
        if !line.is_empty() {
            let _ = eprintln!(rt; "{}", line.as_str());
        }
    }
    ExitCode::from(status.number())
}
