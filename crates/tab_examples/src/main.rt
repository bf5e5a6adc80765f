//! Runs examples: each case of standard input, and on standard output what comes of it.
#![tactic(auto)]

mod calls;
mod case;
mod logs;
mod out;
mod scenarios;
mod views;

use crate::case::{Case, cases};
use address::OutOfMemory;
use std::alloc::Global;
use std::io;
use std::process::ExitCode;
use tab_io::{StdSink, StdSource, read_bytes, write_all};

/// The most bytes that the cases may have.
const BYTE_LIMIT: usize = 4_194_304;

fn main(rt: HostRuntime) -> ExitCode {
    let mut source = StdSource::new(rt.reader());
    let Ok(bytes) = read_bytes(rt.alloc(), &mut source, BYTE_LIMIT) else {
        return ExitCode::from(3);
    };
    let Ok(text) = str::from_utf8(without_last_end(&bytes)) else {
        return ExitCode::from(2);
    };
    let Ok(told) = tell_all(rt.alloc(), text) else {
        return ExitCode::from(5);
    };
    let mut sink = StdSink::new(io::writer(&rt));
    match write_all(&mut sink, told.as_slice()) {
        Ok(()) => ExitCode::from(0),
        Err(_) => ExitCode::from(4),
    }
}

/// The bytes without their last line feed, which a case adds to its input again.
fn without_last_end(bytes: &[u8]) -> &[u8] {
    match bytes.split_last() {
        Some((b'\n', front)) => front,
        _ => bytes,
    }
}

/// What comes of each case, one after the other.
fn tell_all(alloc: Global, text: &str) -> Result<Vec<u8>, OutOfMemory> {
    let mut out = Vec::new(alloc);
    for case in cases(alloc, text)? {
        tell(alloc, &mut out, &case)?;
    }
    Ok(out)
}

/// The case's first line, and what comes of the case.
fn tell(alloc: Global, out: &mut Vec<u8>, case: &Case) -> Result<(), OutOfMemory> {
    out::put(out, b"= ")?;
    out::put_line(out, case.head.as_bytes())?;
    match case.first_word() {
        "scenario" => scenarios::tell(alloc, out, case),
        "opened" => scenarios::tell_opened(alloc, out, case),
        "log" => logs::tell(alloc, out, case),
        "views" => views::tell(alloc, out, case),
        "moments" => logs::tell_moments(alloc, out, case),
        "faults" => calls::tell_faults(alloc, out, case),
        _ => calls::tell(alloc, out, case),
    }
}
