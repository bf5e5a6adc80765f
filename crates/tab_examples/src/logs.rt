//! Logs that are read from their texts, printed again, and asked.
use crate::case::Case;
use crate::out::{put, put_line};
use address::OutOfMemory;
use history_log::Log;
use report_text::{LogTextError, read_log, row_line};
use std::alloc::Global;
use tab_ids::{ProcId, ReqId};

/// The log as it is printed, or why the bytes are none.
pub fn tell(alloc: Global, out: &mut Vec<u8>, case: &Case) -> Result<(), OutOfMemory> {
    match read_log(alloc, case.input.as_slice()) {
        Ok(log) => put_rows(alloc, out, &log),
        Err(error) => put_error(alloc, out, error),
    }
}

fn put_rows(alloc: Global, out: &mut Vec<u8>, log: &Log) -> Result<(), OutOfMemory> {
    for row in log.rows() {
        put(out, row_line(alloc, row)?.bytes())?;
    }
    Ok(())
}

/// Why the bytes are no log.
pub fn put_error(alloc: Global, out: &mut Vec<u8>, error: LogTextError) -> Result<(), OutOfMemory> {
    match error {
        LogTextError::NoRows => put_line(out, b"! no rows"),
        LogTextError::TooManyRows => put_line(out, b"! too many rows"),
        LogTextError::BadLine(line) => {
            let text = format!(in alloc; "! log line {}", line)?;
            put_line(out, text.as_bytes())
        }
        LogTextError::UrlOverflow(_) => put_line(out, b"! url overflow"),
        LogTextError::OutOfMemory => Err(OutOfMemory),
    }
}

/// What is asked of the log after each of its rows, the last row first.
pub fn tell_moments(alloc: Global, out: &mut Vec<u8>, case: &Case) -> Result<(), OutOfMemory> {
    match read_log(alloc, case.input.as_slice()) {
        Ok(mut log) => put_moments(alloc, out, &mut log),
        Err(error) => put_error(alloc, out, error),
    }
}

fn put_moments(alloc: Global, out: &mut Vec<u8>, log: &mut Log) -> Result<(), OutOfMemory> {
    for _ in 0..log.len() {
        put_moment(alloc, out, log)?;
        log.cut(log.len().saturating_sub(1));
    }
    Ok(())
}

/// How many rows there are, whether nothing is in transit and no prompt is up, how many orders wait for the first two processes, and the event in which request 1 ended and whether its prompt is up.
fn put_moment(alloc: Global, out: &mut Vec<u8>, log: &Log) -> Result<(), OutOfMemory> {
    let first = log.mail(ProcId(1))?.len();
    let second = log.mail(ProcId(2))?.len();
    let line = format!(in alloc;
        "{} rows: still {}, quiet {}, mail {} {}, request 1 {}, prompt {}",
        log.len(),
        yes(log.still()),
        yes(log.quiet()),
        first,
        second,
        ending(log),
        yes(log.prompt_up(ReqId(1)))
    )?;
    put_line(out, line.as_bytes())
}

fn ending(log: &Log) -> &'static str {
    match log.request_outcome(ReqId(1)) {
        Some(_) => "ended",
        None => "open",
    }
}

fn yes(holds: bool) -> &'static str {
    if holds { "yes" } else { "no" }
}
