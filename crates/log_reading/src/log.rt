//! A log from its lines.
ghost use Rattle.std.specs.Prelude.{◌≡◌, ◌≢◌, ◌+◌, ◌≤◌, ◌++◌, List, [], length, bytes_eq, MatchResult, IfOk, IfErr, OnOk};
ghost use Rattle.log_model.specs.declared.row_kind.LogRow.{LogRow};
ghost use Rattle.log_text.specs.Lines.{line_of_row, log_text};
ghost use Rattle.log_reading.specs.Outcomes as spec;
ghost use Rattle.log_reading.specs.Outcomes.{Reads, IsTextOf, IsFree};
ghost use Rattle.log_reading.specs.Readable.{IsReadable, AreReadable};
ghost use Rattle.log_reading.specs.Gives.{IsFaulty, IsFaultAt, IsLineFault};

use crate::cut::place_of;
use crate::error::LogTextError;
use crate::fault::Fault;
use crate::row::row_of;
use address::OutOfMemory;
use history_log::Log;
use log_model::LogRow;
use log_text::row_line;
use std::alloc::Global;

/// How many lines there are, the last of which may have no end.
fn line_count(bytes: &[u8]) -> usize
    ensures { result ≡ spec.line_count bytes.now }
{
    let mut count = 0;
    let mut begins = true;
    for b in bytes {
        if begins {
            count += 1;
        }
        begins = *b == b'\n';
    }
    count
}

/// Whether a line is the one that is printed of a row.
fn is_line_of(alloc: Global, row: &LogRow, line: &[u8]) -> Result<bool, OutOfMemory>
    ensures { IfOk result (λ is. is ≡ bytes_eq line.now (line_of_row row.now)) }
{
    let printed = row_line(alloc, row)?;
    Ok(line == printed.bytes())
}

/// The row of the first line, and what follows the line.
fn first_row(alloc: Global, bytes: &[u8]) -> Result<(LogRow, &[u8]), Fault>
    ensures { MatchResult result
        (λ x. IsReadable x.0 × (line_of_row x.0 ++ x.1.now ≡ bytes.now))
        (λ fault. IsFaulty fault bytes.now) }
{
    let at = match place_of(bytes, b'\n') {
        Some(at) => at,
        None => return Err(Fault::NoRow),
    };
    let row = match row_of(alloc, &bytes[..at]) {
        Ok(row) => row,
        Err(fault) => return Err(fault),
    };
    let is_same = is_line_of(alloc, &row, &bytes[..at + 1])?;
    if is_same {
        Ok((row, &bytes[at + 1..]))
    } else {
        Err(Fault::NoRow)
    }
}

impl Fault {
    /// The error of the log whose line has this number.
    fn at(self, line: u32) -> LogTextError
        ensures { IsFaultAt result line self }
    {
        match self {
            Fault::NoRow => LogTextError::BadLine(line),
            Fault::UrlOverflow(mark) => LogTextError::UrlOverflow(mark),
            Fault::OutOfMemory => LogTextError::OutOfMemory,
        }
    }
}

/// Adds the rows of lines to those of a log.
fn read_rest(log: &mut Log, alloc: Global, bytes: &[u8]) -> Result<(), LogTextError>
    requires readable { AreReadable log.old }
    requires few { length log.old + spec.line_count bytes.now ≤ 2000000 }
    ensures ok { OnOk result (AreReadable log.new × (log_text log.new ≡ log_text log.old ++ bytes.now)) }
    ensures err { IfErr result (λ error. IsLineFault error (log_text log.old ++ bytes.now)) }
{
    let mut rest = bytes;
    'lines: while !rest.is_empty() {
        let number = log.len() as u32 + 1;
        let (row, after) = match first_row(alloc, rest) {
            Ok(first) => first,
            Err(fault) => return Err(fault.at(number)),
        };
        log.push_row(row)?;
        rest = after;
    }
    Ok(())
}

/// The log of lines of which there are some, and not too many.
fn read_lines(alloc: Global, bytes: &[u8]) -> Result<Log, LogTextError>
    requires some { bytes.now ≢ [] }
    requires few { spec.line_count bytes.now ≤ 2000000 }
    ensures { Reads result bytes.now }
{
    let (first, rest) = match first_row(alloc, bytes) {
        Ok(first) => first,
        Err(fault) => return Err(fault.at(1)),
    };
    let mut log = Log::fresh(alloc, first)?;
    read_rest(&mut log, alloc, rest)?;
    Ok(log)
}

/// The log that a text of lines spells, one row a line.
///
/// A line that has no end spells no row. Of several faults the first line's is told.
pub fn read_log(alloc: Global, bytes: &[u8]) -> Result<Log, LogTextError>
    ensures read { Reads result bytes.now }
    ensures read_back { (rows : List LogRow) → IsTextOf bytes.now rows → IfOk result (λ log. log ≡ rows) × IfErr result IsFree }
{
    if bytes.is_empty() {
        return Err(LogTextError::NoRows);
    }
    if line_count(bytes) > 2_000_000 {
        return Err(LogTextError::TooManyRows);
    }
    read_lines(alloc, bytes)
}
