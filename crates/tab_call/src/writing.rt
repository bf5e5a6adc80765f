//! Writing what is due of a log.
ghost use Rattle.std.specs.Prelude.{◌≡◌, ◌++◌, ◌≤◌, All, length};
ghost use Rattle.log_text.specs.Lines.{line_of_row, log_text};
ghost use Rattle.tab_io.specs.Causes.{HasCause};
ghost use Rattle.tab_io.specs.Streams.{WritesAll};
ghost use Rattle.tab_call.specs.Writes.{IsWritten, text_with};

use crate::words::Output;
use address::OutOfMemory;
use log_model::LogRow;
use log_text::Line;
use std::alloc::Global;
use tab_io::{Sink, WriteFault, write_all};

/// Why not all that was due is written.
#[derive(Clone, Copy, PartialEq, Eq, Debug)]
pub(crate) enum Unwritten {
    /// The sink failed; a part may be written.
    WriteFault,
    /// There was no memory, and nothing is written.
    OutOfMemory,
}

/// Writes the line of each row, each by a write of its own. It takes no memory.
fn write_rows<K: Sink>(sink: &mut K, line: &mut Line, rows: &[LogRow]) -> Result<(), WriteFault>
    requires fits { All (λ row. length (line_of_row row) ≤ line.old.room) rows.now }
    ensures bytes { WritesAll (K.taken sink.old) (K.taken sink.new) (log_text rows.now) result }
    ensures cause { HasCause (K.faults sink.old) (K.faults sink.new) result }
{
    for row in rows {
        line.set(row);
        match write_all(sink, line.bytes()) {
            Ok(()) => (),
            Err(fault) => return Err(fault),
        }
    }
    Ok(())
}

/// Writes the lines of the rows, and then the report. It takes no memory.
fn write_log<K: Sink>(
    sink: &mut K,
    line: &mut Line,
    rows: &[LogRow],
    report: &[u8],
) -> Result<(), WriteFault>
    requires fits { All (λ row. length (line_of_row row) ≤ line.old.room) rows.now }
    ensures bytes { WritesAll (K.taken sink.old) (K.taken sink.new) (log_text rows.now ++ report.now) result }
    ensures cause { HasCause (K.faults sink.old) (K.faults sink.new) result }
{
    match write_rows(sink, line, rows) {
        Ok(()) => write_all(sink, report),
        Err(fault) => Err(fault),
    }
}

/// Writes what is asked for of a log, whose report is given. What takes memory is made before the first write.
pub(crate) fn write_due<K: Sink>(
    alloc: Global,
    sink: &mut K,
    output: Output,
    rows: &[LogRow],
    report: &[u8],
) -> Result<(), Unwritten>
    ensures { IsWritten result (text_with output rows.now report.now) (K.taken sink.old) (K.taken sink.new) (K.faults sink.old) (K.faults sink.new) }
{
    let written = match output {
        Output::Report => write_all(sink, report),
        Output::LogAndReport => match Line::for_rows(alloc, rows) {
            Ok(mut line) => write_log(sink, &mut line, rows, report),
            Err(OutOfMemory) => return Err(Unwritten::OutOfMemory),
        },
    };
    match written {
        Ok(()) => Ok(()),
        Err(WriteFault) => Err(Unwritten::WriteFault),
    }
}
