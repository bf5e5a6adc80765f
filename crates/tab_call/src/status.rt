//! `Status`, how a call of the program ended.
ghost use Rattle.std.specs.Prelude.{◌≡◌, IfOk, string_bytes};
ghost use Rattle.tab_call.specs.Statuses as spec;

use address::{OutOfMemory, Overflowed};
use scenario_text::Refusal;
use std::alloc::Global;

/// How a call ended. The numbers are the program's exit statuses.
#[derive(Clone, Copy, PartialEq, Eq, Debug)]
pub enum Status {
    /// All was read, and the whole text was written.
    Done,
    /// The words are none of the program's.
    Usage,
    /// The bytes read are no scenario.
    Scenario(Refusal),
    /// The source failed.
    ReadFault,
    /// The sink failed; a part of the text may be written.
    WriteFault,
    /// The allocator had no memory.
    OutOfMemory,
    /// The log has 1,000,000 rows or more, and an event was due that logs.
    LogFull,
    /// An address was too large for the crate `url`.
    UrlOverflow(Overflowed),
}

impl Status {
    /// The exit status of the program.
    pub fn number(&self) -> u8
        ensures { result ≡ spec.number_of self.now }
    {
        match self {
            Status::Done => 0,
            Status::Usage => 1,
            Status::Scenario(_) => 2,
            Status::ReadFault => 3,
            Status::WriteFault => 4,
            Status::OutOfMemory => 5,
            Status::LogFull => 6,
            Status::UrlOverflow(_) => 7,
        }
    }
}

/// The line that the program prints on standard error, without its end; empty where all went well.
pub fn status_line(alloc: Global, status: &Status) -> Result<String, OutOfMemory> {
    match status {
        Status::Done => Ok(String::new(alloc)),
        Status::Usage => word(alloc, "usage: play [log] | run [log] | make N | drill N"),
        Status::Scenario(refusal) => {
            let line = format!(in alloc;
                "scenario line {}: {}",
                refusal.line,
                refusal.reason.text()
            )?;
            Ok(line)
        }
        Status::ReadFault => word(alloc, "read fault"),
        Status::WriteFault => word(alloc, "write fault"),
        Status::OutOfMemory => word(alloc, "out of memory"),
        Status::LogFull => word(alloc, "log full"),
        Status::UrlOverflow(_) => word(alloc, "url overflow"),
    }
}

fn word(alloc: Global, text: &str) -> Result<String, OutOfMemory>
    ensures { IfOk result (λ line. string_bytes line ≡ text.now) }
{
    let line = String::from_str(alloc, text)?;
    Ok(line)
}
