//! The lines of a report, each added to what is written so far.
ghost use Rattle.std.specs.Prelude.{◌≡◌, ◌++◌, OnOk, codes, decimal};
ghost use Rattle.report_text.specs.Reports as spec;

use address::OutOfMemory;
use itoa::Buffer;
use log_model::{Cause, Denial, Ending, Row};

/// A text that grows at its end.
pub(crate) fn put(out: &mut Vec<u8>, text: &[u8]) -> Result<(), OutOfMemory>
    ensures { OnOk result (out.new.items ≡ out.old.items ++ text.now) }
{
    out.extend_from_slice(text)?;
    Ok(())
}

/// A number after a space.
pub(crate) fn put_number(out: &mut Vec<u8>, number: u64) -> Result<(), OutOfMemory>
    ensures { OnOk result (out.new.items ≡ out.old.items ++ spec.number_word number) }
{
    let mut digits = Buffer::new();
    put(out, b" ")?;
    put(out, digits.format(number).as_bytes())?;
    Ok(())
}

/// A length and an index.
pub(crate) fn put_pair(out: &mut Vec<u8>, length: u64, index: u64) -> Result<(), OutOfMemory>
    ensures { OnOk result (out.new.items ≡ out.old.items ++ spec.pair_words length index) }
{
    put(out, b" length")?;
    put_number(out, length)?;
    put(out, b" index")?;
    put_number(out, index)?;
    Ok(())
}

/// Whether nothing is in transit and no prompt is up.
pub(crate) fn put_quiet(out: &mut Vec<u8>, quiet: bool) -> Result<(), OutOfMemory>
    ensures { OnOk result (out.new.items ≡ out.old.items ++ spec.quiet_line quiet) }
{
    if quiet {
        put(out, b"quiet yes\n")?;
    } else {
        put(out, b"quiet no\n")?;
    }
    Ok(())
}

/// The current step with length and index.
pub(crate) fn put_step(
    out: &mut Vec<u8>,
    step: u64,
    length: u64,
    index: u64,
) -> Result<(), OutOfMemory>
    ensures { OnOk result (out.new.items ≡ out.old.items ++ spec.step_line step length index) }
{
    put(out, b"step")?;
    put_number(out, step)?;
    put_pair(out, length, index)?;
    put(out, b"\n")?;
    Ok(())
}

/// An entry.
pub(crate) fn put_entry(out: &mut Vec<u8>, row: &Row) -> Result<(), OutOfMemory>
    ensures { OnOk result (out.new.items ≡ out.old.items ++ spec.entry_line row.now) }
{
    put(out, b"entry")?;
    put_number(out, u64::from(row.nav.0))?;
    put_number(out, u64::from(row.step.0))?;
    put_memo(out, row)?;
    put_address(out, row)?;
    Ok(())
}

fn put_memo(out: &mut Vec<u8>, row: &Row) -> Result<(), OutOfMemory>
    ensures { OnOk result (out.new.items ≡ out.old.items ++ spec.memo_word row.now.memo) }
{
    match &row.memo {
        Some(memo) => {
            put(out, b" ")?;
            put(out, memo.bytes())?;
            Ok(())
        }
        None => {
            put(out, b" -")?;
            Ok(())
        }
    }
}

fn put_address(out: &mut Vec<u8>, row: &Row) -> Result<(), OutOfMemory>
    ensures { OnOk result (out.new.items ≡ out.old.items ++ spec.address_words row.now.address) }
{
    put(out, b" ")?;
    put(out, row.address.text())?;
    put(out, b"\n")?;
    Ok(())
}

/// A navigable whose document shows its target.
pub(crate) fn put_runs(
    out: &mut Vec<u8>,
    nav: u64,
    step: u64,
    length: u64,
    index: u64,
) -> Result<(), OutOfMemory>
    ensures { OnOk result (out.new.items ≡ out.old.items ++ spec.runs_line nav step length index) }
{
    put(out, b"nav")?;
    put_number(out, nav)?;
    put(out, b" runs")?;
    put_number(out, step)?;
    put_pair_line(out, length, index)?;
    Ok(())
}

fn put_pair_line(out: &mut Vec<u8>, length: u64, index: u64) -> Result<(), OutOfMemory>
    ensures { OnOk result (out.new.items ≡ out.old.items ++ (spec.pair_words length index ++ spec.line_end)) }
{
    put_pair(out, length, index)?;
    put(out, b"\n")?;
    Ok(())
}

/// A navigable that is on its way to its target.
pub(crate) fn put_moves(out: &mut Vec<u8>, nav: u64, step: u64) -> Result<(), OutOfMemory>
    ensures { OnOk result (out.new.items ≡ out.old.items ++ spec.moves_line nav step) }
{
    put(out, b"nav")?;
    put_number(out, nav)?;
    put(out, b" moves")?;
    put_number(out, step)?;
    put(out, b"\n")?;
    Ok(())
}

/// A request and how it ended.
pub(crate) fn put_request(
    out: &mut Vec<u8>,
    nr: u64,
    ending: Option<Ending>,
) -> Result<(), OutOfMemory>
    ensures { OnOk result (out.new.items ≡ out.old.items ++ spec.request_line nr ending) }
{
    put(out, b"request")?;
    put_number(out, nr)?;
    put_ending(out, ending)?;
    put(out, b"\n")?;
    Ok(())
}

fn put_ending(out: &mut Vec<u8>, ending: Option<Ending>) -> Result<(), OutOfMemory>
    ensures { OnOk result (out.new.items ≡ out.old.items ++ spec.ending_words ending) }
{
    match ending {
        None => {
            put(out, b" open")?;
            Ok(())
        }
        Some(Ending::Applied) => {
            put(out, b" applied")?;
            Ok(())
        }
        Some(Ending::Refused(reason)) => {
            put(out, b" refused ")?;
            put(out, denial_word(reason).as_bytes())?;
            Ok(())
        }
        Some(Ending::Dropped(cause)) => {
            put(out, b" dropped")?;
            put_cause(out, cause)?;
            Ok(())
        }
    }
}

fn denial_word(reason: Denial) -> &'static str
    ensures { result.now ≡ spec.denial_word reason }
{
    match reason {
        Denial::NoStep => "no-step",
        Denial::NoNavigable => "no-navigable",
        Denial::NotShown => "not-shown",
        Denial::NoDocument => "no-document",
        Denial::NavTaken => "nav-taken",
        Denial::BadAddress => "address",
    }
}

fn put_cause(out: &mut Vec<u8>, cause: Cause) -> Result<(), OutOfMemory>
    ensures { OnOk result (out.new.items ≡ out.old.items ++ spec.cause_words cause) }
{
    match cause {
        Cause::Stay => {
            put(out, b" stay")?;
            Ok(())
        }
        Cause::By(req) => {
            put(out, b" by")?;
            put_number(out, u64::from(req.0))?;
            Ok(())
        }
        Cause::Destroyed(req) => {
            put(out, b" destroyed")?;
            put_number(out, u64::from(req.0))?;
            Ok(())
        }
        Cause::Gone(death) => {
            put(out, b" gone")?;
            put_number(out, u64::from(death.0))?;
            Ok(())
        }
    }
}
