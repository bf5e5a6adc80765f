//! `summary`, the summary of a world's log.
ghost use Rattle.std.specs.Prelude.{◌≡◌, ◌++◌, false, IfOk, OnOk};
ghost use Rattle.std.specs.List.{count_by};
ghost use Rattle.log_model.specs.Logs.{seen_of};
ghost use Rattle.report_text.specs.Reports.{number_word};
ghost use Rattle.report_text.specs.Summary as spec;

use crate::pieces::{put, put_number, put_quiet, put_step};
use crate::writing::stands_at;
use address::{OutOfMemory, Text};
use log_model::Ending;
use std::alloc::Global;
use world::World;

/// The summary of a world's log, three lines: how many requests there were and how they ended, the current step with length and index, and whether nothing is in transit and no prompt is up. It is made of what the world keeps beside the log.
#[tactic(auto, using(crate::proofs::WorldReport::summary_is))]
pub fn summary(alloc: Global, world: &World) -> Result<Text, OutOfMemory>
    requires open { world.now.closed ≡ false }
    ensures { IfOk result (λ text. text ≡ spec.summary_of world.now.log) }
{
    let mut out = Vec::new(alloc);
    write(&mut out, world)?;
    Ok(Text::of(alloc, out.as_slice())?)
}

fn write(out: &mut Vec<u8>, world: &World) -> Result<(), OutOfMemory>
    requires open { world.now.closed ≡ false }
    ensures { OnOk result (out.new.items ≡ out.old.items ++ spec.summary_with (seen_of world.now.log)) }
{
    let at = stands_at(world);
    put_requests(out, world.endings())?;
    put_step(out, at.step, at.length, at.index)?;
    put_quiet(out, world.is_quiet())?;
    Ok(())
}

/// How many requests there were, and how many ended in each way.
fn put_requests(out: &mut Vec<u8>, endings: &[Option<Ending>]) -> Result<(), OutOfMemory>
    ensures { OnOk result (out.new.items ≡ out.old.items ++ spec.requests_line endings.now) }
{
    put(out, b"requests")?;
    put_number(out, endings.len() as u64)?;
    put_outcomes(out, endings)?;
    put(out, b"\n")?;
    Ok(())
}

fn put_outcomes(out: &mut Vec<u8>, endings: &[Option<Ending>]) -> Result<(), OutOfMemory>
    ensures { OnOk result (out.new.items ≡ out.old.items ++ spec.outcome_words endings.now) }
{
    put_count(out, b" applied", applied(endings))?;
    put_count(out, b" refused", refused(endings))?;
    put_count(out, b" dropped", dropped(endings))?;
    Ok(())
}

/// A count after its word.
fn put_count(out: &mut Vec<u8>, word: &[u8], count: usize) -> Result<(), OutOfMemory>
    ensures { OnOk result (out.new.items ≡ out.old.items ++ (word.now ++ number_word count)) }
{
    put(out, word)?;
    put_number(out, count as u64)?;
    Ok(())
}

fn applied(endings: &[Option<Ending>]) -> usize
    ensures { result ≡ count_by spec.is_applied endings.now }
{
    endings
        .iter()
        .filter(|ending| matches!(ending, Some(Ending::Applied)))
        .count()
}

fn refused(endings: &[Option<Ending>]) -> usize
    ensures { result ≡ count_by spec.is_refused endings.now }
{
    endings
        .iter()
        .filter(|ending| matches!(ending, Some(Ending::Refused(_))))
        .count()
}

fn dropped(endings: &[Option<Ending>]) -> usize
    ensures { result ≡ count_by spec.is_dropped endings.now }
{
    endings
        .iter()
        .filter(|ending| matches!(ending, Some(Ending::Dropped(_))))
        .count()
}
