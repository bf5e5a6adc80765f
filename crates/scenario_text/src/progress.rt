//! What a line makes of its place.
ghost use Rattle.std.specs.Prelude.{◌≡◌, IfOk, OnOk};
ghost use Rattle.std.specs.List.{list_all};
ghost use Rattle.scenario_text.specs.Grammar as spec;
ghost use Rattle.scenario_text.specs.Gives.{GivesLine, LeavesPlace};
ghost use Rattle.scenario_text.specs.Added.{with_line};
ghost use Rattle.scenario_text.specs.Standing.{IsSplit, IsStanding, Stands};
ghost use Rattle.scenario_text.specs.Written.{Each, IsWrittenLine, IsWrittenPlace};

use crate::body::played_line;
use crate::built::Built;
use crate::fault::LineError;
use crate::fields::{Split, words};
use crate::heading::{heading_line, plain_settings};
use crate::line::Lines;
use crate::place::{Place, Stage};
use crate::reason::Reason;
use crate::share::StandingLine;
use address::Text;
use std::alloc::Global;
use std::mem;

/// The place after a line that isn't passed over.
#[tactic(auto, using(crate::proofs::WrittenLaws::one_more), unfolding(crate::specs::Grammar::after_counted))]
fn after_counted(
    alloc: Global,
    in_run: bool,
    built: Built,
    place: Place,
    line: StandingLine<'_>,
    split: Split<'_>,
) -> Result<Place, LineError>
    requires written { IsWrittenPlace place }
    requires stands { IsStanding line }
    requires words { IsSplit split line.bytes.now }
    ensures read { GivesLine result (spec.after_counted in_run built place line.entry.bytes.now) }
    ensures written { IfOk result (λ place. IsWrittenPlace place) }
{
    match place {
        Place::Start => {
            if line.bytes == b"session 1".as_slice() {
                Ok(Place::Heading(Stage::Version, plain_settings(alloc)))
            } else {
                Err(LineError::Faulty(Reason::Header))
            }
        }
        Place::Heading(stage, settings) => {
            let next = heading_line(alloc, stage, settings, line.bytes)?;
            if !built.plays_place(&next) {
                return Err(LineError::Faulty(Reason::Unbuilt));
            }
            Ok(next)
        }
        Place::Body(header, mut lines) => {
            let line = played_line(alloc, in_run, built, line, split)?;
            lines.push(line)?;
            Ok(Place::Body(header, lines))
        }
    }
}

/// Adds a line after `open` to those before.
#[tactic(auto, using(crate::proofs::WrittenLaws::one_more))]
fn add_line(
    alloc: Global,
    in_run: bool,
    built: Built,
    lines: &mut Lines,
    line: StandingLine<'_>,
    split: Split<'_>,
) -> Result<(), LineError>
    requires written { Each IsWrittenLine lines.old }
    requires stands { IsStanding line }
    requires words { IsSplit split line.bytes.now }
    ensures read { LeavesPlace result lines.new (with_line in_run built lines.old line.entry.bytes.now) }
    ensures written { OnOk result (Each IsWrittenLine lines.new) }
{
    let added = played_line(alloc, in_run, built, line, split)?;
    lines.push(added)?;
    Ok(())
}

/// Goes on by a line that isn't passed over. The lines after `open` stay where they are.
#[tactic(auto, unfolding(crate::specs::Grammar::after_counted))]
fn go_on(
    alloc: Global,
    in_run: bool,
    built: Built,
    place: &mut Place,
    line: StandingLine<'_>,
    split: Split<'_>,
) -> Result<(), LineError>
    requires written { IsWrittenPlace place.old }
    requires stands { IsStanding line }
    requires words { IsSplit split line.bytes.now }
    ensures read { LeavesPlace result place.new (spec.after_counted in_run built place.old line.entry.bytes.now) }
    ensures written { OnOk result (IsWrittenPlace place.new) }
{
    if let Place::Body(_, lines) = place {
        return add_line(alloc, in_run, built, lines, line, split);
    }
    let before = mem::replace(place, Place::Start);
    *place = after_counted(alloc, in_run, built, before, line, split)?;
    Ok(())
}

/// Whether all bytes of a line are such as it may have.
pub fn is_plain(line: &[u8]) -> bool
    ensures { result ≡ list_all spec.is_plain line.now }
{
    // With no early end, so that many bytes are looked at together.
    let mut plain = true;
    for b in line {
        plain &= 32 <= *b && *b <= 126;
    }
    plain
}

/// Whether a line is empty or a comment.
pub fn is_passed_over(line: &[u8]) -> bool
    ensures { result ≡ spec.is_passed_over line.now }
{
    match line {
        [] => true,
        [first, ..] => *first == b'#',
    }
}

/// Goes on by a line of a text, after which so many bytes of the text follow.
#[tactic(auto, unfolding(crate::specs::Grammar::after_line))]
pub fn take_line(
    alloc: Global,
    in_run: bool,
    built: Built,
    place: &mut Place,
    text: &Text,
    bytes: &[u8],
    after: usize,
) -> Result<(), LineError>
    requires written { IsWrittenPlace place.old }
    requires stands { Stands text.now bytes.now after }
    ensures read { LeavesPlace result place.new (spec.after_line in_run built place.old bytes.now) }
    ensures written { OnOk result (IsWrittenPlace place.new) }
{
    if !is_plain(bytes) {
        return Err(LineError::Faulty(Reason::Bytes));
    }
    if is_passed_over(bytes) {
        return Ok(());
    }
    let split = words(bytes);
    if split.has_empty {
        return Err(LineError::Faulty(Reason::Spaces));
    }
    let line = StandingLine { text, bytes, after };
    go_on(alloc, in_run, built, place, line, split)
}
