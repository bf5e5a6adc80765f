//! The lines of requests.
ghost use Rattle.std.specs.Prelude.{◌≡◌, IfOk};
ghost use Rattle.scenario_text.specs.Words.{shown, split_words, words_of};
ghost use Rattle.scenario_text.specs.Body as spec;
ghost use Rattle.scenario_text.specs.Gives.{GivesLine};
ghost use Rattle.scenario_text.specs.Standing.{IsStanding};
ghost use Rattle.scenario_text.specs.Written.{IsWrittenLine};

use crate::fault::LineError;
use crate::fields::Fields;
use crate::line::ScenarioLine;
use crate::number::delta_of;
use crate::readings::{address_of, child_of, memo_of, mode_of, nav_of, text_of};
use crate::reason::Reason;
use crate::share::StandingLine;
use address::Text;
use log_model::{Action, Request};
use std::alloc::Global;
use tab_ids::NavId;

fn poke(nav: NavId, action: Action) -> ScenarioLine
    ensures { result ≡ ScenarioLine.Ask (Request.Poke nav action) }
{
    ScenarioLine::Ask(Request::Poke { nav, action })
}

/// NAV, alone.
#[tactic(auto, unfolding(crate::specs::Body::nav_alone))]
fn nav_alone(fields: Fields<'_>) -> Result<NavId, LineError>
    ensures { GivesLine result (spec.nav_alone (shown fields.entry)) }
{
    match fields {
        Fields::One(nav) => nav_of(nav),
        Fields::Zero | Fields::Two(_, _) | Fields::Three(_, _, _) | Fields::More => {
            Err(LineError::Faulty(Reason::Count))
        }
    }
}

/// NAV CHILD.
#[tactic(auto, unfolding(crate::specs::Body::nav_and_child))]
fn nav_and_child(fields: Fields<'_>) -> Result<(NavId, NavId), LineError>
    ensures { GivesLine result (spec.nav_and_child (shown fields.entry)) }
{
    match fields {
        Fields::Two(nav, child) => {
            let nav = nav_of(nav)?;
            let child = child_of(child)?;
            Ok((nav, child))
        }
        Fields::Zero | Fields::One(_) | Fields::Three(_, _, _) | Fields::More => {
            Err(LineError::Faulty(Reason::Count))
        }
    }
}

/// NAV MEMO, or NAV MEMO REF.
#[tactic(auto, using(crate::proofs::StandingLaws::words_stand), unfolding(crate::specs::Body::entry_fields))]
fn entry_fields(
    line: StandingLine<'_>,
    fields: Fields<'_>,
) -> Result<(NavId, Option<Text>, Option<Text>), LineError>
    requires stands { IsStanding line }
    requires fields { shown fields ≡ (split_words (words_of line.bytes.now)).1 }
    ensures { GivesLine result (spec.entry_fields (shown fields.entry)) }
{
    match fields {
        Fields::Two(nav, memo) => {
            let nav = nav_of(nav)?;
            let memo = memo_of(line, memo, 0)?;
            Ok((nav, memo, None))
        }
        Fields::Three(nav, memo, reference) => {
            let nav = nav_of(nav)?;
            let memo = memo_of(line, memo, reference.len() + 1)?;
            let reference = text_of(line, reference)?;
            Ok((nav, memo, Some(reference)))
        }
        Fields::Zero | Fields::One(_) | Fields::More => Err(LineError::Faulty(Reason::Count)),
    }
}

#[tactic(auto, using(crate::proofs::WrittenLaws::addresses), unfolding(crate::specs::Body::load_line))]
pub fn load_line(alloc: Global, fields: Fields<'_>) -> Result<ScenarioLine, LineError>
    ensures read { GivesLine result (spec.load_line (shown fields.entry)) }
    ensures written { IfOk result (λ line. IsWrittenLine line) }
{
    match fields {
        Fields::Three(nav, mode, address) => {
            let nav = nav_of(nav)?;
            let mode = mode_of(mode)?;
            let address = address_of(alloc, address)?;
            Ok(ScenarioLine::Ask(Request::Load { nav, mode, address }))
        }
        Fields::Zero | Fields::One(_) | Fields::Two(_, _) | Fields::More => {
            Err(LineError::Faulty(Reason::Count))
        }
    }
}

#[tactic(auto, unfolding(crate::specs::Body::go_line))]
pub fn go_line(fields: Fields<'_>) -> Result<ScenarioLine, LineError>
    ensures read { GivesLine result (spec.go_line (shown fields.entry)) }
    ensures written { IfOk result (λ line. IsWrittenLine line) }
{
    match fields {
        Fields::One(delta) => {
            let delta = delta_of(delta)?;
            Ok(ScenarioLine::Ask(Request::Go { delta }))
        }
        Fields::Zero | Fields::Two(_, _) | Fields::Three(_, _, _) | Fields::More => {
            Err(LineError::Faulty(Reason::Count))
        }
    }
}

#[tactic(auto, unfolding(crate::specs::Body::reload_line))]
pub fn reload_line(fields: Fields<'_>) -> Result<ScenarioLine, LineError>
    ensures read { GivesLine result (spec.reload_line (shown fields.entry)) }
    ensures written { IfOk result (λ line. IsWrittenLine line) }
{
    let nav = nav_alone(fields)?;
    Ok(ScenarioLine::Ask(Request::Reload { nav }))
}

#[tactic(auto, unfolding(crate::specs::Body::push_line))]
pub fn push_line(line: StandingLine<'_>, fields: Fields<'_>) -> Result<ScenarioLine, LineError>
    requires stands { IsStanding line }
    requires fields { shown fields ≡ (split_words (words_of line.bytes.now)).1 }
    ensures read { GivesLine result (spec.push_line (shown fields.entry)) }
    ensures written { IfOk result (λ line. IsWrittenLine line) }
{
    let (nav, memo, reference) = entry_fields(line, fields)?;
    Ok(poke(nav, Action::Push { memo, reference }))
}

#[tactic(auto, unfolding(crate::specs::Body::replace_line))]
pub fn replace_line(line: StandingLine<'_>, fields: Fields<'_>) -> Result<ScenarioLine, LineError>
    requires stands { IsStanding line }
    requires fields { shown fields ≡ (split_words (words_of line.bytes.now)).1 }
    ensures read { GivesLine result (spec.replace_line (shown fields.entry)) }
    ensures written { IfOk result (λ line. IsWrittenLine line) }
{
    let (nav, memo, reference) = entry_fields(line, fields)?;
    Ok(poke(nav, Action::Replace { memo, reference }))
}

#[tactic(auto, using(crate::proofs::StandingLaws::words_stand), unfolding(crate::specs::Body::fragment_line))]
pub fn fragment_line(line: StandingLine<'_>, fields: Fields<'_>) -> Result<ScenarioLine, LineError>
    requires stands { IsStanding line }
    requires fields { shown fields ≡ (split_words (words_of line.bytes.now)).1 }
    ensures read { GivesLine result (spec.fragment_line (shown fields.entry)) }
    ensures written { IfOk result (λ line. IsWrittenLine line) }
{
    match fields {
        Fields::Two(nav, text) => {
            let nav = nav_of(nav)?;
            let text = text_of(line, text)?;
            Ok(poke(nav, Action::Fragment { text }))
        }
        Fields::Zero | Fields::One(_) | Fields::Three(_, _, _) | Fields::More => {
            Err(LineError::Faulty(Reason::Count))
        }
    }
}

#[tactic(auto, unfolding(crate::specs::Body::frame_line))]
pub fn frame_line(fields: Fields<'_>) -> Result<ScenarioLine, LineError>
    ensures read { GivesLine result (spec.frame_line (shown fields.entry)) }
    ensures written { IfOk result (λ line. IsWrittenLine line) }
{
    let (nav, child) = nav_and_child(fields)?;
    Ok(poke(nav, Action::AddFrame { nav: child }))
}

#[tactic(auto, unfolding(crate::specs::Body::remove_line))]
pub fn remove_line(fields: Fields<'_>) -> Result<ScenarioLine, LineError>
    ensures read { GivesLine result (spec.remove_line (shown fields.entry)) }
    ensures written { IfOk result (λ line. IsWrittenLine line) }
{
    let (nav, child) = nav_and_child(fields)?;
    Ok(poke(nav, Action::RemoveFrame { nav: child }))
}

#[tactic(auto, unfolding(crate::specs::Body::docgo_line))]
pub fn docgo_line(fields: Fields<'_>) -> Result<ScenarioLine, LineError>
    ensures read { GivesLine result (spec.docgo_line (shown fields.entry)) }
    ensures written { IfOk result (λ line. IsWrittenLine line) }
{
    match fields {
        Fields::Two(nav, delta) => {
            let nav = nav_of(nav)?;
            let delta = delta_of(delta)?;
            Ok(poke(nav, Action::Go { delta }))
        }
        Fields::Zero | Fields::One(_) | Fields::Three(_, _, _) | Fields::More => {
            Err(LineError::Faulty(Reason::Count))
        }
    }
}

#[tactic(auto, unfolding(crate::specs::Body::edit_line))]
pub fn edit_line(fields: Fields<'_>) -> Result<ScenarioLine, LineError>
    ensures read { GivesLine result (spec.edit_line (shown fields.entry)) }
    ensures written { IfOk result (λ line. IsWrittenLine line) }
{
    let nav = nav_alone(fields)?;
    Ok(poke(nav, Action::Edit))
}
