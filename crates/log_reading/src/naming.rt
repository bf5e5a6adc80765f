//! Words that name things, and words of enums.
ghost use Rattle.std.specs.Prelude.{◌≡◌, IfOk, codes};
ghost use Rattle.log_reading.specs.Fields as spec;
ghost use Rattle.log_reading.specs.Gives.{Gives};
ghost use Rattle.log_reading.specs.Readable.{IsU32, IsU64, IsEntry, IsActor, IsWhy};

use crate::cut::cut;
use crate::fault::Fault;
use crate::number::{large_named_of, large_of, named_of, plain_of};
use log_model::{Actor, Denial, LeaveCause, Mode, Why};
use tab_ids::{Death, DocId, EntryId, Epoch, JobId, NavId, ProcId, ReqId, StateId, Step};

/// A navigable by its number alone.
#[tactic(auto, unfolding(crate::specs::Fields::plain_nav_of))]
pub fn plain_nav_of(word: &[u8]) -> Result<NavId, Fault>
    ensures read { Gives result (spec.plain_nav_of word.now) }
    ensures fits { IfOk result (λ named. IsU32 named.0) }
{
    let number = plain_of(word)?;
    Ok(NavId(number))
}

/// A step.
#[tactic(auto, unfolding(crate::specs::Fields::step_of))]
pub fn step_of(word: &[u8]) -> Result<Step, Fault>
    ensures read { Gives result (spec.step_of word.now) }
    ensures fits { IfOk result (λ named. IsU32 named.0) }
{
    let number = plain_of(word)?;
    Ok(Step(number))
}

/// An epoch.
#[tactic(auto, unfolding(crate::specs::Fields::epoch_of))]
pub fn epoch_of(word: &[u8]) -> Result<Epoch, Fault>
    ensures read { Gives result (spec.epoch_of word.now) }
    ensures fits { IfOk result (λ named. IsU64 named.0) }
{
    let number = large_of(word)?;
    Ok(Epoch(number))
}

/// A navigable.
#[tactic(auto, unfolding(crate::specs::Fields::nav_of))]
pub fn nav_of(word: &[u8]) -> Result<NavId, Fault>
    ensures read { Gives result (spec.nav_of word.now) }
    ensures fits { IfOk result (λ named. IsU32 named.0) }
{
    let number = named_of(word, b'n')?;
    Ok(NavId(number))
}

/// A document state.
#[tactic(auto, unfolding(crate::specs::Fields::state_of))]
pub fn state_of(word: &[u8]) -> Result<StateId, Fault>
    ensures read { Gives result (spec.state_of word.now) }
    ensures fits { IfOk result (λ named. IsU32 named.0) }
{
    let number = named_of(word, b's')?;
    Ok(StateId(number))
}

/// A document process.
#[tactic(auto, unfolding(crate::specs::Fields::proc_of))]
pub fn proc_of(word: &[u8]) -> Result<ProcId, Fault>
    ensures read { Gives result (spec.proc_of word.now) }
    ensures fits { IfOk result (λ named. IsU32 named.0) }
{
    let number = named_of(word, b'p')?;
    Ok(ProcId(number))
}

/// A request.
#[tactic(auto, unfolding(crate::specs::Fields::req_of))]
pub fn req_of(word: &[u8]) -> Result<ReqId, Fault>
    ensures read { Gives result (spec.req_of word.now) }
    ensures fits { IfOk result (λ named. IsU32 named.0) }
{
    let number = named_of(word, b'r')?;
    Ok(ReqId(number))
}

/// A death of a process.
#[tactic(auto, unfolding(crate::specs::Fields::death_of))]
pub fn death_of(word: &[u8]) -> Result<Death, Fault>
    ensures read { Gives result (spec.death_of word.now) }
    ensures fits { IfOk result (λ named. IsU32 named.0) }
{
    let number = named_of(word, b'x')?;
    Ok(Death(number))
}

/// A document.
#[tactic(auto, unfolding(crate::specs::Fields::doc_of))]
pub fn doc_of(word: &[u8]) -> Result<DocId, Fault>
    ensures read { Gives result (spec.doc_of word.now) }
    ensures fits { IfOk result (λ named. IsU64 named.0) }
{
    let number = large_named_of(word, b'd')?;
    Ok(DocId(number))
}

/// An order to a process.
#[tactic(auto, unfolding(crate::specs::Fields::job_of))]
pub fn job_of(word: &[u8]) -> Result<JobId, Fault>
    ensures read { Gives result (spec.job_of word.now) }
    ensures fits { IfOk result (λ named. IsU64 named.0) }
{
    let number = large_named_of(word, b'j')?;
    Ok(JobId(number))
}

/// An entry: its maker, and which of that maker's entries it is.
#[tactic(auto, unfolding(crate::specs::Fields::entry_of))]
pub fn entry_of(word: &[u8]) -> Result<EntryId, Fault>
    ensures read { Gives result (spec.entry_of word.now) }
    ensures fits { IfOk result (λ entry. IsEntry entry) }
{
    let (front, rest) = cut(word, b'.');
    let maker = large_named_of(front, b'e')?;
    let nr = plain_of(rest)?;
    Ok(EntryId { maker, nr })
}

/// Who acts.
#[tactic(auto, unfolding(crate::specs::Fields::actor_of))]
pub fn actor_of(word: &[u8]) -> Result<Actor, Fault>
    ensures read { Gives result (spec.actor_of word.now) }
    ensures fits { IfOk result (λ actor. IsActor actor) }
{
    if word == b"start".as_slice() {
        return Ok(Actor::Start);
    }
    if word == b"ui".as_slice() {
        return Ok(Actor::Ui);
    }
    if word == b"co".as_slice() {
        return Ok(Actor::Coord);
    }
    let proc = proc_of(word)?;
    Ok(Actor::Proc(proc))
}

fn begins_with(letter: u8, word: &[u8]) -> bool
    ensures { result ≡ spec.begins_with letter word.now }
{
    match word {
        [] => false,
        [first, ..] => *first == letter,
    }
}

/// What an order was sent for.
#[tactic(auto, unfolding(crate::specs::Fields::why_of))]
pub fn why_of(word: &[u8]) -> Result<Why, Fault>
    ensures read { Gives result (spec.why_of word.now) }
    ensures fits { IfOk result (λ why. IsWhy why) }
{
    if begins_with(b'r', word) {
        let req = req_of(word)?;
        return Ok(Why::Req(req));
    }
    if begins_with(b'x', word) {
        let death = death_of(word)?;
        return Ok(Why::Death(death));
    }
    if word == b"evict".as_slice() {
        Ok(Why::Evict)
    } else {
        Err(Fault::NoRow)
    }
}

/// Why a request was refused.
#[tactic(auto, unfolding(crate::specs::Fields::denial_of))]
pub fn denial_of(word: &[u8]) -> Result<Denial, Fault>
    ensures { Gives result (spec.denial_of word.now) }
{
    if word == b"no-step".as_slice() {
        Ok(Denial::NoStep)
    } else if word == b"no-navigable".as_slice() {
        Ok(Denial::NoNavigable)
    } else if word == b"not-shown".as_slice() {
        Ok(Denial::NotShown)
    } else if word == b"no-document".as_slice() {
        Ok(Denial::NoDocument)
    } else if word == b"nav-taken".as_slice() {
        Ok(Denial::NavTaken)
    } else if word == b"address".as_slice() {
        Ok(Denial::BadAddress)
    } else {
        Err(Fault::NoRow)
    }
}

/// Why a document is asked.
#[tactic(auto, unfolding(crate::specs::Fields::leave_cause_of))]
pub fn leave_cause_of(word: &[u8]) -> Result<LeaveCause, Fault>
    ensures { Gives result (spec.leave_cause_of word.now) }
{
    if word == b"load".as_slice() {
        Ok(LeaveCause::Load)
    } else if word == b"traverse".as_slice() {
        Ok(LeaveCause::Traverse)
    } else if word == b"reload".as_slice() {
        Ok(LeaveCause::Reload)
    } else {
        Err(Fault::NoRow)
    }
}

/// How a load is handled.
#[tactic(auto, unfolding(crate::specs::Fields::mode_of))]
pub fn mode_of(word: &[u8]) -> Result<Mode, Fault>
    ensures { Gives result (spec.mode_of word.now) }
{
    if word == b"auto".as_slice() {
        Ok(Mode::Auto)
    } else if word == b"push".as_slice() {
        Ok(Mode::Push)
    } else if word == b"replace".as_slice() {
        Ok(Mode::Replace)
    } else {
        Err(Fault::NoRow)
    }
}

/// One of two words: whether it is the first.
#[tactic(auto, unfolding(crate::specs::Fields::either_of))]
pub fn either_of(yes: &[u8], no: &[u8], word: &[u8]) -> Result<bool, Fault>
    ensures { Gives result (spec.either_of yes.now no.now word.now) }
{
    if word == yes {
        Ok(true)
    } else if word == no {
        Ok(false)
    } else {
        Err(Fault::NoRow)
    }
}
