//! `UnloadCheck`, which a contract sees as the list of all requests' checks.
ghost use Rattle.std.specs.Prelude.{◌≡◌, [], IfOk, OnOk, OnErr};
ghost use Rattle.unload_check.specs.Checks as spec;

use crate::check::Check;
use crate::request_check::RequestCheck;
use address::OutOfMemory;
use indexmap::IndexMap;
use log_model::{Docs, Verdict};
use std::alloc::Global;
use std::marker::Model;
use tab_ids::{DocId, ReqId};

/// The unload checks of all requests.
#[derive(Drop)]
pub struct UnloadCheck {
    checks: IndexMap<ReqId, RequestCheck>,
}

impl Model for UnloadCheck {
    ghost use Rattle.std.specs.Prelude.{List};
    ghost use Rattle.tab_ids.specs.declared.ReqId.{ReqId};
    ghost use Rattle.unload_check.specs.Checks.{OpenCheck};

    ghost Value = { List (ReqId × OpenCheck) };

    ghost view = { λ u. u.checks.entries };
}

impl UnloadCheck {
    /// No check. It takes no memory.
    pub fn new(alloc: Global) -> UnloadCheck
        ensures { result ≡ [] }
    {
        UnloadCheck {
            checks: IndexMap::new(alloc),
        }
    }

    /// Begins the check of a request, which has asked these documents.
    pub fn begin(&mut self, req: ReqId, asked: Docs) -> Result<(), OutOfMemory>
        ensures ok { OnOk result (self.new ≡ spec.begun req (spec.opened asked) self.old) }
        ensures others { OnOk result (spec.KeepsOthers req self.old self.new) }
        ensures err { OnErr result (self.new ≡ self.old) }
    {
        begin_in(&mut self.checks, req, &asked)
    }

    /// Notes what an asked document answered.
    ///
    /// Once each asked document has answered or died, this changes nothing.
    pub fn answer(&mut self, req: ReqId, doc: DocId, verdict: Verdict)
        ensures answer { self.new ≡ spec.changed req (spec.after_answer doc verdict) self.old }
        ensures others { spec.KeepsOthers req self.old self.new }
        ensures settled { spec.KeepsSettled self.old self.new }
    {
        answer_in(&mut self.checks, req, doc, verdict);
    }

    /// Notes that documents died or were discarded, all at once: in each check, a document that did counts as leaving.
    ///
    /// Of a check whose asked documents have all answered or died, this changes nothing.
    pub fn died(&mut self, docs: &Docs)
        ensures deaths { self.new ≡ spec.after_all_deaths docs.now self.old }
        ensures settled { spec.KeepsSettled self.old self.new }
    {
        die_in(&mut self.checks, docs);
    }

    /// Notes what the user answered to the request's prompt; false where none is up.
    pub fn user(&mut self, req: ReqId, stay: bool) -> bool
        ensures up { result ≡ spec.is_prompt_up req self.old }
        ensures word { self.new ≡ spec.changed req (spec.after_user stay) self.old }
        ensures others { spec.KeepsOthers req self.old self.new }
    {
        user_in(&mut self.checks, req, stay)
    }

    /// What the request's check has come to.
    pub fn outcome(&self, req: ReqId) -> Option<Check>
        ensures { result ≡ spec.outcome_at req self.now }
    {
        match self.checks.get(&req) {
            Some(check) => Some(check.outcome()),
            None => None,
        }
    }

    /// What the request's check would come to, were these documents to die or be discarded, all at once. The checks stay as they are.
    pub fn outcome_after(
        &self,
        alloc: Global,
        req: ReqId,
        docs: &Docs,
    ) -> Result<Option<Check>, OutOfMemory>
        ensures { IfOk result (λ check. check ≡ spec.outcome_at req (spec.after_all_deaths docs.now self.now)) }
    {
        outcome_in(&self.checks, alloc, req, docs)
    }

    /// Ends the check of a request.
    pub fn end(&mut self, req: ReqId)
        ensures ended { self.new ≡ spec.ended req self.old }
        ensures others { spec.KeepsOthers req self.old self.new }
    {
        end_in(&mut self.checks, req);
    }
}

/// Begins a check.
fn begin_in(
    checks: &mut IndexMap<ReqId, RequestCheck>,
    req: ReqId,
    asked: &Docs,
) -> Result<(), OutOfMemory>
    ensures ok { OnOk result (checks.new.entries ≡ spec.begun req (spec.opened asked.now) checks.old.entries) }
    ensures err { OnErr result (checks.new.entries ≡ checks.old.entries) }
{
    let check = RequestCheck::new(*checks.allocator(), asked)?;
    checks.insert(req, check)?;
    Ok(())
}

/// Notes an answer.
fn answer_in(checks: &mut IndexMap<ReqId, RequestCheck>, req: ReqId, doc: DocId, verdict: Verdict)
    ensures { checks.new.entries ≡ spec.changed req (spec.after_answer doc verdict) checks.old.entries }
{
    match checks.get_mut(&req) {
        Some(check) => check.answer(doc, verdict),
        None => (),
    }
}

/// Notes the user's word.
fn user_in(checks: &mut IndexMap<ReqId, RequestCheck>, req: ReqId, stay: bool) -> bool
    ensures up { result ≡ spec.is_prompt_up req checks.old.entries }
    ensures word { checks.new.entries ≡ spec.changed req (spec.after_user stay) checks.old.entries }
{
    match checks.get_mut(&req) {
        Some(check) => check.user(stay),
        None => false,
    }
}

/// Notes deaths.
fn die_in(checks: &mut IndexMap<ReqId, RequestCheck>, docs: &Docs)
    ensures { checks.new.entries ≡ spec.after_all_deaths docs.now checks.old.entries }
{
    for place in 0..checks.len() {
        die_at(checks, place, docs);
    }
}

/// Notes deaths in the check at a place.
fn die_at(checks: &mut IndexMap<ReqId, RequestCheck>, place: usize, docs: &Docs)
    ensures { checks.new.entries ≡ spec.changed_at (spec.after_deaths docs.now) place checks.old.entries }
{
    match checks.get_index_mut(place) {
        Some(check) => check.died(docs),
        None => (),
    }
}

/// What a check would come to after deaths.
fn outcome_in(
    checks: &IndexMap<ReqId, RequestCheck>,
    alloc: Global,
    req: ReqId,
    docs: &Docs,
) -> Result<Option<Check>, OutOfMemory>
    ensures { IfOk result (λ check. check ≡ spec.outcome_at req (spec.after_all_deaths docs.now checks.now.entries)) }
{
    match checks.get(&req) {
        Some(check) => {
            let outcome = check.outcome_after(alloc, docs)?;
            Ok(Some(outcome))
        }
        None => Ok(None),
    }
}

/// Ends a check.
fn end_in(checks: &mut IndexMap<ReqId, RequestCheck>, req: ReqId)
    ensures { checks.new.entries ≡ spec.ended req checks.old.entries }
{
    // Its clause says that the numbers are distinct.
    let _len = checks.len();
    let _ended = checks.shift_remove(&req);
}
