//! `RequestCheck`, the unload check of one request: a contract sees its asked documents and the user's word.
ghost use Rattle.std.specs.Prelude.{◌≡◌, map, IfOk};
ghost use Rattle.unload_check.specs.Checks as spec;

use crate::asked_doc::AskedDoc;
use crate::check::Check;
use address::OutOfMemory;
use log_model::{Docs, Verdict};
use std::alloc::Global;
use std::marker::Model;
use tab_ids::DocId;

/// The unload check of one request.
#[derive(Drop)]
pub(crate) struct RequestCheck {
    asked: Vec<AskedDoc>,
    // What the user said, once the prompt was up.
    stay: Option<bool>,
}

impl Model for RequestCheck {
    ghost use Rattle.unload_check.specs.Checks.{OpenCheck};

    ghost Value = { OpenCheck };

    ghost view = { λ c. record { asked = c.asked.items; stay = c.stay } };
}

impl RequestCheck {
    /// A check that has asked these documents.
    pub(crate) fn new(alloc: Global, docs: &Docs) -> Result<RequestCheck, OutOfMemory>
        ensures { IfOk result (λ check. check ≡ spec.opened docs.now) }
    {
        let asked = ask_all(alloc, docs.as_slice())?;
        Ok(RequestCheck { asked, stay: None })
    }

    /// Whether each asked document has answered or died.
    pub(crate) fn is_settled(&self) -> bool
        ensures { result ≡ spec.is_settled self.now }
    {
        self.asked.iter().all(|asked| asked.is_settled())
    }

    /// What it has come to.
    pub(crate) fn outcome(&self) -> Check
        ensures { result ≡ spec.outcome_of self.now }
    {
        if self.is_settled() {
            decide(prompting_doc(self.asked.as_slice()), self.stay)
        } else {
            Check::Waiting
        }
    }

    /// Notes a document's answer, unless all is settled.
    pub(crate) fn answer(&mut self, doc: DocId, verdict: Verdict)
        ensures { self.new ≡ spec.after_answer doc verdict self.old }
    {
        if !self.is_settled() {
            answer_all(self.asked.as_mut_slice(), doc, verdict);
        }
    }

    /// Notes deaths, unless all is settled.
    pub(crate) fn died(&mut self, docs: &Docs)
        ensures { self.new ≡ spec.after_deaths docs.now self.old }
    {
        if self.is_settled() {
            return;
        }
        bury_all(self.asked.as_mut_slice(), docs);
    }

    /// What it would come to, were these documents to die.
    pub(crate) fn outcome_after(&self, alloc: Global, docs: &Docs) -> Result<Check, OutOfMemory>
        ensures { IfOk result (λ check. check ≡ spec.outcome_of (spec.after_deaths docs.now self.now)) }
    {
        if self.is_settled() {
            return Ok(self.outcome());
        }
        let asked = buried(alloc, self.asked.as_slice(), docs)?;
        let check = RequestCheck {
            asked,
            stay: self.stay,
        };
        Ok(check.outcome())
    }

    /// Notes the user's word where the prompt is up; whether it is.
    pub(crate) fn user(&mut self, stay: bool) -> bool
        ensures up { result ≡ spec.is_prompting (spec.outcome_of self.old) }
        ensures word { self.new ≡ spec.after_user stay self.old }
    {
        let up = is_prompting(self.outcome());
        if up {
            self.stay = Some(stay);
        }
        up
    }
}

/// Each document as newly asked.
fn ask_all(alloc: Global, docs: &[DocId]) -> Result<Vec<AskedDoc>, OutOfMemory>
    ensures { IfOk result (λ asked. asked.items ≡ map spec.newly_asked docs.now) }
{
    let asked = docs.iter().map(|doc| AskedDoc::new(*doc)).collect(alloc)?;
    Ok(asked)
}

/// The same documents, after deaths.
fn buried(alloc: Global, all: &[AskedDoc], docs: &Docs) -> Result<Vec<AskedDoc>, OutOfMemory>
    ensures { IfOk result (λ asked. asked.items ≡ map (spec.dead_doc docs.now) all.now) }
{
    let asked = all
        .iter()
        .map(|asked| asked.after_deaths(docs))
        .collect(alloc)?;
    Ok(asked)
}

/// The lowest-numbered living document that wants a prompt.
fn prompting_doc(all: &[AskedDoc]) -> Option<DocId>
    ensures { result ≡ spec.prompting_doc all.now }
{
    let mut lowest = None;
    for asked in all {
        lowest = lowest_prompting(lowest, asked);
    }
    lowest
}

/// The lowest so far, with one more document.
fn lowest_prompting(lowest: Option<DocId>, asked: &AskedDoc) -> Option<DocId>
    ensures { result ≡ spec.lowest_prompting lowest asked.now }
{
    if !asked.wants_prompt() {
        return lowest;
    }
    match lowest {
        None => Some(asked.doc),
        Some(lowest) => Some(if asked.doc.0 < lowest.0 {
            asked.doc
        } else {
            lowest
        }),
    }
}

/// What a settled check has come to.
fn decide(prompting: Option<DocId>, stay: Option<bool>) -> Check
    ensures { result ≡ spec.decided prompting stay }
{
    match (prompting, stay) {
        (None, _) => Check::Go,
        (Some(doc), None) => Check::Prompt(doc),
        (Some(_), Some(true)) => Check::Stay,
        (Some(_), Some(false)) => Check::Go,
    }
}

/// Whether a prompt is up.
fn is_prompting(check: Check) -> bool
    ensures { result ≡ spec.is_prompting check }
{
    match check {
        Check::Prompt(_) => true,
        Check::Waiting => false,
        Check::Go => false,
        Check::Stay => false,
    }
}

/// Notes a document's answer.
fn answer_all(all: &mut [AskedDoc], doc: DocId, verdict: Verdict)
    ensures { all.new ≡ map (spec.answered_doc doc verdict) all.old }
{
    for asked in all.iter_mut() {
        *asked = asked.after_answer(doc, verdict);
    }
}

/// Notes deaths.
fn bury_all(all: &mut [AskedDoc], docs: &Docs)
    ensures { all.new ≡ map (spec.dead_doc docs.now) all.old }
{
    for asked in all.iter_mut() {
        *asked = asked.after_deaths(docs);
    }
}
