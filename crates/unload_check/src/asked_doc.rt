//! `AskedDoc`, a document whose unload handler was asked.
ghost use Rattle.std.specs.Prelude.{◌≡◌};
ghost use Rattle.std.specs.List.{list_any};
ghost use Rattle.unload_check.specs.Checks as spec;

use log_model::{Docs, Verdict};
use tab_ids::DocId;

/// An asked document, what it has answered, and whether it died.
#[derive(Clone, Copy)]
pub(crate) struct AskedDoc {
    pub(crate) doc: DocId,
    pub(crate) verdict: Option<Verdict>,
    pub(crate) died: bool,
}

impl AskedDoc {
    /// It was asked, and nothing is known yet.
    pub(crate) fn new(doc: DocId) -> AskedDoc
        ensures { result ≡ spec.newly_asked doc }
    {
        AskedDoc {
            doc,
            verdict: None,
            died: false,
        }
    }

    /// Whether nothing is to be waited for.
    pub(crate) fn is_settled(&self) -> bool
        ensures { result ≡ spec.is_settled_doc self.now }
    {
        self.verdict.is_some() || self.died
    }

    /// Whether it lives and wants a prompt.
    pub(crate) fn wants_prompt(&self) -> bool
        ensures { result ≡ spec.wants_prompt self.now }
    {
        match self.verdict {
            Some(Verdict::Prompt) => !self.died,
            Some(Verdict::Leave) => false,
            None => false,
        }
    }

    /// The same, after an answer.
    pub(crate) fn after_answer(self, doc: DocId, verdict: Verdict) -> AskedDoc
        ensures { result ≡ spec.answered_doc doc verdict self }
    {
        if self.doc == doc {
            AskedDoc {
                doc: self.doc,
                verdict: Some(verdict),
                died: self.died,
            }
        } else {
            self
        }
    }

    /// The same, after deaths.
    pub(crate) fn after_deaths(self, docs: &Docs) -> AskedDoc
        ensures { result ≡ spec.dead_doc docs.now self }
    {
        if has_doc(docs, self.doc) {
            AskedDoc {
                doc: self.doc,
                verdict: self.verdict,
                died: true,
            }
        } else {
            self
        }
    }
}

/// Whether a document is in a list.
fn has_doc(docs: &Docs, doc: DocId) -> bool
    ensures { result ≡ list_any (spec.is_doc doc) docs.now }
{
    docs.as_slice().iter().any(|other| doc == *other)
}
