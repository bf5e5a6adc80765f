//! `Question`, which a contract sees as a log has it: the document, the slot of its unload handler, and the cause.
ghost use Rattle.std.specs.Prelude.{◌≡◌};
ghost use Rattle.leave_questions.specs.Questions.{question_to};

use indexmap::IndexMap;
use log_model::LeaveCause;
use std::marker::Model;
use tab_ids::DocId;

/// A document that is to be asked whether it may be left, the slot of its unload handler, and why it is to leave.
#[derive(Clone, Copy)]
pub struct Question {
    pub doc: DocId,
    pub slot: u8,
    pub cause: LeaveCause,
}

impl Model for Question {
    ghost use Rattle.log_model.specs.Orders as log;

    ghost Value = { log.Question };

    ghost view = { λ q. (q.doc, q.slot, q.cause) };

    ghost inverse = { λ q. record { doc = q.0; slot = q.1; cause = q.2 } };
}

/// The question to a document, if it has a handler.
pub(crate) fn question_to(
    slots: &IndexMap<DocId, u8>,
    cause: LeaveCause,
    doc: DocId,
) -> Option<Question>
    ensures { result ≡ question_to slots.now.entries cause doc }
{
    let slot = *slots.get(&doc)?;
    Some(Question { doc, slot, cause })
}
