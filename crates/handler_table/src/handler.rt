//! `Handler`, a stored unload handler beside its kind.
ghost use Rattle.std.specs.Prelude.{◌≡◌};
ghost use Rattle.handler_table.specs.Answers.{AnswersBy, answer_by};

use crate::ask::Ask;
use log_model::{HandlerKind, Leaving, Verdict};

/// A closure that may be asked of every leaving, and answers by its kind.
#[derive(Drop)]
pub(crate) struct Handler {
    pub(crate) kind: HandlerKind,
    pub(crate) ask: Ask,
    ghost callable: { Ask.IsAlwaysCallable ask },
    ghost by_kind: { AnswersBy (Ask.post ask) kind },
}

impl Handler {
    /// Asks it.
    pub(crate) fn answer(&self, leaving: Leaving) -> Verdict
        ensures { result ≡ answer_by self.now.kind leaving }
    {
        (self.ask)(leaving)
    }
}
