//! Stored unload handlers: what they are asked, and what each kind answers.
ghost use Rattle.std.specs.Prelude.{◌≡◌};
ghost use Rattle.log_model.specs.Handlers as spec;

/// Why a document is asked to leave.
#[derive(Clone, Copy, PartialEq, Eq, Debug)]
pub enum LeaveCause {
    Load,
    Traverse,
    Reload,
}

/// What a handler is told: whether its document has unsaved edits, and why it is to leave.
#[derive(Clone, Copy, PartialEq, Eq, Debug)]
pub struct Leaving {
    pub dirty: bool,
    pub cause: LeaveCause,
}

/// A kind of unload handler.
#[derive(Clone, Copy, PartialEq, Eq, Debug)]
pub enum HandlerKind {
    /// Wants a prompt where the document is dirty.
    Dirty,
    /// Wants a prompt where the document is dirty and the cause is no traversal.
    Draft,
    /// Always wants a prompt.
    Always,
}

/// What an asked document answers.
#[derive(Clone, Copy, PartialEq, Eq, Debug)]
pub enum Verdict {
    Leave,
    Prompt,
}

/// Whether a handler of this kind wants a prompt.
pub fn prompts(kind: HandlerKind, leaving: Leaving) -> bool
    ensures { result ≡ spec.prompts kind leaving }
{
    match kind {
        HandlerKind::Always => true,
        HandlerKind::Dirty => leaving.dirty,
        HandlerKind::Draft => match leaving.cause {
            LeaveCause::Traverse => false,
            LeaveCause::Load | LeaveCause::Reload => leaving.dirty,
        },
    }
}
