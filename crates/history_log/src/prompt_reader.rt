//! `PromptReader`, what the rows of a log say of one request's prompt.
ghost use Rattle.std.specs.Prelude.{◌≡◌};
ghost use Rattle.history_log.specs.Prompts as spec;
ghost use Rattle.history_log.specs.Prompts.{prompt_after, no_prompt, reads_up};

use log_model::RowKind;
use tab_ids::ReqId;

/// What the rows so far say of one request's prompt.
#[derive(Clone, Copy)]
pub struct PromptReader {
    /// How many requests are still to be accepted, with this one; 0 once it is.
    left: u32,
    is_prompted: bool,
    is_answered: bool,
    is_dropped: bool,
}

impl PromptReader {
    /// Before any row.
    pub fn new(req: ReqId) -> PromptReader
        ensures { result ≡ no_prompt req }
    {
        PromptReader {
            left: req.0,
            is_prompted: false,
            is_answered: false,
            is_dropped: false,
        }
    }

    /// One more row, for the request of this number.
    pub fn note(&mut self, req: ReqId, row: &RowKind)
        ensures { self.new ≡ prompt_after req self.old row.now }
    {
        match row {
            RowKind::Accepted { .. } => self.left = self.left.saturating_sub(1),
            RowKind::Prompted { req: told, .. } => {
                if *told == req && self.left == 0 {
                    self.is_prompted = true;
                }
            }
            RowKind::Answered { req: told, .. } => {
                if *told == req && self.left == 0 {
                    self.is_answered = true;
                }
            }
            RowKind::Applied { req: told, .. } => {
                if *told == req && self.left == 0 {
                    self.is_dropped = false;
                }
            }
            RowKind::Refused { req: told, .. } => {
                if *told == req && self.left == 0 {
                    self.is_dropped = false;
                }
            }
            RowKind::Dropped { req: told, .. } => {
                if *told == req && self.left == 0 {
                    self.is_dropped = true;
                }
            }
            RowKind::Opened { .. }
            | RowKind::Started { .. }
            | RowKind::Sent { .. }
            | RowKind::Taken { .. }
            | RowKind::Finished { .. }
            | RowKind::Made { .. }
            | RowKind::Delivered { .. }
            | RowKind::Killed { .. }
            | RowKind::Evicted { .. } => {}
        }
    }

    /// Whether the user is asked, and neither answered nor was the request dropped.
    pub fn is_up(&self) -> bool
        ensures { result ≡ reads_up self.now }
    {
        self.is_prompted && !self.is_answered && !self.is_dropped
    }
}

/// The request that a row asks the user about.
pub fn prompted_by(row: &RowKind) -> Option<ReqId>
    ensures { result ≡ spec.prompted_by row.now }
{
    match row {
        RowKind::Prompted { req, .. } => Some(*req),
        RowKind::Opened { .. }
        | RowKind::Accepted { .. }
        | RowKind::Started { .. }
        | RowKind::Applied { .. }
        | RowKind::Refused { .. }
        | RowKind::Dropped { .. }
        | RowKind::Answered { .. }
        | RowKind::Sent { .. }
        | RowKind::Taken { .. }
        | RowKind::Finished { .. }
        | RowKind::Made { .. }
        | RowKind::Delivered { .. }
        | RowKind::Killed { .. }
        | RowKind::Evicted { .. } => None,
    }
}
