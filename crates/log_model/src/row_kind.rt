//! `LogRow`, one row of a tab's log: the event it belongs to, who acted, and what happened.
ghost use Rattle.std.specs.Prelude.{◌≡◌, IfOk};

use crate::change::Change;
use crate::items::Items;
use crate::job::Job;
use crate::made::Made;
use crate::outcome::{Cause, Denial, Outcome};
use crate::request::Request;
use address::{Address, OutOfMemory};
use tab_ids::{Death, DocId, EntryId, JobId, ProcId, ReqId, StateId, Step};

/// Who acts in an event.
#[derive(Clone, Copy, PartialEq, Eq, Debug)]
pub enum Actor {
    Start,
    Ui,
    Coord,
    Proc(ProcId),
}

/// What a row of the log says.
#[derive(Drop)]
pub enum RowKind {
    /// The tab was opened with one document, running.
    Opened {
        entry: EntryId,
        state: StateId,
        doc: DocId,
        proc: ProcId,
        slot: Option<u8>,
        address: Address,
    },
    /// A request was accepted; `doc` is the document that is poked.
    Accepted {
        req: ReqId,
        doc: Option<DocId>,
        what: Request,
    },
    /// A load, traversal or reload began; a traversal with its goal.
    Started {
        req: ReqId,
        goal: Option<Step>,
    },
    /// A request changed the history.
    Applied {
        req: ReqId,
        change: Change,
    },
    /// A request was refused.
    Refused {
        req: ReqId,
        reason: Denial,
    },
    /// A request was dropped.
    Dropped {
        req: ReqId,
        cause: Cause,
    },
    /// The user is asked whether to leave, for the sake of this document.
    Prompted {
        req: ReqId,
        doc: DocId,
    },
    /// The user answered.
    Answered {
        req: ReqId,
        stay: bool,
    },
    /// An order was sent.
    Sent {
        job: Job,
    },
    /// A process took the first order of its mail; one of a dead incarnation is void.
    Taken {
        proc: ProcId,
        job: JobId,
        live: bool,
        dirty: bool,
    },
    /// A process finished the order in hand.
    Finished {
        proc: ProcId,
        job: JobId,
        outcome: Outcome,
    },
    /// A document acted.
    Made {
        proc: ProcId,
        made: Made,
    },
    /// The coordinator took the first report of a process.
    Delivered {
        proc: ProcId,
    },
    /// A process was killed.
    Killed {
        proc: ProcId,
        death: Death,
    },
    /// The longest kept document is to go.
    Evicted {
        state: StateId,
    },
}

/// A list of rows that an event is to log.
pub type Out = Items<RowKind>;

impl RowKind {
    /// An equal row.
    pub fn copy(&self) -> Result<RowKind, OutOfMemory>
        ensures { IfOk result (λ row. row ≡ self.now) }
    {
        match self {
            RowKind::Opened {
                entry,
                state,
                doc,
                proc,
                slot,
                address,
            } => {
                let address = address.copy()?;
                Ok(RowKind::Opened {
                    entry: *entry,
                    state: *state,
                    doc: *doc,
                    proc: *proc,
                    slot: *slot,
                    address,
                })
            }
            RowKind::Accepted { req, doc, what } => {
                let what = what.copy()?;
                Ok(RowKind::Accepted {
                    req: *req,
                    doc: *doc,
                    what,
                })
            }
            RowKind::Started { req, goal } => Ok(RowKind::Started {
                req: *req,
                goal: *goal,
            }),
            RowKind::Applied { req, change } => {
                let change = change.copy()?;
                Ok(RowKind::Applied { req: *req, change })
            }
            RowKind::Refused { req, reason } => Ok(RowKind::Refused {
                req: *req,
                reason: *reason,
            }),
            RowKind::Dropped { req, cause } => Ok(RowKind::Dropped {
                req: *req,
                cause: *cause,
            }),
            RowKind::Prompted { req, doc } => Ok(RowKind::Prompted {
                req: *req,
                doc: *doc,
            }),
            RowKind::Answered { req, stay } => Ok(RowKind::Answered {
                req: *req,
                stay: *stay,
            }),
            RowKind::Sent { job } => {
                let job = job.copy()?;
                Ok(RowKind::Sent { job })
            }
            RowKind::Taken {
                proc,
                job,
                live,
                dirty,
            } => Ok(RowKind::Taken {
                proc: *proc,
                job: *job,
                live: *live,
                dirty: *dirty,
            }),
            RowKind::Finished { proc, job, outcome } => Ok(RowKind::Finished {
                proc: *proc,
                job: *job,
                outcome: *outcome,
            }),
            RowKind::Made { proc, made } => {
                let made = made.copy()?;
                Ok(RowKind::Made { proc: *proc, made })
            }
            RowKind::Delivered { proc } => Ok(RowKind::Delivered { proc: *proc }),
            RowKind::Killed { proc, death } => Ok(RowKind::Killed {
                proc: *proc,
                death: *death,
            }),
            RowKind::Evicted { state } => Ok(RowKind::Evicted { state: *state }),
        }
    }
}

/// A row of the log.
#[derive(Drop)]
pub struct LogRow {
    pub event: u32,
    pub actor: Actor,
    pub row: RowKind,
}

impl LogRow {
    /// An equal row.
    pub fn copy(&self) -> Result<LogRow, OutOfMemory>
        ensures { IfOk result (λ copied. copied ≡ self.now) }
    {
        let row = self.row.copy()?;
        Ok(LogRow {
            event: self.event,
            actor: self.actor,
            row,
        })
    }
}
