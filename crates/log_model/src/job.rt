//! `Job`, an order of the coordinator to a document's process.
ghost use Rattle.std.specs.Prelude.{◌≡◌, IfOk};

use crate::handler::LeaveCause;
use crate::items::Items;
use crate::request::Mode;
use crate::row::copy_memo;
use address::{Address, OutOfMemory, Text};
use tab_ids::{Death, DocId, EntryId, Epoch, JobId, NavId, ProcId, ReqId, StateId};

/// What an order was sent for, and why a navigable is as it is.
#[derive(Clone, Copy, PartialEq, Eq, Debug)]
pub enum Why {
    Req(ReqId),
    Death(Death),
    Evict,
    /// Only the reason of the top navigable before anything was sent to it.
    Start,
}

/// What an order asks of a document.
#[derive(Drop)]
pub enum Task {
    /// Make the document: "attempt to populate the history entry's document".
    Populate {
        nav: NavId,
        state: StateId,
        address: Address,
        initial: bool,
    },
    /// Show an entry and run: "activate history entry".
    Activate {
        entry: EntryId,
        epoch: Epoch,
        length: u32,
        index: u32,
        memo: Option<Text>,
        address: Address,
    },
    /// Set the history object's length and index.
    Update {
        length: u32,
        index: u32,
    },
    /// Stop running, but stay.
    Freeze,
    /// Be gone: "destroy a document".
    Discard,
    /// Ask the unload handler of a slot.
    Ask {
        slot: u8,
        cause: LeaveCause,
    },
    /// "Navigate to a fragment".
    DoFragment {
        req: ReqId,
        mode: Mode,
        address: Address,
    },
}

impl Task {
    /// An equal task.
    pub fn copy(&self) -> Result<Task, OutOfMemory>
        ensures { IfOk result (λ task. task ≡ self.now) }
    {
        match self {
            Task::Populate {
                nav,
                state,
                address,
                initial,
            } => {
                let address = address.copy()?;
                Ok(Task::Populate {
                    nav: *nav,
                    state: *state,
                    address,
                    initial: *initial,
                })
            }
            Task::Activate {
                entry,
                epoch,
                length,
                index,
                memo,
                address,
            } => {
                let memo = copy_memo(memo)?;
                let address = address.copy()?;
                Ok(Task::Activate {
                    entry: *entry,
                    epoch: *epoch,
                    length: *length,
                    index: *index,
                    memo,
                    address,
                })
            }
            Task::Update { length, index } => Ok(Task::Update {
                length: *length,
                index: *index,
            }),
            Task::Freeze => Ok(Task::Freeze),
            Task::Discard => Ok(Task::Discard),
            Task::Ask { slot, cause } => Ok(Task::Ask {
                slot: *slot,
                cause: *cause,
            }),
            Task::DoFragment { req, mode, address } => {
                let address = address.copy()?;
                Ok(Task::DoFragment {
                    req: *req,
                    mode: *mode,
                    address,
                })
            }
        }
    }
}

/// An order to a document, sent to the incarnation of its process that was then known.
#[derive(Drop)]
pub struct Job {
    pub nr: JobId,
    pub proc: ProcId,
    pub incarnation: u32,
    pub doc: DocId,
    pub why: Why,
    pub task: Task,
}

/// A list of orders.
pub type Jobs = Items<Job>;

impl Job {
    /// An equal order.
    pub fn copy(&self) -> Result<Job, OutOfMemory>
        ensures { IfOk result (λ job. job ≡ self.now) }
    {
        let task = self.task.copy()?;
        Ok(Job {
            nr: self.nr,
            proc: self.proc,
            incarnation: self.incarnation,
            doc: self.doc,
            why: self.why,
            task,
        })
    }
}

/// An order that a process has taken up, and whether its document had unsaved edits then.
#[derive(Drop)]
pub struct Order {
    pub job: Job,
    pub dirty: bool,
}

impl Order {
    /// An equal order.
    pub fn copy(&self) -> Result<Order, OutOfMemory>
        ensures { IfOk result (λ order. order ≡ self.now) }
    {
        let job = self.job.copy()?;
        Ok(Order {
            job,
            dirty: self.dirty,
        })
    }
}
