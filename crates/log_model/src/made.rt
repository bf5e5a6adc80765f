//! `Made`, what a document made of an action, and `Report`, what it tells the coordinator.
ghost use Rattle.std.specs.Prelude.{◌≡◌, IfOk};

use crate::job::Job;
use crate::outcome::Outcome;
use crate::row::copy_memo;
use address::{Address, OutOfMemory, Text};
use tab_ids::{Death, DocId, EntryId, Epoch, NavId, ReqId};

/// What was made of an action.
#[derive(Drop)]
pub enum What {
    Push {
        entry: EntryId,
        memo: Option<Text>,
        address: Address,
    },
    Replace {
        over: EntryId,
        entry: EntryId,
        memo: Option<Text>,
        address: Address,
    },
    AddFrame {
        nav: NavId,
    },
    RemoveFrame {
        nav: NavId,
    },
    Go {
        delta: i32,
    },
    Edit,
}

impl What {
    /// An equal value.
    pub fn copy(&self) -> Result<What, OutOfMemory>
        ensures { IfOk result (λ what. what ≡ self.now) }
    {
        match self {
            What::Push {
                entry,
                memo,
                address,
            } => {
                let memo = copy_memo(memo)?;
                let address = address.copy()?;
                Ok(What::Push {
                    entry: *entry,
                    memo,
                    address,
                })
            }
            What::Replace {
                over,
                entry,
                memo,
                address,
            } => {
                let memo = copy_memo(memo)?;
                let address = address.copy()?;
                Ok(What::Replace {
                    over: *over,
                    entry: *entry,
                    memo,
                    address,
                })
            }
            What::AddFrame { nav } => Ok(What::AddFrame { nav: *nav }),
            What::RemoveFrame { nav } => Ok(What::RemoveFrame { nav: *nav }),
            What::Go { delta } => Ok(What::Go { delta: *delta }),
            What::Edit => Ok(What::Edit),
        }
    }
}

/// What a document made of a request, under the epoch that it then had.
#[derive(Drop)]
pub struct Made {
    pub req: ReqId,
    pub doc: DocId,
    pub epoch: Epoch,
    pub what: What,
}

impl Made {
    /// An equal value.
    pub fn copy(&self) -> Result<Made, OutOfMemory>
        ensures { IfOk result (λ made. made ≡ self.now) }
    {
        let what = self.what.copy()?;
        Ok(Made {
            req: self.req,
            doc: self.doc,
            epoch: self.epoch,
            what,
        })
    }
}

/// What the coordinator takes from a process: a finished order, what a document made, or the process's death.
#[derive(Drop)]
pub enum Report {
    Done(Job, Outcome, Option<Made>),
    Made(Made),
    Died(Death),
}

impl Report {
    /// An equal report.
    pub fn copy(&self) -> Result<Report, OutOfMemory>
        ensures { IfOk result (λ report. report ≡ self.now) }
    {
        match self {
            Report::Done(job, outcome, Some(made)) => {
                let job = job.copy()?;
                let made = made.copy()?;
                Ok(Report::Done(job, *outcome, Some(made)))
            }
            Report::Done(job, outcome, None) => {
                let job = job.copy()?;
                Ok(Report::Done(job, *outcome, None))
            }
            Report::Made(made) => {
                let made = made.copy()?;
                Ok(Report::Made(made))
            }
            Report::Died(death) => Ok(Report::Died(*death)),
        }
    }
}
