//! `MailCount`, how far the mail of one process has come.
ghost use Rattle.std.specs.Prelude.{◌≡◌, ◌+◌, ◌<◌, ◌≤◌, ◌^◌};
ghost use Rattle.std.specs.Option.{option_copied};
ghost use Rattle.history_log.specs.Mails as spec;
ghost use Rattle.history_log.specs.Mails.{mail_after, no_mail};

use log_model::{Job, RowKind};
use tab_ids::ProcId;

/// How many orders were sent to one process, and how many of these have left its mail.
#[derive(Clone, Copy)]
pub struct MailCount {
    pub sent: usize,
    pub gone: usize,
}

impl MailCount {
    /// Before any row.
    pub fn new() -> MailCount
        ensures { result ≡ no_mail }
    {
        MailCount { sent: 0, gone: 0 }
    }

    /// One more row, for the process of this number.
    pub fn note(&mut self, proc: ProcId, row: &RowKind)
        requires room { self.old.sent + 1 < 2 ^ 64 }
        requires within { self.old.gone ≤ self.old.sent }
        ensures note { self.new ≡ mail_after proc self.old row.now }
        ensures room { self.new.sent ≤ self.old.sent + 1 }
        ensures within { self.new.gone ≤ self.new.sent }
    {
        match row {
            RowKind::Opened { .. } => self.gone = self.sent,
            RowKind::Sent { job } => {
                if job.proc == proc {
                    self.sent += 1;
                }
            }
            RowKind::Taken { proc: taker, .. } => {
                if *taker == proc && self.gone < self.sent {
                    self.gone += 1;
                }
            }
            RowKind::Accepted { .. }
            | RowKind::Started { .. }
            | RowKind::Applied { .. }
            | RowKind::Refused { .. }
            | RowKind::Dropped { .. }
            | RowKind::Prompted { .. }
            | RowKind::Answered { .. }
            | RowKind::Finished { .. }
            | RowKind::Made { .. }
            | RowKind::Delivered { .. }
            | RowKind::Killed { .. }
            | RowKind::Evicted { .. } => {}
        }
    }
}

/// The order that a row sends to the process.
pub fn sent_by(proc: ProcId, row: &RowKind) -> Option<&Job>
    ensures { option_copied result ≡ spec.sent_by proc row.now }
{
    match row {
        RowKind::Sent { job } => { if job.proc == proc { Some(job) } else { None } }
        RowKind::Opened { .. }
        | RowKind::Accepted { .. }
        | RowKind::Started { .. }
        | RowKind::Applied { .. }
        | RowKind::Refused { .. }
        | RowKind::Dropped { .. }
        | RowKind::Prompted { .. }
        | RowKind::Answered { .. }
        | RowKind::Taken { .. }
        | RowKind::Finished { .. }
        | RowKind::Made { .. }
        | RowKind::Delivered { .. }
        | RowKind::Killed { .. }
        | RowKind::Evicted { .. } => None,
    }
}
