//! `Log`, which a contract sees as the list of its rows.
ghost use Rattle.std.specs.Prelude.{◌≡◌, not, ◌<◌, [], ◌∷◌, ◌++◌, length, take, drop, slice_get, Some, IfOk, OnOk, OnErr};
ghost use Rattle.std.specs.List.{list_all};
ghost use Rattle.std.specs.Option.{option_copied};
ghost use Rattle.log_model.specs.Equal.{holds};
ghost use Rattle.log_model.specs.Seen.{request_of};
ghost use Rattle.log_model.specs.Logs.{seen_of, mail_of, is_prompt_up, is_still, is_quiet};
ghost use Rattle.history_log.specs.Endings.{outcome_row};
ghost use Rattle.history_log.specs.Mails as mails;

use crate::ending::ends;
use crate::idle::is_idle;
use crate::mail_count::{MailCount, sent_by};
use crate::named::{next_named, number_after};
use crate::owner::opens_once;
use crate::prompt_reader::{PromptReader, prompted_by};
use address::OutOfMemory;
use log_model::{Jobs, LogRow};
use std::alloc::Global;
use std::marker::Model;
use tab_ids::{ProcId, ReqId};

/// What happened in a tab, in order.
///
/// A log begins with the row of its opening, and grows at its end.
#[derive(Drop)]
pub struct Log {
    rows: Vec<LogRow>,
}

impl Model for Log {
    ghost use Rattle.std.specs.Prelude.{List};
    ghost use Rattle.log_model.specs.declared.row_kind.LogRow.{LogRow};

    ghost Value = { List LogRow };

    ghost view = { λ log. log.rows.items };
}

impl Log {
    /// A log of one row; without memory the row is dropped.
    pub fn fresh(alloc: Global, first: LogRow) -> Result<Log, OutOfMemory>
        ensures { IfOk result (λ log. log ≡ first ∷ []) }
    {
        let mut rows = Vec::new(alloc);
        rows.push(first)?;
        Ok(Log { rows })
    }

    /// Adds a row at the end; without memory the row is dropped.
    pub fn push_row(&mut self, row: LogRow) -> Result<(), OutOfMemory>
        ensures ok { OnOk result (self.new ≡ self.old ++ row ∷ []) }
        ensures err { OnErr result (self.new ≡ self.old) }
    {
        self.rows.push(row)?;
        Ok(())
    }

    /// How many rows there are.
    pub fn len(&self) -> usize
        ensures { result ≡ length self.now }
    {
        self.rows.len()
    }

    /// The row at an index, counted from 0.
    pub fn row(&self, i: usize) -> &LogRow
        requires { i < length self.now }
        ensures { slice_get self.now i ≡ Some result.now }
    {
        &self.rows[i]
    }

    /// All rows, in order.
    pub fn rows(&self) -> &[LogRow]
        ensures { result.now ≡ self.now }
    {
        self.rows.as_slice()
    }

    /// Drops the rows after the first `len`; a log that has no more stays.
    pub fn cut(&mut self, len: usize)
        ensures { self.new ≡ take len self.old }
    {
        self.rows.truncate(len);
    }

    /// The row that says how a request ended: it was applied, refused or dropped.
    ///
    /// A legal log has at most one; of several the first is answered. It goes through the log.
    pub fn request_outcome(&self, req: ReqId) -> Option<&LogRow>
        ensures { option_copied result ≡ outcome_row self.now req }
    {
        self.rows.iter().find(|row| ends(req, &row.row))
    }

    /// Whether the user is asked about a request, and neither answered nor was it dropped.
    ///
    /// It goes through the log.
    pub fn prompt_up(&self, req: ReqId) -> bool
        ensures { result ≡ holds is_prompt_up (request_of (seen_of self.now) req) }
    {
        if req.0 == 0 {
            return false;
        }
        let mut reader = PromptReader::new(req);
        for row in self.rows.as_slice() {
            reader.note(req, &row.row);
        }
        reader.is_up()
    }

    /// The orders in the mail of a process, in order.
    ///
    /// It goes through the log, and copies these orders alone.
    pub fn mail(&self, proc: ProcId) -> Result<Jobs, OutOfMemory>
        ensures { IfOk result (λ jobs. jobs ≡ mail_of self.now proc) }
    {
        let mut left = self.mail_count(proc).gone;
        let mut jobs = Jobs::new(*self.rows.allocator());
        for row in self.rows.as_slice() {
            let Some(job) = sent_by(proc, &row.row) else {
                continue;
            };
            if left > 0 {
                left -= 1;
                continue;
            }
            let job = job.copy()?;
            jobs.push(job)?;
        }
        Ok(jobs)
    }

    fn mail_count(&self, proc: ProcId) -> MailCount
        ensures { mail_of self.now proc ≡ drop result.gone (mails.sent_to proc self.now) }
    {
        let mut count = MailCount::new();
        for row in self.rows.as_slice() {
            count.note(proc, &row.row);
        }
        count
    }

    /// Whether nothing is in transit: no order, poke or report waits in any process.
    ///
    /// It goes through the log, once for each process that a row names, and takes no memory.
    pub fn still(&self) -> bool
        ensures { result ≡ is_still (seen_of self.now) }
    {
        let rows = self.rows.as_slice();
        let once = opens_once(rows);
        let mut from: u64 = 0;
        'processes: while let Some(proc) = next_named(from, rows) {
            if !is_idle(rows, proc, once) {
                return false;
            }
            from = number_after(proc);
        }
        true
    }

    /// Whether nothing is in transit and no prompt is up.
    ///
    /// It goes through the log, once for each process and for each prompt, and takes no memory.
    pub fn quiet(&self) -> bool
        ensures { result ≡ is_quiet (seen_of self.now) }
    {
        self.still() && self.no_prompt_up()
    }

    fn no_prompt_up(&self) -> bool
        ensures { result ≡ list_all (λ q. not (is_prompt_up q)) (seen_of self.now).requests }
    {
        for row in self.rows.as_slice() {
            if let Some(req) = prompted_by(&row.row) {
                if self.prompt_up(req) {
                    return false;
                }
            }
        }
        true
    }
}
