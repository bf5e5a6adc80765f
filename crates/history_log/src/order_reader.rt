//! `OrderReader`, the mail and the hand of one process, read along the rows of a log.
ghost use Rattle.std.specs.Prelude.{◌≡◌, ◌+◌, ◌<◌, ◌≤◌, ◌^◌, is_some};
ghost use Rattle.log_model.specs.Seen.{desk_of};
ghost use Rattle.log_model.specs.Logs.{seen_of};
ghost use Rattle.history_log.specs.Desks as spec;
ghost use Rattle.history_log.specs.Desks.{order_after, no_order};

use crate::mail_count::MailCount;
use log_model::{LogRow, RowKind};
use tab_ids::ProcId;

/// How far the mail of a process has come, and whether an order is in hand.
#[derive(Clone, Copy)]
pub struct OrderReader {
    pub mail: MailCount,
    pub holds: bool,
}

impl OrderReader {
    /// Before any row.
    pub fn new() -> OrderReader
        ensures { result ≡ no_order }
    {
        OrderReader {
            mail: MailCount::new(),
            holds: false,
        }
    }

    /// One more row, for the process of this number.
    pub fn note(&mut self, proc: ProcId, row: &RowKind)
        requires room { self.old.mail.sent + 1 < 2 ^ 64 }
        requires within { self.old.mail.gone ≤ self.old.mail.sent }
        ensures note { self.new ≡ order_after proc self.old row.now }
        ensures room { self.new.mail.sent ≤ self.old.mail.sent + 1 }
        ensures within { self.new.mail.gone ≤ self.new.mail.sent }
    {
        let is_waiting = self.mail.gone < self.mail.sent;
        self.holds = holds_after(proc, self.holds, is_waiting, row);
        self.mail.note(proc, row);
    }
}

/// Whether an order is in hand after one more row, where one waits in the mail or not.
fn holds_after(proc: ProcId, holds: bool, is_waiting: bool, row: &RowKind) -> bool
    ensures { result ≡ spec.holds_after proc holds is_waiting row.now }
{
    match row {
        RowKind::Opened { .. } => false,
        RowKind::Taken {
            proc: taker,
            live,
            ..
        } => {
            if *taker == proc {
                *live && is_waiting
            } else {
                holds
            }
        }
        RowKind::Finished { proc: other, .. } => { if *other == proc { false } else { holds } }
        RowKind::Killed { proc: other, .. } => { if *other == proc { false } else { holds } }
        RowKind::Accepted { .. }
        | RowKind::Started { .. }
        | RowKind::Applied { .. }
        | RowKind::Refused { .. }
        | RowKind::Dropped { .. }
        | RowKind::Prompted { .. }
        | RowKind::Answered { .. }
        | RowKind::Sent { .. }
        | RowKind::Made { .. }
        | RowKind::Delivered { .. }
        | RowKind::Evicted { .. } => holds,
    }
}

/// The mail and the hand of a process.
pub fn read_orders(rows: &[LogRow], proc: ProcId) -> OrderReader
    ensures { result.holds ≡ is_some (desk_of (seen_of rows.now) proc).in_hand }
{
    let mut orders = OrderReader::new();
    for row in rows {
        orders.note(proc, &row.row);
    }
    orders
}
