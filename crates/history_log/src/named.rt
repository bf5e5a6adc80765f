//! The processes that the rows of a log name.
ghost use Rattle.std.specs.Prelude.{◌≡◌, ◌+◌, ◌≤◌};
ghost use Rattle.history_log.specs.Names as spec;

use log_model::{Actor, LogRow, RowKind};
use tab_ids::ProcId;

/// The process that the row names; a poke's is named by the row that places its document.
fn named_by(actor: Actor, row: &RowKind) -> Option<ProcId>
    ensures { result ≡ spec.named_by actor row.now }
{
    match row {
        RowKind::Opened { proc, .. } => Some(*proc),
        RowKind::Sent { job } => Some(job.proc),
        RowKind::Taken { proc, .. } => Some(*proc),
        RowKind::Finished { proc, .. } => Some(*proc),
        RowKind::Made { proc, .. } => Some(*proc),
        RowKind::Delivered { proc } => Some(*proc),
        RowKind::Killed { proc, .. } => Some(*proc),
        RowKind::Refused { .. } => process_of(actor),
        RowKind::Accepted { .. }
        | RowKind::Started { .. }
        | RowKind::Applied { .. }
        | RowKind::Dropped { .. }
        | RowKind::Prompted { .. }
        | RowKind::Answered { .. }
        | RowKind::Evicted { .. } => None,
    }
}

fn process_of(actor: Actor) -> Option<ProcId>
    ensures { result ≡ spec.process_of actor }
{
    match actor {
        Actor::Proc(proc) => Some(proc),
        Actor::Start | Actor::Ui | Actor::Coord => None,
    }
}

/// The lower of two numbers, from one on.
fn lower(from: u64, best: Option<ProcId>, named: Option<ProcId>) -> Option<ProcId>
    ensures { result ≡ spec.lower from best named }
{
    let Some(proc) = named else {
        return best;
    };
    match best {
        None => {
            if from <= u64::from(proc.0) {
                Some(proc)
            } else {
                None
            }
        }
        Some(best) => {
            if from <= u64::from(proc.0) && proc.0 < best.0 {
                Some(proc)
            } else {
                Some(best)
            }
        }
    }
}

/// The lowest number from one on that rows name.
pub fn next_named(from: u64, rows: &[LogRow]) -> Option<ProcId>
    ensures { result ≡ spec.next_named from rows.now }
{
    let mut best = None;
    for row in rows {
        best = lower(from, best, named_by(row.actor, &row.row));
    }
    best
}

/// The number after a process's.
pub fn number_after(proc: ProcId) -> u64
    ensures after { result ≡ proc.0 + 1 }
    ensures few { result ≤ 4294967296 }
{
    u64::from(proc.0) + 1
}
