//! A traversal is dropped, since the user stays.
ghost use Rattle.std.specs.Prelude.{◌≡◌, ◌++◌, OnOk, drop};
ghost use Rattle.tab_stays.specs.Staying.{stayed};
ghost use Rattle.unload_check.specs.Checks.{ended};

use address::OutOfMemory;
use log_model::{Cause, Out, RowKind};
use move_queue::MoveQueue;
use tab_doors::Tables;
use tab_ids::ReqId;

/// The traversal whose step waits first is dropped, since the user stays: its check ends in the table, and the step is taken off the queue. HTML Standard, "checking if unloading is canceled" and "traverse the history by a delta".
pub fn drop_traversal(
    tables: &mut Tables,
    queue: &mut MoveQueue,
    out: &mut Out,
    req: ReqId,
) -> Result<(), OutOfMemory>
    ensures tables { OnOk result (tables.new ≡ record tables.old { checks = ended req tables.old.checks }) }
    ensures queue { OnOk result (queue.new ≡ record queue.old { waiting = drop 1 queue.old.waiting }) }
    ensures out { OnOk result (out.new ≡ out.old ++ stayed req) }
{
    let cause = Cause::Stay;
    out.push(RowKind::Dropped { req, cause })?;
    let _step = queue.next();
    tables.checks.end(req);
    Ok(())
}
