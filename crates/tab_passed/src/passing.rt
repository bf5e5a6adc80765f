//! A traversal that has passed its unload check runs.
ghost use Rattle.std.specs.Prelude.{◌≡◌, drop};
ghost use Rattle.tab_passed.specs.Passing.{passed_tables};
ghost use Rattle.unload_check.specs.Checks.{ended};

use move_queue::MoveQueue;
use tab_doors::Tables;
use tab_ids::{ReqId, Step};

/// The traversal whose step waits first has passed its unload check: that ends in the table, the step is taken off the queue, and the traversal runs, to the goal with which it began. HTML Standard, "checking if unloading is canceled" and "traverse the history by a delta".
pub fn pass_traversal(tables: &mut Tables, queue: &mut MoveQueue, req: ReqId, goal: Step)
    ensures tables { tables.new ≡ passed_tables tables.old req goal (ended req tables.old.checks) }
    ensures queue { queue.new ≡ record queue.old { waiting = drop 1 queue.old.waiting } }
{
    let _step = queue.next();
    tables.checks.end(req);
    tables.running = Some(req);
    tables.goal = goal;
}
