//! The traversal that runs ends.
ghost use Rattle.std.specs.Prelude.{◌≡◌, OnOk, IfOk};
ghost use Rattle.seen_laws.specs.InEvent.{now_of};
ghost use Rattle.tab_passes.specs.Passing.{InPass, IsPassing};
ghost use Rattle.tab_turns.specs.Ending.{MayHaveEnded, is_through};
ghost use Rattle.tab_turns.specs.Turning.{IsTurning};

use crate::standing::stand_at;
use address::OutOfMemory;
use log_model::Out;
use tab_doors::Tables;
use tab_passes::aim;

/// Where a traversal runs and all stand at the step that it leads to, it ends there: that is the current step then. Answers whether it did; else nothing is done. HTML Standard, "apply the history step".
pub fn end_running(tables: &mut Tables, out: &mut Out) -> Result<bool, OutOfMemory>
    ghost p: { InPass }
    requires passing { IsPassing p out.old tables.old }
    requires turning { IsTurning p.event out.old }
    ensures passing { OnOk result (IsPassing p out.new tables.new) }
    ensures turning { OnOk result (IsTurning p.event out.new) }
    ensures due { IfOk result (λ ended. ended ≡ is_through (now_of p.event out.old) tables.old.running) }
    ensures ended { IfOk result (λ ended. MayHaveEnded p.event out.old out.new tables.old tables.new ended) }
{
    match tables.running {
        Some(req) => {
            let goal = aim(tables);
            if stand_at(tables, goal) {
                tables.end(out, req, goal)?;
                return Ok(true);
            }
            Ok(false)
        }
        None => Ok(false),
    }
}
