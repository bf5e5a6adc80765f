//! The document that is kept longest is discarded as the user evicts it.
ghost use Rattle.std.specs.Prelude.{◌≡◌, ◌∷◌, [], None, OnOk};
ghost use Rattle.load_doors.specs.Tied.{AreTied};
ghost use Rattle.log_model.specs.declared.job.Task.TheVariants as tasks;
ghost use Rattle.log_model.specs.declared.job.Why.TheVariants as whys;
ghost use Rattle.log_model.specs.declared.row_kind.RowKind.TheVariants as rows;
ghost use Rattle.seen_laws.specs.InEvent.{now_of};
ghost use Rattle.tab_doors.specs.Orders.{order_to};
ghost use Rattle.tab_doors.specs.Working.{InSweep, IsAtWorkIn, KeepsStore, MayDiscardIn};
ghost use Rattle.user_evicts.specs.Discarding.{IsEvicted};

use address::OutOfMemory;
use log_model::{Out, RowKind, Task, Why};
use tab_doors::{Tables, count_order};
use tab_ids::{DocId, StateId};

/// The document of a state, which is kept longest, is discarded as the user evicts it, by the first row that is put out in the event: the row of the eviction may be logged only where this one follows. Nobody is awake on it. The order goes to its process. HTML Standard, "destroy a document".
pub fn discard_evicted(
    tables: &mut Tables,
    out: &mut Out,
    doc: DocId,
    state: StateId,
) -> Result<(), OutOfMemory>
    ghost s: { InSweep }
    requires first { out.old ≡ [] }
    requires tied { AreTied (now_of s.event []) tables.old }
    requires evicted { IsEvicted s.event tables.old doc state }
    requires free { MayDiscardIn s.sweeps s.event }
    ensures work { OnOk result (IsAtWorkIn s.sweeps None s.event out.new tables.new) }
    ensures out { OnOk result (out.new ≡ rows.Sent (order_to (now_of s.event []) doc whys.Evict tasks.Discard) ∷ []) }
    ensures kept { OnOk result (KeepsStore tables.old tables.new) }
{
    let proc = tables.proc_there(doc);
    let job = count_order(&mut tables.sent, proc, doc, Why::Evict, Task::Discard)?;
    out.push(RowKind::Sent { job })?;
    tables.tree.discard(state);
    tables.kept.forget(state);
    Ok(())
}
