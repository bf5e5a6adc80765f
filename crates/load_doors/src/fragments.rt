//! A load that is a fragment navigation is sent to the document.
ghost use Rattle.std.specs.Prelude.{◌≡◌, ◌++◌, ◌∷◌, [], false, OnOk, None};
ghost use Rattle.log_model.specs.declared.job.Task.TheVariants as tasks;
ghost use Rattle.log_model.specs.declared.job.Why.TheVariants as whys;
ghost use Rattle.log_model.specs.declared.row_kind.RowKind.TheVariants as rows;
ghost use Rattle.seen_laws.specs.InEvent.{InEvent, now_of};
ghost use Rattle.tab_doors.specs.Orders.{IsThere, order_to};
ghost use Rattle.tab_doors.specs.Working.{IsAtWork, KeepsStore, MaySend};

use address::{Address, OutOfMemory};
use log_model::{Mode, Out, RowKind, Task, Why};
use tab_doors::{Tables, count_order};
use tab_ids::{DocId, ReqId};

/// A document is sent to a fragment, for a load. The order goes to the document's process. HTML Standard, "navigate to a fragment".
pub fn send_fragment(
    tables: &mut Tables,
    out: &mut Out,
    doc: DocId,
    req: ReqId,
    mode: Mode,
    address: Address,
) -> Result<(), OutOfMemory>
    ghost e: { InEvent }
    requires work { IsAtWork e out.old tables.old }
    requires off { e.checking req ≡ false }
    requires may { MaySend None e out.old (order_to (now_of e out.old) doc (whys.Req req) (tasks.DoFragment req mode address)) }
    requires there { IsThere (now_of e out.old) doc }
    ensures work { OnOk result (IsAtWork e out.new tables.new) }
    ensures out { OnOk result (out.new ≡ out.old ++ rows.Sent (order_to (now_of e out.old) doc (whys.Req req) (tasks.DoFragment req mode address)) ∷ []) }
    ensures kept { OnOk result (KeepsStore tables.old tables.new) }
{
    let task = Task::DoFragment { req, mode, address };
    let proc = tables.proc_there(doc);
    let job = count_order(&mut tables.sent, proc, doc, Why::Req(req), task)?;
    out.push(RowKind::Sent { job })?;
    Ok(())
}
