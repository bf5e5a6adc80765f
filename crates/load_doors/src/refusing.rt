//! A load is refused.
ghost use Rattle.std.specs.Prelude.{◌≡◌, ◌∷◌, [], OnOk};
ghost use Rattle.load_doors.specs.Logged.{IsLogged};
ghost use Rattle.load_doors.specs.Refusing.{IsDeniedLoad};
ghost use Rattle.load_doors.specs.Tied.{AreTied};
ghost use Rattle.log_model.specs.declared.row_kind.RowKind.TheVariants as rows;
ghost use Rattle.seen_laws.specs.InEvent.{InEvent, log_of, now_of};
ghost use Rattle.tab_doors.specs.AskingLoads.{TiesAsking};
ghost use Rattle.tab_doors.specs.Working.{IsAtWork};

use address::OutOfMemory;
use log_model::{Denial, Out, RowKind};
use tab_doors::Tables;
use tab_ids::ReqId;

/// A load is refused as the user asks for it, by the first row that is put out in the event: the row of its acceptance may be logged only where this one follows.
pub fn refuse_load(
    _tables: &Tables,
    out: &mut Out,
    req: ReqId,
    reason: Denial,
) -> Result<(), OutOfMemory>
    ghost e: { InEvent }
    requires first { out.old ≡ [] }
    requires denied { IsDeniedLoad e req reason }
    requires logged { IsLogged e _tables.now.checks }
    requires tied { AreTied (now_of e []) _tables.now }
    requires asking { TiesAsking e.checking (log_of e []) _tables.now.asking }
    ensures work { OnOk result (IsAtWork e out.new _tables.now) }
    ensures out { OnOk result (out.new ≡ rows.Refused req reason ∷ []) }
{
    out.push(RowKind::Refused { req, reason })?;
    Ok(())
}
