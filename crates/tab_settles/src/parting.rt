//! One pass in two parts, since documents that its first part discards may have been asked for loads: the user is asked about those between the parts.
ghost use Rattle.std.specs.Prelude.{◌≡◌, OnOk, false};
ghost use Rattle.tab_releases.specs.PassedOn.{DiscardsUnheld};
ghost use Rattle.tab_settles.specs.Held.{HasCleared, HasClearedNoted, InHeld, RestsNoted};
ghost use Rattle.tab_settles.specs.Settling.{HasPut, IsReady, LeavesOff, MayDiscardIn};

use crate::reasons::Reasons;
use address::OutOfMemory;
use indexmap::IndexMap;
use log_model::{Header, Out};
use std::alloc::Global;
use tab_doors::Tables;
use tab_ids::{ReqId, StateId};

/// The first part of a pass: loads give way to the traversal that runs, stray documents are discarded, and loads of navigables without an entry dropped. The table of checks is to be told then of the documents that are gone, before the second part. Not for events in which a traversal is in its unload check. HTML Standard, "apply the history step", "destroy a document" and "destroy a child navigable".
pub fn clear(
    alloc: Global,
    tables: &mut Tables,
    blame: &mut IndexMap<StateId, ReqId>,
    out: &mut Out,
    reasons: &Reasons,
) -> Result<(), OutOfMemory>
    ghost h: { InHeld }
    requires ready { IsReady h.pass out.old tables.old h.queue blame.old.entries reasons.now.cause }
    requires free { MayDiscardIn false h.pass.event }
    ensures cleared { OnOk result (HasCleared false h.pass out.new tables.new h.queue blame.new.entries reasons.now.cause) }
    ensures checks { OnOk result (tables.new.checks ≡ tables.old.checks) }
    ensures running { OnOk result (tables.new.running ≡ tables.old.running) }
    ensures put { OnOk result (HasPut h.pass.event out.old out.new) }
    ensures off { OnOk result (LeavesOff h.pass.event out.old out.new) }
{
    tab_releases::clear(alloc, tables, blame, out, reasons.cause)?;
    Ok(())
}

/// The second part: each navigable that needs it is shown its target, or has its document made, and who is awake is told the length and index that are due. HTML Standard, "apply the history step".
pub fn rest(
    alloc: Global,
    header: &Header,
    tables: &mut Tables,
    out: &mut Out,
    reasons: &Reasons,
) -> Result<(), OutOfMemory>
    ghost h: { InHeld }
    requires header { header.now ≡ h.pass.event.header }
    requires cleared { HasClearedNoted h.pass out.old tables.old h.queue reasons.now.cause }
    ensures settled { OnOk result (RestsNoted h.pass out.old tables.old out.new tables.new h.queue reasons.now.cause) }
    ensures checks { OnOk result (tables.new.checks ≡ tables.old.checks) }
    ensures running { OnOk result (tables.new.running ≡ tables.old.running) }
    ensures quiet { OnOk result (DiscardsUnheld h.pass.event out.old out.new) }
    ensures put { OnOk result (HasPut h.pass.event out.old out.new) }
    ensures off { OnOk result (LeavesOff h.pass.event out.old out.new) }
{
    tab_releases::serve_and_tell(alloc, header, tables, out, reasons.cause, reasons.tells())?;
    Ok(())
}
