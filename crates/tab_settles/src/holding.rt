//! A tab is brought to rest while a traversal in its unload check holds the queue: one pass, in two parts, since documents that its first part discards may have been asked for that traversal.
ghost use Rattle.std.specs.Prelude.{◌≡◌, ◌⊎◌, None, OnOk, false, true};
ghost use Rattle.row_facts.specs.Owed.Owed.{IsLoose};
ghost use Rattle.seen_laws.specs.InEvent.{now_of};
ghost use Rattle.tab_facts.specs.Calm.Calm.{IsCalmYet};
ghost use Rattle.tab_releases.specs.PassedOn.{DiscardsUnheld, EndsRun, NoneStray};
ghost use Rattle.tab_settles.specs.Held.{InHeld, IsClearedIn, IsClearedNoted, SettlesNoted};
ghost use Rattle.tab_settles.specs.Settling.{HasPut, IsReadyIn, LeavesOff};

use crate::reasons::Reasons;
use address::OutOfMemory;
use indexmap::IndexMap;
use log_model::{Header, Out};
use std::alloc::Global;
use tab_doors::Tables;
use tab_ids::{ReqId, StateId};
use tab_releases::{clear_out, serve_and_tell};

/// The first part of the pass: stray documents are discarded, and loads of navigables without an entry dropped. The table of checks is to be told then of the documents that are gone, before the second part. HTML Standard, "destroy a document" and "destroy a child navigable".
pub fn clear_held(
    alloc: Global,
    tables: &mut Tables,
    blame: &mut IndexMap<StateId, ReqId>,
    out: &mut Out,
    reasons: &Reasons,
) -> Result<(), OutOfMemory>
    ghost h: { InHeld }
    requires idle { tables.old.running ≡ None }
    requires ready { IsReadyIn true h.pass out.old tables.old h.queue blame.old.entries reasons.now.cause }
    requires calm { IsCalmYet (now_of h.pass.event out.old) }
    ensures checks { OnOk result (tables.new.checks ≡ tables.old.checks) }
    ensures cleared { OnOk result (IsClearedIn true h.pass out.new tables.new h.queue blame.new.entries reasons.now.cause) }
    ensures ends { OnOk result (EndsRun out.new ⊎ NoneStray (now_of h.pass.event out.new)) }
    ensures loose { OnOk result (IsLoose h.pass.event out.old → IsLoose h.pass.event out.new) }
    ensures put { OnOk result (HasPut h.pass.event out.old out.new) }
    ensures off { OnOk result (LeavesOff h.pass.event out.old out.new) }
{
    clear_out(alloc, tables, blame, out, reasons.cause)?;
    Ok(())
}

/// The second part, where no traversal runs: each navigable that needs it is shown its target, or has its document made, and who is awake is told the length and index that are due. No step has its turn. HTML Standard, "apply the history step".
pub fn rest_held(
    alloc: Global,
    header: &Header,
    tables: &mut Tables,
    out: &mut Out,
    reasons: &Reasons,
) -> Result<(), OutOfMemory>
    ghost h: { InHeld }
    requires header { header.now ≡ h.pass.event.header }
    requires cleared { IsClearedNoted false h.pass out.old tables.old h.queue reasons.now.cause }
    ensures settled { OnOk result (SettlesNoted h.pass out.old tables.old out.new tables.new h.queue reasons.now.cause) }
    ensures idle { OnOk result (tables.new.running ≡ None) }
    ensures checks { OnOk result (tables.new.checks ≡ tables.old.checks) }
    ensures quiet { OnOk result (DiscardsUnheld h.pass.event out.old out.new) }
    ensures put { OnOk result (HasPut h.pass.event out.old out.new) }
    ensures off { OnOk result (LeavesOff h.pass.event out.old out.new) }
{
    serve_and_tell(alloc, header, tables, out, reasons.cause, reasons.tells())?;
    Ok(())
}
