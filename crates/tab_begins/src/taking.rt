//! A ready load has its turn, and the loads below give way to it.
ghost use Rattle.std.specs.Prelude.{◌≡◌, None, OnOk, Some};
ghost use Rattle.tab_facts.specs.Calm.Calm.{IsCalmAround};
ghost use Rattle.load_table.specs.Loads.{ongoing_load};
ghost use Rattle.log_model.specs.declared.job.Why.TheVariants.{Req};
ghost use Rattle.seen_laws.specs.InEvent.{now_of};
ghost use Rattle.tab_applies.specs.Applying.{InReady};
ghost use Rattle.tab_begins.specs.Taking.{HasTaken, IsOver, KeepsMade, KeepsQueue, MayTake, NoneBelow};
ghost use Rattle.tab_doors.specs.Working.{KeepsRun};
ghost use Rattle.tab_one_pass.specs.Passing.{IsOpen, KeepsAwake, StandOrBare};
ghost use Rattle.tab_one_pass.specs.PassedOn.{AreBlamed, IsLoadApplied, IsPassing};
ghost use Rattle.tab_applies.specs.PassedOn.{IsTurning};

use address::OutOfMemory;
use indexmap::IndexMap;
use log_model::Out;
use std::alloc::Global;
use tab_applies::apply_ready;
use tab_doors::Tables;
use tab_drops::drop_below;
use tab_ids::{NavId, ReqId, StateId};
use tab_one_pass::{note_entries, note_loads};

/// The ready load `req` of a navigable has its turn: it is applied, and the ongoing loads of the navigables below give way to it. In `blame` it is noted under the state of each document that is stray then, so that another pass may follow. No traversal runs, and all stand. HTML Standard, "finalize a cross-document navigation" and "navigate".
pub fn take_load(
    alloc: Global,
    tables: &mut Tables,
    blame: &mut IndexMap<StateId, ReqId>,
    out: &mut Out,
    nav: NavId,
    req: ReqId,
) -> Result<(), OutOfMemory>
    ghost r: { InReady }
    requires passing { IsPassing r.pass out.old tables.old }
    requires turning { IsTurning r.pass.event out.old }
    requires at { ongoing_load nav tables.old.loads ≡ Some r.load }
    requires req { r.load.req ≡ req }
    requires idle { tables.old.running ≡ None }
    requires may { MayTake r.pass.event blame.old.entries nav r.load (now_of r.pass.event out.old) }
    ensures passing { OnOk result (IsPassing r.pass out.new tables.new) }
    ensures turning { OnOk result (IsTurning r.pass.event out.new) }
    ensures taken { OnOk result (HasTaken r.pass.event tables.old nav r.load out.old out.new) }
    ensures over { OnOk result (IsOver (now_of r.pass.event out.new) req) }
    ensures queue { OnOk result (KeepsQueue (now_of r.pass.event out.old) (now_of r.pass.event out.new)) }
    ensures gone { OnOk result (NoneBelow (now_of r.pass.event out.new) nav) }
    ensures open_ { OnOk result (IsOpen r.pass.event tables.new.running (Req req) (now_of r.pass.event out.new)) }
    ensures loads { OnOk result (StandOrBare (now_of r.pass.event out.new)) }
    ensures blamed { OnOk result (AreBlamed (now_of r.pass.event out.new) blame.new.entries) }
    ensures made { OnOk result (KeepsMade (now_of r.pass.event out.old) (now_of r.pass.event out.new)) }
    ensures around { OnOk result (IsCalmAround (now_of r.pass.event out.new) nav) }
    ensures last { OnOk result (IsLoadApplied (now_of r.pass.event out.new) nav req) }
    ensures wakes { OnOk result (KeepsAwake (now_of r.pass.event out.old) (now_of r.pass.event out.new)) }
    ensures kept { OnOk result (KeepsRun tables.old tables.new) }
{
    note_entries(tables, blame, req)?;
    apply_ready(alloc, tables, out, nav)?;
    note_loads(tables, blame, Some(req))?;
    drop_below(alloc, tables, out, nav, req)?;
    Ok(())
}
