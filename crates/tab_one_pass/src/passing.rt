//! One pass: ongoing loads give way, stray documents are discarded, who needs it is served, who is awake is told.
ghost use Rattle.std.specs.Prelude.{◌≡◌, ◌⊎◌, OnOk, false, true};
ghost use Rattle.tab_facts.specs.FrameWhole.Tab.{AreAwakeWithRows};
ghost use Rattle.seen_facts.specs.LoadEnds.Standing.{LoadsStand};
ghost use Rattle.log_model.specs.ActsAtOnce.{ends_told};
ghost use Rattle.seen_laws.specs.InEvent.{now_of};
ghost use Rattle.tab_doors.specs.Working.{KeepsStore, MayDiscardIn};
ghost use Rattle.tab_drops.specs.Dropping.{StandOrBare};
ghost use Rattle.tab_one_pass.specs.Passing.{AreLeftStrays, EndsRun, HasClearedAll, HasClearedOut, HasGivenWay, HasPassed, HasPutOut, HasServedAll, IsOpen, KeepsLeftStrays, KeepsUnmoved, LeavesCalm, LeavesPass, MayPass, MayServeAll, MayStand, SendsForStrays, WereLoaded, WereStray};
ghost use Rattle.tab_serves.specs.Serving.{FreesVisited, InPass, IsPassing};
ghost use Rattle.tab_passes.specs.Passing.{IsPassingIn};
ghost use Rattle.tab_sweeps.specs.Sweeping.{AreBlamed, NoneStray};
ghost use Rattle.seen_facts.specs.Walk.Serving.{AreServed};

use crate::noting::note_loads;
use address::OutOfMemory;
use indexmap::IndexMap;
use log_model::{Header, Out, Why};
use std::alloc::Global;
use tab_doors::Tables;
use tab_drops::{destroy_loads, drop_moved};
use tab_ids::{ReqId, StateId};
use tab_passes::tell_all;
use tab_serves::serve_all;
use tab_sweeps::sweep;

/// Where a traversal runs, the ongoing loads of those whom it moves, and of those below, give way to it.
fn give_way(
    alloc: Global,
    tables: &mut Tables,
    blame: &mut IndexMap<StateId, ReqId>,
    out: &mut Out,
    cause: Why,
) -> Result<(), OutOfMemory>
    ghost p: { InPass }
    requires passing { IsPassing p out.old tables.old }
    requires open_ { IsOpen p.event tables.old.running cause (now_of p.event out.old) }
    requires loads { MayStand tables.old.running (now_of p.event out.old) }
    requires blamed { AreBlamed (now_of p.event out.old) blame.old.entries }
    ensures passing { OnOk result (IsPassing p out.new tables.new) }
    ensures open_ { OnOk result (IsOpen p.event tables.new.running cause (now_of p.event out.new)) }
    ensures loads { OnOk result (StandOrBare (now_of p.event out.new)) }
    ensures blamed { OnOk result (AreBlamed (now_of p.event out.new) blame.new.entries) }
    ensures frees { OnOk result (FreesVisited p.event (now_of p.event out.old) → FreesVisited p.event (now_of p.event out.new)) }
    ensures left { OnOk result (LeavesPass (now_of p.event out.old) (now_of p.event out.new)) }
    ensures only { OnOk result (HasGivenWay (now_of p.event out.old) tables.old.running out.old out.new) }
    ensures kept { OnOk result (KeepsStore tables.old tables.new) }
{
    match tables.running {
        Some(by) => {
            note_loads(tables, blame, Some(by))?;
            drop_moved(alloc, tables, out, by)?;
        }
        None => {}
    }
    Ok(())
}

/// The first part of a pass where no load gives way: each stray document is discarded, for the request that is noted in `blame` for its state, and then each ongoing load of a navigable without an entry is dropped. The document of such a load is left for the next pass, with the request in `blame`. HTML Standard, "destroy a document" and "destroy a child navigable".
pub fn clear_out(
    alloc: Global,
    tables: &mut Tables,
    blame: &mut IndexMap<StateId, ReqId>,
    out: &mut Out,
    cause: Why,
) -> Result<(), OutOfMemory>
    ghost p: { InPass }
    requires passing { IsPassingIn true p out.old tables.old }
    requires open_ { IsOpen p.event tables.old.running cause (now_of p.event out.old) }
    requires loads { StandOrBare (now_of p.event out.old) }
    requires blamed { AreBlamed (now_of p.event out.old) blame.old.entries }
    ensures passing { OnOk result (IsPassingIn true p out.new tables.new) }
    ensures frees { OnOk result (FreesVisited p.event (now_of p.event out.old) → FreesVisited p.event (now_of p.event out.new)) }
    ensures open_ { OnOk result (IsOpen p.event tables.new.running cause (now_of p.event out.new)) }
    ensures loads { OnOk result (LoadsStand (now_of p.event out.new)) }
    ensures strays { OnOk result (AreLeftStrays (now_of p.event out.new) blame.new.entries) }
    ensures loaded { OnOk result (WereLoaded (now_of p.event out.old) (now_of p.event out.new)) }
    ensures sent { OnOk result (SendsForStrays (now_of p.event out.old) (now_of p.event out.new) out.old out.new) }
    ensures rows { OnOk result (AreAwakeWithRows (now_of p.event out.new)) }
    ensures left { OnOk result (LeavesPass (now_of p.event out.old) (now_of p.event out.new)) }
    ensures only { OnOk result (HasClearedOut p.event blame.old.entries out.old out.new) }
    ensures ends { OnOk result (EndsRun out.new ⊎ NoneStray (now_of p.event out.new)) }
    ensures kept { OnOk result (KeepsStore tables.old tables.new) }
{
    sweep(alloc, tables, out, blame)?;
    blame.clear();
    note_loads(tables, blame, None)?;
    destroy_loads(alloc, tables, out)?;
    Ok(())
}

/// The first part of a pass, up to its walk, where no step under way was in its check as the event began or was cut: ongoing loads give way to the traversal that runs, then stray documents are discarded and loads of navigables without an entry dropped, as `clear_out` has it. HTML Standard, "apply the history step", "destroy a document" and "destroy a child navigable".
pub fn clear(
    alloc: Global,
    tables: &mut Tables,
    blame: &mut IndexMap<StateId, ReqId>,
    out: &mut Out,
    cause: Why,
) -> Result<(), OutOfMemory>
    ghost p: { InPass }
    requires passing { IsPassing p out.old tables.old }
    requires open_ { IsOpen p.event tables.old.running cause (now_of p.event out.old) }
    requires loads { MayStand tables.old.running (now_of p.event out.old) }
    requires blamed { AreBlamed (now_of p.event out.old) blame.old.entries }
    requires free { MayDiscardIn false p.event }
    ensures passing { OnOk result (IsPassing p out.new tables.new) }
    ensures open_ { OnOk result (IsOpen p.event tables.new.running cause (now_of p.event out.new)) }
    ensures loads { OnOk result (LoadsStand (now_of p.event out.new)) }
    ensures strays { OnOk result (AreLeftStrays (now_of p.event out.new) blame.new.entries) }
    ensures sent { OnOk result (SendsForStrays (now_of p.event out.old) (now_of p.event out.new) out.old out.new) }
    ensures rows { OnOk result (AreAwakeWithRows (now_of p.event out.new)) }
    ensures frees { OnOk result (FreesVisited p.event (now_of p.event out.old) → FreesVisited p.event (now_of p.event out.new)) }
    ensures left { OnOk result (LeavesPass (now_of p.event out.old) (now_of p.event out.new)) }
    ensures unmoved { OnOk result (KeepsUnmoved tables.old.running (now_of p.event out.old) (now_of p.event out.new)) }
    ensures only { OnOk result (HasClearedAll p.event tables.old.running out.old out.new) }
    ensures kept { OnOk result (KeepsStore tables.old tables.new) }
{
    give_way(alloc, tables, blame, out, cause)?;
    clear_out(alloc, tables, blame, out, cause)?;
    Ok(())
}

/// The rest of a pass, from its walk on, once stray documents were discarded and loads of navigables without an entry dropped: each navigable that needs it is shown its target, or has its document made; and who is awake is told the length and index that are due. `cause` is what orders are for that show or make documents where no traversal runs, and `tells` what those are for that tell. HTML Standard, "apply the history step".
pub fn serve_and_tell(
    alloc: Global,
    header: &Header,
    tables: &mut Tables,
    out: &mut Out,
    cause: Why,
    tells: Why,
) -> Result<(), OutOfMemory>
    ghost p: { InPass }
    requires passing { IsPassing p out.old tables.old }
    requires header { header.now ≡ p.event.header }
    requires may { MayServeAll p.event tables.old.running tables.old.kept.keep cause (now_of p.event out.old) }
    ensures passing { OnOk result (IsPassing p out.new tables.new) }
    ensures served { OnOk result (AreServed (now_of p.event out.new)) }
    ensures told { OnOk result (ends_told (now_of p.event out.new) ≡ true) }
    ensures passed { OnOk result (HasPassed p.event (now_of p.event out.new)) }
    ensures strays { OnOk result (KeepsLeftStrays (now_of p.event out.old) (now_of p.event out.new)) }
    ensures stray { OnOk result (WereStray (now_of p.event out.old) (now_of p.event out.new)) }
    ensures left { OnOk result (LeavesPass (now_of p.event out.old) (now_of p.event out.new)) }
    ensures calm { OnOk result (LeavesCalm tables.old.running (now_of p.event out.old) (now_of p.event out.new)) }
    ensures only { OnOk result (HasServedAll p.event tables.old.running cause tells out.old out.new) }
    ensures kept { OnOk result (KeepsStore tables.old tables.new) }
{
    serve_all(alloc, header, tables, out, cause)?;
    tell_all(alloc, tables, out, tells)?;
    Ok(())
}

/// One pass over the tab: where a traversal runs, the ongoing loads of those whom it moves give way to it; stray documents are discarded, each for the request that is noted in `blame` for its state, and loads of navigables without an entry dropped; each navigable that needs it is shown its target, or has its document made; and who is awake is told the length and index that are due. `cause` is what orders are for that show or make documents where no traversal runs, and `tells` what those are for that tell. HTML Standard, "apply the history step".
pub fn pass(
    alloc: Global,
    header: &Header,
    tables: &mut Tables,
    blame: &mut IndexMap<StateId, ReqId>,
    out: &mut Out,
    cause: Why,
    tells: Why,
) -> Result<(), OutOfMemory>
    ghost p: { InPass }
    requires passing { IsPassing p out.old tables.old }
    requires header { header.now ≡ p.event.header }
    requires may { MayPass p.event tables.old.running tables.old.kept.keep cause (now_of p.event out.old) }
    requires blamed { AreBlamed (now_of p.event out.old) blame.old.entries }
    requires frees { FreesVisited p.event (now_of p.event out.old) }
    requires free { MayDiscardIn false p.event }
    ensures passing { OnOk result (IsPassing p out.new tables.new) }
    ensures served { OnOk result (AreServed (now_of p.event out.new)) }
    ensures told { OnOk result (ends_told (now_of p.event out.new) ≡ true) }
    ensures strays { OnOk result (AreLeftStrays (now_of p.event out.new) blame.new.entries) }
    ensures loaded { OnOk result (WereLoaded (now_of p.event out.old) (now_of p.event out.new)) }
    ensures sent { OnOk result (SendsForStrays (now_of p.event out.old) (now_of p.event out.new) out.old out.new) }
    ensures passed { OnOk result (HasPassed p.event (now_of p.event out.new)) }
    ensures left { OnOk result (LeavesPass (now_of p.event out.old) (now_of p.event out.new)) }
    ensures calm { OnOk result (LeavesCalm tables.old.running (now_of p.event out.old) (now_of p.event out.new)) }
    ensures only { OnOk result (HasPutOut p.event tables.old.running cause tells out.old out.new) }
    ensures kept { OnOk result (KeepsStore tables.old tables.new) }
{
    give_way(alloc, tables, blame, out, cause)?;
    clear_out(alloc, tables, blame, out, cause)?;
    serve_and_tell(alloc, header, tables, out, cause, tells)?;
    Ok(())
}
