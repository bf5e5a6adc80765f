//! Loads are dropped for another request: the traversal that runs, or a load that was applied.
ghost use Rattle.std.specs.Prelude.{◌≡◌, None, OnOk, Some, option_map};
ghost use Rattle.load_table.specs.Loads.{ongoing_load};
ghost use Rattle.seen_laws.specs.InEvent.{now_of};
ghost use Rattle.tab_doors.specs.Working.{KeepsStore};
ghost use Rattle.tab_drops.specs.Dropping.{AreUnheld, EndsLoads, HasOnlyDroppedBy, IsBelowNav, IsDroppedFor, IsLoadApplied, IsUnsettled, LeavesAll, StandOrBare, StandOrMove};
ghost use Rattle.tab_drops.specs.Turns.{GivesWay, IsAnyNav, IsFor, IsTurnAt};
ghost use Rattle.tab_moves.specs.PassedOn.{IsPassing};
ghost use Rattle.tab_moves.specs.Moving.{InPass};

use crate::listing::loading;
use crate::ways::{is_below, is_unsettled};
use address::OutOfMemory;
use load_doors::drop_load;
use log_model::Out;
use std::alloc::Global;
use tab_doors::Tables;
use tab_ids::{NavId, ReqId};

/// The request of a navigable's ongoing load.
pub fn load_of(tables: &Tables, nav: NavId) -> Option<ReqId>
    ensures { result ≡ option_map (λ load. load.req) (ongoing_load nav tables.now.loads) }
{
    match tables.loads.of(nav) {
        Some(load) => Some(load.req),
        None => None,
    }
}

/// The ongoing load of a navigable, if it has one, is dropped for another request.
fn drop_one(tables: &mut Tables, out: &mut Out, nav: NavId, by: ReqId) -> Result<(), OutOfMemory>
    ghost p: { InPass }
    requires passing { IsPassing p out.old tables.old }
    requires held { AreUnheld p.event (now_of p.event out.old) }
    requires gives_way { GivesWay (now_of p.event out.old) tables.old.running by nav }
    ensures passing { OnOk result (IsPassing p out.new tables.new) }
    ensures turn { OnOk result (IsTurnAt (IsFor by) IsAnyNav nav (now_of p.event out.old) (now_of p.event out.new) out.old out.new) }
    ensures kept { OnOk result (KeepsStore tables.old tables.new) }
{
    match load_of(tables, nav) {
        Some(req) => drop_load(tables, out, nav, req, by)?,
        None => {}
    }
    Ok(())
}

/// The ongoing load of a navigable is dropped for the traversal that runs, if the walk visits the navigable, or one above it, in need.
fn drop_if_moved(
    tables: &mut Tables,
    out: &mut Out,
    nav: NavId,
    by: ReqId,
) -> Result<(), OutOfMemory>
    ghost p: { InPass }
    requires passing { IsPassing p out.old tables.old }
    requires held { AreUnheld p.event (now_of p.event out.old) }
    requires runs { tables.old.running ≡ Some by }
    ensures passing { OnOk result (IsPassing p out.new tables.new) }
    ensures turn { OnOk result (IsTurnAt (IsDroppedFor (now_of p.event out.old) by (IsUnsettled (now_of p.event out.old))) (IsUnsettled (now_of p.event out.old)) nav (now_of p.event out.old) (now_of p.event out.new) out.old out.new) }
    ensures kept { OnOk result (KeepsStore tables.old tables.new) }
{
    if is_unsettled(tables, nav) {
        drop_one(tables, out, nav, by)?;
    }
    Ok(())
}

/// Ongoing loads give way to the traversal that runs: each whose navigable, or one above it, the walk visits at the aim and finds in need is dropped for it, in the order of the loads' requests. HTML Standard, "apply the history step".
pub fn drop_moved(
    alloc: Global,
    tables: &mut Tables,
    out: &mut Out,
    by: ReqId,
) -> Result<(), OutOfMemory>
    ghost p: { InPass }
    requires passing { IsPassing p out.old tables.old }
    requires held { AreUnheld p.event (now_of p.event out.old) }
    requires runs { tables.old.running ≡ Some by }
    requires loads { StandOrMove (now_of p.event out.old) }
    ensures passing { OnOk result (IsPassing p out.new tables.new) }
    ensures loads { OnOk result (StandOrBare (now_of p.event out.new)) }
    ensures gone { OnOk result (EndsLoads (IsUnsettled (now_of p.event out.old)) (now_of p.event out.old) (now_of p.event out.new)) }
    ensures only { OnOk result (HasOnlyDroppedBy (now_of p.event out.old) by (IsUnsettled (now_of p.event out.old)) out.old out.new) }
    ensures left { OnOk result (LeavesAll (now_of p.event out.old) (now_of p.event out.new)) }
    ensures kept { OnOk result (KeepsStore tables.old tables.new) }
{
    let navs = loading(alloc, &tables.tree, &tables.loads)?;
    for i in 0..navs.len() {
        drop_if_moved(tables, out, *navs.at(i), by)?;
    }
    Ok(())
}

/// The ongoing load of a navigable is dropped for a load that was applied, if the navigable is below that one's.
fn drop_if_below(
    tables: &mut Tables,
    out: &mut Out,
    top: NavId,
    nav: NavId,
    by: ReqId,
) -> Result<(), OutOfMemory>
    ghost p: { InPass }
    requires passing { IsPassing p out.old tables.old }
    requires held { AreUnheld p.event (now_of p.event out.old) }
    requires idle { tables.old.running ≡ None }
    requires applied { IsLoadApplied (now_of p.event out.old) top by }
    ensures passing { OnOk result (IsPassing p out.new tables.new) }
    ensures turn { OnOk result (IsTurnAt (IsDroppedFor (now_of p.event out.old) by (IsBelowNav (now_of p.event out.old) top)) (IsBelowNav (now_of p.event out.old) top) nav (now_of p.event out.old) (now_of p.event out.new) out.old out.new) }
    ensures kept { OnOk result (KeepsStore tables.old tables.new) }
{
    if is_below(&tables.tree, top, nav) {
        drop_one(tables, out, nav, by)?;
    }
    Ok(())
}

/// Ongoing loads give way to a load that was applied: each of a navigable below that one's is dropped for it, in the order of the loads' requests. No traversal runs then. HTML Standard, "navigate".
pub fn drop_below(
    alloc: Global,
    tables: &mut Tables,
    out: &mut Out,
    nav: NavId,
    by: ReqId,
) -> Result<(), OutOfMemory>
    ghost p: { InPass }
    requires passing { IsPassing p out.old tables.old }
    requires held { AreUnheld p.event (now_of p.event out.old) }
    requires idle { tables.old.running ≡ None }
    requires applied { IsLoadApplied (now_of p.event out.old) nav by }
    ensures passing { OnOk result (IsPassing p out.new tables.new) }
    ensures gone { OnOk result (EndsLoads (IsBelowNav (now_of p.event out.old) nav) (now_of p.event out.old) (now_of p.event out.new)) }
    ensures only { OnOk result (HasOnlyDroppedBy (now_of p.event out.old) by (IsBelowNav (now_of p.event out.old) nav) out.old out.new) }
    ensures left { OnOk result (LeavesAll (now_of p.event out.old) (now_of p.event out.new)) }
    ensures kept { OnOk result (KeepsStore tables.old tables.new) }
{
    let navs = loading(alloc, &tables.tree, &tables.loads)?;
    for i in 0..navs.len() {
        drop_if_below(tables, out, nav, *navs.at(i), by)?;
    }
    Ok(())
}
