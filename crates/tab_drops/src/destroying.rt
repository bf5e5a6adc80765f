//! Loads of navigables that lost their entries are dropped.
ghost use Rattle.std.specs.Prelude.{◌≡◌, OnOk, true};
ghost use Rattle.seen_facts.specs.LoadEnds.Standing.{LoadsStand};
ghost use Rattle.seen_laws.specs.InEvent.{now_of};
ghost use Rattle.tab_doors.specs.Working.{KeepsStore};
ghost use Rattle.tab_drops.specs.Dropping.{ArePlaced, AreUnheld, EndsLoads, HasOnlyDestroyed, HaveEntries, IsBare, IsDestroyedLoad, LeavesAll, StandOrBare};
ghost use Rattle.tab_drops.specs.Turns.{IsTurnAt};
ghost use Rattle.tab_drops.specs.Ways.{bare_load_in};
ghost use Rattle.tab_moves.specs.PassedOn.{IsPassingIn};
ghost use Rattle.tab_moves.specs.Moving.{InPass};

use crate::dropping::load_of;
use crate::listing::loading;
use crate::ways::is_bare;
use address::OutOfMemory;
use load_doors::destroy_load;
use log_model::Out;
use std::alloc::Global;
use tab_doors::Tables;
use tab_ids::{NavId, ReqId};

/// The ongoing load of a navigable without an entry, and the request that took the last ones.
fn bare_load(tables: &Tables, nav: NavId) -> Option<(ReqId, ReqId)>
    ensures { result ≡ bare_load_in tables.now nav }
{
    if !is_bare(&tables.store, nav) {
        return None;
    }
    let req = load_of(tables, nav)?;
    let by = tables.tree.destroyed_by(nav)?;
    Some((req, by))
}

/// The ongoing load of a navigable is dropped, if the navigable has no entry.
fn destroy_if(tables: &mut Tables, out: &mut Out, nav: NavId) -> Result<(), OutOfMemory>
    ghost p: { InPass }
    requires passing { IsPassingIn true p out.old tables.old }
    requires held { AreUnheld p.event (now_of p.event out.old) }
    requires placed { ArePlaced (now_of p.event out.old) }
    ensures passing { OnOk result (IsPassingIn true p out.new tables.new) }
    ensures turn { OnOk result (IsTurnAt (IsDestroyedLoad (now_of p.event out.old)) (IsBare (now_of p.event out.old)) nav (now_of p.event out.old) (now_of p.event out.new) out.old out.new) }
    ensures kept { OnOk result (KeepsStore tables.old tables.new) }
{
    match bare_load(tables, nav) {
        Some((req, by)) => destroy_load(tables, out, nav, req, by)?,
        None => {}
    }
    Ok(())
}

/// Each ongoing load of a navigable that has no entry is dropped by the request that took the last ones, in the order of the loads' requests. HTML Standard, "destroy a child navigable".
pub fn destroy_loads(alloc: Global, tables: &mut Tables, out: &mut Out) -> Result<(), OutOfMemory>
    ghost p: { InPass }
    requires passing { IsPassingIn true p out.old tables.old }
    requires held { AreUnheld p.event (now_of p.event out.old) }
    requires placed { ArePlaced (now_of p.event out.old) }
    ensures passing { OnOk result (IsPassingIn true p out.new tables.new) }
    ensures gone { OnOk result (EndsLoads (IsBare (now_of p.event out.old)) (now_of p.event out.old) (now_of p.event out.new)) }
    ensures entries { OnOk result (HaveEntries (now_of p.event out.new)) }
    ensures loads { OnOk result (StandOrBare (now_of p.event out.old) → LoadsStand (now_of p.event out.new)) }
    ensures only { OnOk result (HasOnlyDestroyed (now_of p.event out.old) out.old out.new) }
    ensures left { OnOk result (LeavesAll (now_of p.event out.old) (now_of p.event out.new)) }
    ensures kept { OnOk result (KeepsStore tables.old tables.new) }
{
    let navs = loading(alloc, &tables.tree, &tables.loads)?;
    for i in 0..navs.len() {
        destroy_if(tables, out, *navs.at(i))?;
    }
    Ok(())
}
