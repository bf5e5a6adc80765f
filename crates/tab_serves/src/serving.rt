//! Each navigable of the walk that needs it is moved to its target's document, or that is made.
ghost use Rattle.std.specs.Prelude.{◌≡◌, ◌+◌, ◌<◌, OnOk, length};
ghost use Rattle.seen_laws.specs.InEvent.{now_of};
ghost use Rattle.tab_doors.specs.Working.{KeepsStore};
ghost use Rattle.tab_walk.specs.PassedOn.{IsPassing, need_in};
ghost use Rattle.tab_walk.specs.Cutting.{InPass};
ghost use Rattle.tab_serves.specs.Serving.{DiscardsUnheld, HasOnlyServed, HasWalked, IsWalking, LeavesLog, MayWalk, walk_by};
ghost use Rattle.seen_facts.specs.Walk.Serving.{AreServed};

use address::OutOfMemory;
use apply_plan::{Need, need_of, walk};
use log_model::{Header, Navs, Out, Why};
use std::alloc::Global;
use tab_doors::Tables;
use tab_ids::NavId;
use tab_moves::make_target;
use tab_passes::aim;
use tab_walk::move_to;

/// What the navigable needs at the aim.
fn need_at(tables: &Tables, nav: NavId) -> Option<Need>
    ensures { result ≡ need_in tables.now nav }
{
    need_of(&tables.store, &tables.tree, aim(tables), nav)
}

/// The next navigable of the walk is served what it needs, if it needs something.
fn serve_one(
    alloc: Global,
    header: &Header,
    tables: &mut Tables,
    out: &mut Out,
    navs: &Navs,
    i: usize,
    cause: Why,
) -> Result<(), OutOfMemory>
    ghost p: { InPass }
    requires walking { IsWalking (walk_by p cause navs.now) i out.old tables.old }
    requires low { i < length navs.now }
    requires header { header.now ≡ p.event.header }
    ensures walking { OnOk result (IsWalking (walk_by p cause navs.now) (i + 1) out.new tables.new) }
    ensures left { OnOk result (LeavesLog (now_of p.event out.old) (now_of p.event out.new)) }
    ensures only { OnOk result (HasOnlyServed tables.old.running cause out.old out.new) }
    ensures quiet { OnOk result (DiscardsUnheld p.event out.old out.new) }
    ensures kept { OnOk result (KeepsStore tables.old tables.new) }
{
    let nav = *navs.at(i);
    match need_at(tables, nav) {
        Some(need) => match need {
            Need::Move(_, entry) => move_to(alloc, header, tables, out, nav, entry, cause)?,
            Need::Populate(_, entry) => make_target(header, tables, out, nav, entry, cause)?,
        },
        None => {}
    }
    Ok(())
}

/// Each navigable that the walk at the aim finds in need of its target is moved to the document that is there for it, or one is made, from the top down, one after the other. The orders are for the traversal that runs, where one does, else for the cause. HTML Standard, "apply the history step".
pub fn serve_all(
    alloc: Global,
    header: &Header,
    tables: &mut Tables,
    out: &mut Out,
    cause: Why,
) -> Result<(), OutOfMemory>
    ghost p: { InPass }
    requires passing { IsPassing p out.old tables.old }
    requires header { header.now ≡ p.event.header }
    requires may { MayWalk p.event tables.old.running tables.old.kept.keep cause (now_of p.event out.old) }
    ensures passing { OnOk result (IsPassing p out.new tables.new) }
    ensures served { OnOk result (AreServed (now_of p.event out.new)) }
    ensures walked { OnOk result (HasWalked p.event (now_of p.event out.new)) }
    ensures left { OnOk result (LeavesLog (now_of p.event out.old) (now_of p.event out.new)) }
    ensures only { OnOk result (HasOnlyServed tables.old.running cause out.old out.new) }
    ensures quiet { OnOk result (DiscardsUnheld p.event out.old out.new) }
    ensures kept { OnOk result (KeepsStore tables.old tables.new) }
{
    let navs = walk(alloc, &tables.tree)?;
    for i in 0..navs.len() {
        serve_one(alloc, header, tables, out, &navs, i, cause)?;
    }
    Ok(())
}
