//! Who is awake is told the length and index that are due.
ghost use Rattle.std.specs.Prelude.{◌≡◌, OnOk, true, option_and_then};
ghost use Rattle.log_model.specs.ActsAtOnce.{ends_told};
ghost use Rattle.log_model.specs.Places.{pair_in};
ghost use Rattle.nav_tree.specs.Tree.{nav_of};
ghost use Rattle.seen_laws.specs.InEvent.{now_of};
ghost use Rattle.step_index.specs.Held.{history_held};
ghost use Rattle.tab_doors.specs.Working.{KeepsStore};
ghost use Rattle.tab_passes.specs.Passing.{InPass, IsPassing};
ghost use Rattle.tab_passes.specs.Telling.{awake_on, step_in, if_new, untold_in, HasOnlyTold, IsToldTurn, IsToldMore};

use crate::reading::{aim, pair_at};
use address::OutOfMemory;
use apply_plan::walk;
use entry_store::Store;
use log_model::{Out, Why};
use nav_tree::{Nav, NavStatus};
use std::alloc::Global;
use tab_doors::Tables;
use tab_ids::{DocId, NavId};

/// The document that a navigable is awake on.
fn awake_on(status: NavStatus) -> Option<DocId>
    ensures { result ≡ awake_on status }
{
    match status {
        NavStatus::Awake(doc) => Some(doc),
        NavStatus::Lost => None,
        NavStatus::Asleep => None,
    }
}

/// The length and index that a navigable is to be told, as the traversal that runs has moved it or not.
fn due_pair(tables: &Tables, moved: bool) -> (u32, u32)
    ensures { (result.0, result.1) ≡ pair_in (history_held tables.now.store).rows (step_in (history_held tables.now.store) tables.now.running tables.now.goal moved) }
{
    let step = if moved {
        aim(tables)
    } else {
        tables.store.current()
    };
    pair_at(tables, step)
}

/// The pair, unless it was told before.
fn if_new(told: Option<(u32, u32)>, pair: (u32, u32)) -> Option<(u32, u32)>
    ensures { result ≡ if_new told pair }
{
    if told == Some(pair) { None } else { Some(pair) }
}

/// The document of an awake navigable, and the length and index that it is to be told.
fn untold(tables: &Tables, nav: NavId) -> Option<(DocId, (u32, u32))>
    ensures { result ≡ option_and_then (untold_in (history_held tables.now.store) tables.now.running tables.now.goal) (nav_of nav tables.now.tree) }
{
    let fields = tables.tree.nav(nav)?;
    let doc = awake_on(fields.status)?;
    let pair = if_new(fields.told, due_pair(tables, fields.moved))?;
    Some((doc, pair))
}

/// The navigable's document is told length and index, where these are due.
fn tell_one(tables: &mut Tables, out: &mut Out, nav: NavId, why: Why) -> Result<(), OutOfMemory>
    ghost p: { InPass }
    requires passing { IsPassing p out.old tables.old }
    ensures passing { OnOk result (IsPassing p out.new tables.new) }
    ensures told { OnOk result (IsToldTurn (now_of p.event out.old) (now_of p.event out.new) nav) }
    ensures only { OnOk result (HasOnlyTold why out.old out.new) }
    ensures kept { OnOk result (KeepsStore tables.old tables.new) }
{
    match untold(tables, nav) {
        Some((doc, (length, index))) => tables.tell(out, nav, doc, why, length, index)?,
        None => {}
    }
    Ok(())
}

/// Each awake navigable's document is told the length and index that are due, where it wasn't, in the order of the walk. Who the running traversal has moved is told those of the step that it leads to, everybody else those of the current step. `why` stands in each order. HTML Standard, "update document for history step application".
pub fn tell_all(
    alloc: Global,
    tables: &mut Tables,
    out: &mut Out,
    why: Why,
) -> Result<(), OutOfMemory>
    ghost p: { InPass }
    requires passing { IsPassing p out.old tables.old }
    ensures passing { OnOk result (IsPassing p out.new tables.new) }
    ensures told { OnOk result (ends_told (now_of p.event out.new) ≡ true) }
    ensures more { OnOk result (IsToldMore (now_of p.event out.old) (now_of p.event out.new)) }
    ensures only { OnOk result (HasOnlyTold why out.old out.new) }
    ensures kept { OnOk result (KeepsStore tables.old tables.new) }
{
    let navs = walk(alloc, &tables.tree)?;
    for i in 0..navs.len() {
        tell_one(tables, out, *navs.at(i), why)?;
    }
    Ok(())
}
