//! The documents below a discarded one are discarded.
ghost use Rattle.std.specs.Prelude.{◌≡◌, OnOk};
ghost use Rattle.apply_plan.specs.Order.{parent_in};
ghost use Rattle.seen_laws.specs.InEvent.{now_of};
ghost use Rattle.tab_doors.specs.Working.{KeepsStore};
ghost use Rattle.tab_evicts.specs.Evicting.{HasOnlyDiscarded, InLetting, IsLetting, IsNotBelow, NoMoreBelow, NoneOfBelow, StaysPlaced, below_in, hangs_in, is_owned_by};

use address::OutOfMemory;
use log_model::{Docs, Out, Why};
use nav_tree::NavTree;
use std::alloc::Global;
use tab_doors::Tables;
use tab_ids::{DocId, NavId, StateId};
use tab_passes::discard;

/// Whether the navigable hangs on the document state.
fn is_owned_by(tree: &NavTree, state: StateId, nav: NavId) -> bool
    ensures { result ≡ is_owned_by tree.now state nav }
{
    match tree.nav(nav) {
        Some(fields) => fields.owner == Some(state),
        None => false,
    }
}

/// The navigable to which one was added.
fn parent_of(tree: &NavTree, nav: NavId) -> Option<NavId>
    ensures { result ≡ parent_in tree.now nav }
{
    tree.nav(nav)?.parent
}

/// Whether the navigable, or one of those above it, hangs on the document state.
fn hangs_on(tree: &NavTree, state: StateId, nav: NavId) -> bool
    ensures { result ≡ hangs_in tree.now state nav }
{
    let mut at = nav;
    for i in 0..tree.len() {
        if is_owned_by(tree, state, at) {
            return true;
        }
        match parent_of(tree, at) {
            Some(parent) => at = parent,
            None => return false,
        }
    }
    is_owned_by(tree, state, at)
}

/// The state of a document that is there, where it is below that of the state.
fn state_below(tables: &Tables, gone: StateId, doc: DocId) -> Option<StateId>
    ensures { result ≡ below_in tables.now gone doc }
{
    let nav = tables.nav_of(doc)?;
    if hangs_on(&tables.tree, gone, nav) {
        tables.tree.state_of(doc)
    } else {
        None
    }
}

/// The document is discarded, if it is there and below that of the state.
fn discard_if(
    alloc: Global,
    tables: &mut Tables,
    out: &mut Out,
    gone: StateId,
    doc: DocId,
    why: Why,
) -> Result<(), OutOfMemory>
    ghost l: { InLetting }
    requires letting { IsLetting l gone why out.old tables.old }
    ensures letting { OnOk result (IsLetting l gone why out.new tables.new) }
    ensures gone { OnOk result (IsNotBelow (now_of l.pass.event out.new) gone doc) }
    ensures fewer { OnOk result (NoMoreBelow gone (now_of l.pass.event out.old) (now_of l.pass.event out.new)) }
    ensures only { OnOk result (HasOnlyDiscarded why out.old out.new) }
    ensures stays { OnOk result (StaysPlaced (now_of l.pass.event out.old) (now_of l.pass.event out.new)) }
    ensures kept { OnOk result (KeepsStore tables.old tables.new) }
{
    match state_below(tables, gone, doc) {
        Some(state) => discard(alloc, tables, out, doc, state, why)?,
        None => {}
    }
    Ok(())
}

/// The documents of these that are there and below that of a state, which was discarded, are discarded, too, in their order. Nobody is awake on them.
pub fn discard_below(
    alloc: Global,
    tables: &mut Tables,
    out: &mut Out,
    gone: StateId,
    docs: &Docs,
    why: Why,
) -> Result<(), OutOfMemory>
    ghost l: { InLetting }
    requires letting { IsLetting l gone why out.old tables.old }
    ensures letting { OnOk result (IsLetting l gone why out.new tables.new) }
    ensures gone { OnOk result (NoneOfBelow docs.now (now_of l.pass.event out.new) gone) }
    ensures fewer { OnOk result (NoMoreBelow gone (now_of l.pass.event out.old) (now_of l.pass.event out.new)) }
    ensures only { OnOk result (HasOnlyDiscarded why out.old out.new) }
    ensures stays { OnOk result (StaysPlaced (now_of l.pass.event out.old) (now_of l.pass.event out.new)) }
    ensures kept { OnOk result (KeepsStore tables.old tables.new) }
{
    for i in 0..docs.len() {
        discard_if(alloc, tables, out, gone, *docs.at(i), why)?;
    }
    Ok(())
}
