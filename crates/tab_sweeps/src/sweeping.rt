//! The stray documents are discarded.
ghost use Rattle.std.specs.Prelude.{◌≡◌, ◌+◌, IsSome, OnOk, Some, true};
ghost use Rattle.nav_tree.specs.Tree.{is_state, state_of};
ghost use Rattle.seen_laws.specs.InEvent.{now_of};
ghost use Rattle.std.specs.Map.{lookup};
ghost use Rattle.tab_doors.specs.Working.{KeepsStore};
ghost use Rattle.tab_passes.specs.Passing.{InPass, IsPassingIn};
ghost use Rattle.tab_sweeps.specs.Sweeping.{AreBlamed, HasOnlySwept, IsSweptTurn, NoneStray, StraysAreLeft};
ghost use Rattle.tab_sweeps.specs.Turns.{AreStrays, HasSweptNext, InSweep, IsSweepTurn, IsSweepingAt};

use crate::strays::strays_among;
use address::OutOfMemory;
use indexmap::IndexMap;
use log_model::{Docs, Out, Why};
use nav_tree::NavTree;
use std::alloc::Global;
use tab_doors::Tables;
use tab_ids::{DocId, ReqId, StateId};
use tab_passes::discard;

/// The document state for which a document is there.
fn state_there(tree: &NavTree, doc: DocId) -> StateId
    requires { IsSome (state_of doc tree.now) }
    ensures { state_of doc tree.now ≡ Some result }
{
    match tree.state_of(doc) {
        Some(state) => state,
        None => unreachable!(),
    }
}

/// The request that is noted for a document state.
fn blamed(blame: &IndexMap<StateId, ReqId>, state: StateId) -> ReqId
    requires { IsSome (lookup (is_state state) blame.now.entries) }
    ensures { lookup (is_state state) blame.now.entries ≡ Some result }
{
    match blame.get(&state) {
        Some(req) => *req,
        None => unreachable!(),
    }
}

/// The one of these documents whose turn it is, is discarded, for the request that is noted for its state.
fn sweep_at(
    alloc: Global,
    tables: &mut Tables,
    out: &mut Out,
    blame: &IndexMap<StateId, ReqId>,
    strays: &Docs,
    i: usize,
) -> Result<(), OutOfMemory>
    ghost n: { InSweep }
    requires turn { IsSweepTurn n strays.now i }
    requires sweeping { IsSweepingAt n.pass blame.now.entries strays.now i out.old tables.old }
    ensures sweeping { OnOk result (IsSweepingAt n.pass blame.now.entries strays.now (i + 1) out.new tables.new) }
    ensures turn { OnOk result (IsSweptTurn (now_of n.pass.event out.old) (now_of n.pass.event out.new)) }
    ensures only { OnOk result (HasSweptNext (now_of n.pass.event out.old) blame.now.entries strays.now i out.old out.new) }
    ensures kept { OnOk result (KeepsStore tables.old tables.new) }
{
    let doc = *strays.at(i);
    let state = state_there(&tables.tree, doc);
    let req = blamed(blame, state);
    discard(alloc, tables, out, doc, state, Why::Req(req))?;
    Ok(())
}

/// These documents, which are the stray ones, are discarded, in their order.
fn sweep_each(
    alloc: Global,
    tables: &mut Tables,
    out: &mut Out,
    blame: &IndexMap<StateId, ReqId>,
    strays: &Docs,
) -> Result<(), OutOfMemory>
    ghost p: { InPass }
    requires passing { IsPassingIn true p out.old tables.old }
    requires blamed { AreBlamed (now_of p.event out.old) blame.now.entries }
    requires lefts { StraysAreLeft p.event out.old blame.now.entries }
    requires strays { AreStrays (now_of p.event out.old) strays.now }
    ensures passing { OnOk result (IsPassingIn true p out.new tables.new) }
    ensures swept { OnOk result (NoneStray (now_of p.event out.new)) }
    ensures only { OnOk result (HasOnlySwept (now_of p.event out.old) blame.now.entries out.old out.new) }
    ensures left { OnOk result (IsSweptTurn (now_of p.event out.old) (now_of p.event out.new)) }
    ensures kept { OnOk result (KeepsStore tables.old tables.new) }
{
    for i in 0..strays.len() {
        sweep_at(alloc, tables, out, blame, strays, i)?;
    }
    Ok(())
}

/// Each document that is made and there, whose document state has neither an entry nor an ongoing load, is discarded, in the order of their numbers, each for the request that is noted for its state. Who is awake on it falls asleep, with those below. HTML Standard, "destroy a document".
pub fn sweep(
    alloc: Global,
    tables: &mut Tables,
    out: &mut Out,
    blame: &IndexMap<StateId, ReqId>,
) -> Result<(), OutOfMemory>
    ghost p: { InPass }
    requires passing { IsPassingIn true p out.old tables.old }
    requires blamed { AreBlamed (now_of p.event out.old) blame.now.entries }
    requires lefts { StraysAreLeft p.event out.old blame.now.entries }
    ensures passing { OnOk result (IsPassingIn true p out.new tables.new) }
    ensures swept { OnOk result (NoneStray (now_of p.event out.new)) }
    ensures only { OnOk result (HasOnlySwept (now_of p.event out.old) blame.now.entries out.old out.new) }
    ensures left { OnOk result (IsSweptTurn (now_of p.event out.old) (now_of p.event out.new)) }
    ensures kept { OnOk result (KeepsStore tables.old tables.new) }
{
    let docs = tables.tree.docs()?;
    let strays = strays_among(alloc, tables, &docs)?;
    sweep_each(alloc, tables, out, blame, &strays)?;
    Ok(())
}
