//! Where no document may be kept, the one that is left is discarded, and those that were shown below it.
ghost use Rattle.std.specs.Prelude.{◌≡◌, ◌+◌, [], IsSome, OnOk, Some, drop, take};
ghost use Rattle.nav_tree.specs.Tree.{state_of};
ghost use Rattle.seen_laws.specs.InEvent.{now_of};
ghost use Rattle.tab_doors.specs.Working.{KeepsStore};
ghost use Rattle.tab_evicts.specs.Evicting.{HasOnlyDiscarded, StaysPlaced};
ghost use Rattle.log_model.specs.Seen.{document_of};
ghost use Rattle.tab_moves.specs.Showing.{IsToShow};
ghost use Rattle.tab_moves.specs.Moving.{AreLeftUnder};
ghost use Rattle.tab_moves.specs.PassedOn.{IsLeaving, left_then, without_all};
ghost use Rattle.tab_walk.specs.Cutting.{InCutLeft, InCutTurn, InCuts, IsCutTurn, IsCutting, MayCut, OffAreLeft, cut_of};
ghost use Rattle.tab_walk.specs.Moving.{HasOnlyLeft, IsPart};

use address::OutOfMemory;
use log_model::{Docs, Out, Why};
use nav_tree::NavTree;
use std::alloc::Global;
use tab_doors::Tables;
use tab_ids::{DocId, NavId, StateId};
use tab_passes::{discard, docs_below};

/// The document state for which a document is there.
fn state_there(tree: &NavTree, doc: DocId) -> StateId
    requires { IsSome (state_of doc tree.now) }
    ensures { state_of doc tree.now ≡ Some result }
{
    match tree.state_of(doc) {
        Some(state) => state,
        None => unreachable!(),
    }
}

/// The one of these documents whose turn it is, is discarded; nobody is awake on it any more.
fn cut_at(
    alloc: Global,
    tables: &mut Tables,
    out: &mut Out,
    docs: &Docs,
    i: usize,
    why: Why,
) -> Result<(), OutOfMemory>
    ghost n: { InCutTurn }
    requires turn { IsCutTurn n docs.now i }
    requires cutting { IsCutting n.cut n.gone why n.rest (drop i docs.now) out.old tables.old }
    ensures cutting { OnOk result (IsCutting n.cut n.gone why (without_all (take (i + 1) docs.now) n.first) (drop (i + 1) docs.now) out.new tables.new) }
    ensures only { OnOk result (HasOnlyDiscarded why out.old out.new) }
    ensures stays { OnOk result (StaysPlaced (now_of n.cut.pass.event out.old) (now_of n.cut.pass.event out.new)) }
    ensures kept { OnOk result (KeepsStore tables.old tables.new) }
{
    let doc = *docs.at(i);
    let state = state_there(&tables.tree, doc);
    discard(alloc, tables, out, doc, state, why)?;
    Ok(())
}

/// These documents are discarded, in their order; nobody is awake on them any more.
fn cut_each(
    alloc: Global,
    tables: &mut Tables,
    out: &mut Out,
    docs: &Docs,
    why: Why,
) -> Result<(), OutOfMemory>
    ghost n: { InCuts }
    requires cutting { IsCutting n.cut n.gone why n.first docs.now out.old tables.old }
    ensures cutting { OnOk result (IsCutting n.cut n.gone why (without_all docs.now n.first) [] out.new tables.new) }
    ensures only { OnOk result (HasOnlyDiscarded why out.old out.new) }
    ensures stays { OnOk result (StaysPlaced (now_of n.cut.pass.event out.old) (now_of n.cut.pass.event out.new)) }
    ensures kept { OnOk result (KeepsStore tables.old tables.new) }
{
    for i in 0..docs.len() {
        cut_at(alloc, tables, out, docs, i, why)?;
    }
    Ok(())
}

/// The navigable leaves the document that it was shown last, of this state, where none may be kept: that one is discarded, and then those that are shown below it, in the order of the walk.
pub(crate) fn cut_left(
    alloc: Global,
    tables: &mut Tables,
    out: &mut Out,
    nav: NavId,
    left: DocId,
    old: StateId,
    why: Why,
) -> Result<(), OutOfMemory>
    ghost k: { InCutLeft }
    requires leaving { IsLeaving k.m.pass (Some (cut_of k.m)) [] out.old tables.old }
    requires may { MayCut k.m tables.old.running (now_of k.m.pass.event out.old) nav left old why }
    requires rest { k.rest ≡ left_then (now_of k.m.pass.event out.old) left [] }
    requires new { document_of (now_of k.m.pass.event out.old) k.m.doc ≡ Some k.new }
    requires lefts { AreLeftUnder k.m.pass.event out.old nav why }
    requires off { OffAreLeft k.m.pass.event out.old why }
    ensures leaving { OnOk result (IsLeaving k.m.pass (Some (cut_of k.m)) [] out.new tables.new) }
    ensures shows { OnOk result (IsToShow (Some (cut_of k.m)) tables.new.running tables.new.kept.keep (now_of k.m.pass.event out.new) k.m.nav k.m.doc k.m.entry k.m.cause) }
    ensures part { OnOk result (IsPart (now_of k.m.pass.event out.old) (now_of k.m.pass.event out.new) k.m.nav) }
    ensures left { OnOk result (HasOnlyLeft why out.old out.new) }
    ensures kept { OnOk result (KeepsStore tables.old tables.new) }
{
    let below = docs_below(alloc, &tables.tree, nav)?;
    discard(alloc, tables, out, left, old, why)?;
    cut_each(alloc, tables, out, &below, why)?;
    Ok(())
}
