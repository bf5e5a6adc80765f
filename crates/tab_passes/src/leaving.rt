//! Documents are left: frozen, or discarded.
ghost use Rattle.std.specs.Prelude.{◌≡◌, ◌+◌, ◌++◌, ◌∷◌, [], IfOk, OnOk, Some, drop};
ghost use Rattle.std.specs.Option.{option_to_list};
ghost use Rattle.seen_facts.proofs.Kept.States.{AreOfOwnStates};
ghost use Rattle.seen_facts.specs.Kept.Keeping.{kept_states};
ghost use Rattle.log_model.specs.declared.job.Task.TheVariants as tasks;
ghost use Rattle.log_model.specs.declared.row_kind.RowKind.TheVariants as rows;
ghost use Rattle.seen_laws.specs.InEvent.{now_of};
ghost use Rattle.tab_doors.specs.Keeping.{LetsGo};
ghost use Rattle.tab_doors.specs.Orders.{IsThere, order_to};
ghost use Rattle.tab_doors.specs.Working.{KeepsStore, MayDiscardIn, MaySend};
ghost use Rattle.page_cache.specs.Kept.{left_first};
ghost use Rattle.tab_passes.specs.Passing.{InPass, IsPassing};
ghost use Rattle.log_model.specs.AfterPlaces.{without_doc};
ghost use Rattle.tab_passes.specs.Leaving.{HasOnlyFrozen, InDiscarding, InLeaving, InNext, InTurn, IsFreezing, IsFreezingAt, IsGoneAt, IsLeaving, IsLeavingIn, IsStill, IsTurnAt, MayLeave, left_then, without_all};

use crate::sleeping::sleepers;
use address::OutOfMemory;
use log_model::{Docs, Out, Why};
use std::alloc::Global;
use tab_doors::Tables;
use tab_ids::{DocId, StateId};

/// A move to a document begins, for which its navigable leaves the document of a state: that one is kept from then on. Where too many are, the state that is kept longest is let go, and returned.
pub fn begin_move(
    tables: &mut Tables,
    out: &Out,
    doc: DocId,
    left: StateId,
) -> Result<Option<StateId>, OutOfMemory>
    ghost p: { InPass }
    requires passing { IsPassing p out.now tables.old }
    ensures leaving { OnOk result (IsLeaving p (Some (record { doc = doc; left = Some left })) [] out.now tables.new) }
    ensures gone { IfOk result (λ gone. option_to_list gone ≡ drop tables.old.kept.keep (left_first left tables.old.kept.states)) }
    ensures kept { OnOk result (KeepsStore tables.old tables.new) }
{
    let (_rows, _doc) = (out.len(), doc);
    let gone = tables.kept.leave(left)?;
    Ok(gone)
}

/// A document is frozen as it is left; who is awake on it falls asleep, with those below.
pub fn freeze(
    alloc: Global,
    tables: &mut Tables,
    out: &mut Out,
    doc: DocId,
    why: Why,
) -> Result<(), OutOfMemory>
    ghost l: { InLeaving }
    requires leaving { IsLeaving l.pass l.move l.docs out.old tables.old }
    requires may { MayLeave (now_of l.pass.event out.old) doc why }
    requires sends { MaySend l.move l.pass.event out.old (order_to (now_of l.pass.event out.old) doc why tasks.Freeze) }
    requires there { IsThere (now_of l.pass.event out.old) doc }
    ensures leaving { OnOk result (IsLeaving l.pass l.move (left_then (now_of l.pass.event out.old) doc l.docs) out.new tables.new) }
    ensures out { OnOk result (out.new ≡ out.old ++ rows.Sent (order_to (now_of l.pass.event out.old) doc why tasks.Freeze) ∷ []) }
    ensures kept { OnOk result (KeepsStore tables.old tables.new) }
{
    let navs = sleepers(alloc, &tables.tree, doc)?;
    tables.freeze(out, &navs, doc, why)?;
    Ok(())
}

/// The next of the documents below one that was left is frozen; nobody is awake on it any more.
fn freeze_next(
    alloc: Global,
    tables: &mut Tables,
    out: &mut Out,
    doc: DocId,
    why: Why,
) -> Result<(), OutOfMemory>
    ghost n: { InNext }
    requires freezing { IsFreezing n.freezing why n.left (doc ∷ n.docs) out.old tables.old }
    ensures freezing { OnOk result (IsFreezing n.freezing why (without_doc doc n.left) n.docs out.new tables.new) }
    ensures only { OnOk result (HasOnlyFrozen why (doc ∷ []) out.old out.new) }
    ensures still { OnOk result (IsStill (doc ∷ []) (now_of n.freezing.pass.event out.old) (now_of n.freezing.pass.event out.new)) }
    ensures kept { OnOk result (KeepsStore tables.old tables.new) }
{
    freeze(alloc, tables, out, doc, why)?;
    Ok(())
}

/// The one of these documents whose turn it is, is frozen.
fn freeze_at(
    alloc: Global,
    tables: &mut Tables,
    out: &mut Out,
    docs: &Docs,
    i: usize,
    why: Why,
) -> Result<(), OutOfMemory>
    ghost n: { InTurn }
    requires turn { IsTurnAt n docs.now i }
    requires freezing { IsFreezingAt n.next.freezing why n.first docs.now i out.old tables.old }
    ensures freezing { OnOk result (IsFreezingAt n.next.freezing why n.first docs.now (i + 1) out.new tables.new) }
    ensures only { OnOk result (HasOnlyFrozen why docs.now out.old out.new) }
    ensures still { OnOk result (IsStill docs.now (now_of n.next.freezing.pass.event out.old) (now_of n.next.freezing.pass.event out.new)) }
    ensures kept { OnOk result (KeepsStore tables.old tables.new) }
{
    freeze_next(alloc, tables, out, *docs.at(i), why)?;
    Ok(())
}

/// Documents below one that was left are frozen, one after the other; nobody is awake on them any more.
pub fn freeze_each(
    alloc: Global,
    tables: &mut Tables,
    out: &mut Out,
    docs: &Docs,
    why: Why,
) -> Result<(), OutOfMemory>
    ghost n: { InNext }
    requires freezing { IsFreezing n.freezing why n.left docs.now out.old tables.old }
    ensures freezing { OnOk result (IsFreezing n.freezing why (without_all docs.now n.left) [] out.new tables.new) }
    ensures only { OnOk result (HasOnlyFrozen why docs.now out.old out.new) }
    ensures still { OnOk result (IsStill docs.now (now_of n.freezing.pass.event out.old) (now_of n.freezing.pass.event out.new)) }
    ensures kept { OnOk result (KeepsStore tables.old tables.new) }
{
    for i in 0..docs.len() {
        freeze_at(alloc, tables, out, docs, i, why)?;
    }
    Ok(())
}

/// The document of a state is discarded; who is awake on it falls asleep, with those below.
pub fn discard(
    alloc: Global,
    tables: &mut Tables,
    out: &mut Out,
    doc: DocId,
    state: StateId,
    why: Why,
) -> Result<(), OutOfMemory>
    ghost l: { InDiscarding }
    requires leaving { IsLeavingIn l.sweeps l.pass l.move l.docs out.old tables.old }
    requires may { MayLeave (now_of l.pass.event out.old) doc why }
    requires sends { MaySend l.move l.pass.event out.old (order_to (now_of l.pass.event out.old) doc why tasks.Discard) }
    requires gone { IsGoneAt (now_of l.pass.event out.old) tables.old.tree tables.old.loads doc state }
    requires own_state { AreOfOwnStates (now_of l.pass.event out.old).documents (now_of l.pass.event out.old).kept doc state }
    requires lets_go { LetsGo l.move tables.old.kept.keep (kept_states (now_of l.pass.event out.old)) state }
    requires free { MayDiscardIn l.sweeps l.pass.event }
    ensures leaving { OnOk result (IsLeavingIn l.sweeps l.pass l.move (left_then (now_of l.pass.event out.old) doc l.docs) out.new tables.new) }
    ensures out { OnOk result (out.new ≡ out.old ++ rows.Sent (order_to (now_of l.pass.event out.old) doc why tasks.Discard) ∷ []) }
    ensures kept { OnOk result (KeepsStore tables.old tables.new) }
{
    let navs = sleepers(alloc, &tables.tree, doc)?;
    tables.discard(out, &navs, doc, state, why)?;
    Ok(())
}
