//! The document that is kept longest is discarded, with those below it.
ghost use Rattle.std.specs.Prelude.{◌≡◌, [], OnOk, IsSome, Some, option_map};
ghost use Rattle.nav_tree.specs.Tree.{document_of};
ghost use Rattle.seen_laws.specs.InEvent.{now_of};
ghost use Rattle.tab_doors.specs.Working.{KeepsStore};
ghost use Rattle.tab_evicts.specs.Evicting.{HasOnlyDiscarded, InEvicting, IsEvicting, IsToEvict, NoneThereBelow, OffAreLeft, StaysPlaced};
ghost use Rattle.tab_passes.specs.Leaving.{IsLeaving};

use crate::below::discard_below;
use address::OutOfMemory;
use log_model::{Out, Why};
use nav_tree::NavTree;
use std::alloc::Global;
use tab_doors::Tables;
use tab_ids::{DocId, StateId};
use tab_passes::discard;

/// The document that is there for a document state.
pub fn doc_there(tree: &NavTree, state: StateId) -> DocId
    requires { IsSome (document_of state tree.now) }
    ensures { option_map (λ place. place.doc) (document_of state tree.now) ≡ Some result }
{
    match tree.doc_of(state) {
        Some(place) => place.doc,
        None => unreachable!(),
    }
}

/// The state is let go by the cache for the one that a navigable leaves: its document is discarded, and then those that are there below it, in the order of their numbers.
pub fn evict(
    alloc: Global,
    tables: &mut Tables,
    out: &mut Out,
    gone: StateId,
    why: Why,
) -> Result<(), OutOfMemory>
    ghost m: { InEvicting }
    requires leaving { IsLeaving m.pass (Some m.move) [] out.old tables.old }
    requires evicts { IsToEvict m gone why (now_of m.pass.event out.old) tables.old.kept.keep }
    requires off { OffAreLeft m.pass.event out.old why }
    ensures evicting { OnOk result (IsEvicting m gone why out.new tables.new) }
    ensures below { OnOk result (NoneThereBelow (now_of m.pass.event out.new) gone) }
    ensures only { OnOk result (HasOnlyDiscarded why out.old out.new) }
    ensures stays { OnOk result (StaysPlaced (now_of m.pass.event out.old) (now_of m.pass.event out.new)) }
    ensures kept { OnOk result (KeepsStore tables.old tables.new) }
{
    let docs = tables.tree.docs()?;
    let doc = doc_there(&tables.tree, gone);
    discard(alloc, tables, out, doc, gone, why)?;
    discard_below(alloc, tables, out, gone, &docs, why)?;
    Ok(())
}
