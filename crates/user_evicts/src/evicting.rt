//! The user evicts the document that is kept longest.
ghost use Rattle.std.specs.Prelude.{◌≡◌, [], OnOk, IsSome, None, Some};
ghost use Rattle.page_cache.specs.Kept.{oldest_of};
ghost use Rattle.row_facts.specs.Owed.Owed.{IsLoose};
ghost use Rattle.tab_doors.specs.Working.{KeepsStore, MayDiscardIn};
ghost use Rattle.tab_facts.specs.Calm.Calm.{IsCalmYet};
ghost use Rattle.load_doors.specs.Logged.{IsLogged};
ghost use Rattle.seen_laws.specs.InEvent.{log_of, now_of};
ghost use Rattle.tab_stands.specs.Standing.{HasRoomFor, LastsInLog, StandsFor, seen_start};
ghost use Rattle.user_evicts.specs.Evicting.{HasEvicted, InEvict, IsEvictAsk, IsReadyThen};

use crate::discarding::discard_evicted;
use address::OutOfMemory;
use log_model::{Out, Why};
use page_cache::PageCache;
use std::alloc::Global;
use tab_doors::Tables;
use tab_evicts::{discard_below, doc_there};
use tab_ids::StateId;

/// The state whose document is kept longest.
fn longest(kept: &PageCache) -> StateId
    requires { IsSome (oldest_of kept.now.states) }
    ensures { oldest_of kept.now.states ≡ Some result }
{
    match kept.oldest() {
        Some(state) => state,
        None => unreachable!(),
    }
}

/// The user evicts the document that is kept longest: it is discarded, and then those that are there below it, in the order of their numbers. A pass may follow then; while a traversal in its unload check holds the queue, one that sweeps.
pub fn evict_longest(alloc: Global, tables: &mut Tables, out: &mut Out) -> Result<(), OutOfMemory>
    ghost b: { InEvict }
    requires keep { tables.old.kept.keep ≡ b.event.header.keep }
    requires first { out.old ≡ [] }
    requires asks { IsEvictAsk b.event b.state }
    requires room { HasRoomFor (seen_start b.event) }
    requires stands { StandsFor b.check (seen_start b.event) tables.old b.queue b.noted }
    requires logged { IsLogged b.event tables.old.checks }
    requires lasts { LastsInLog b.event.checking tables.old.asking (log_of b.event []) }
    requires free { MayDiscardIn b.check.holds b.event }
    ensures came { OnOk result (HasEvicted b.event b.state out.new) }
    ensures ready { OnOk result (IsReadyThen b out.new tables.new) }
    ensures loose { OnOk result (IsLoose b.event out.new) }
    ensures calm { OnOk result (tables.old.running ≡ None → IsCalmYet (now_of b.event out.new)) }
    ensures kept { OnOk result (KeepsStore tables.old tables.new) }
{
    let docs = tables.tree.docs()?;
    let state = longest(&tables.kept);
    let doc = doc_there(&tables.tree, state);
    discard_evicted(tables, out, doc, state)?;
    discard_below(alloc, tables, out, state, &docs, Why::Evict)?;
    Ok(())
}
