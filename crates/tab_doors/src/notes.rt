//! How the tables begin, and what they note of a report as it is delivered.
ghost use Rattle.std.specs.Prelude.{ℕ, ◌≡◌, ◌∷◌, [], IfOk, OnOk, Some, IsSome, bytes_eq, if◌then◌else◌};
ghost use Rattle.address.specs.Addresses.{blank_text};
ghost use Rattle.load_table.specs.Loads.{HasOneEach, is_populating, moved_on};
ghost use Rattle.load_table.specs.declared.phase.Phase.TheVariants as phases;
ghost use Rattle.nav_tree.specs.Tree.{node_of};
ghost use Rattle.tab_doors.specs.Noting.{IsBare, IsFresh, PlacesOne, WaitsAt, WaitsAtItsNav, is_last, shown_tree, waiting_in};
ghost use Rattle.tab_doors.specs.Ties.{AreInitial, nav_in, proc_in};
ghost use Rattle.tab_doors.specs.Working.{KeepsRun};

use crate::birth::Birth;
use crate::tables::Tables;
use address::{Address, OutOfMemory};
use indexmap::IndexMap;
use load_table::{LoadTable, Phase};
use nav_tree::NavTree;
use page_cache::PageCache;
use std::alloc::Global;
use step_index::StepIndex;
use tab_ids::{DocId, JobId, NavId, ProcId, ReqId, StateId, Step};
use unload_check::UnloadCheck;

/// Notes the document state of the first document, where that is an initial about:blank one.
fn note_initial(states: &mut IndexMap<StateId, ()>, first: &Address) -> Result<(), OutOfMemory>
    requires { states.old.entries ≡ [] }
    ensures { OnOk result (AreInitial (if bytes_eq first.now blank_text then record { 0 = 1 } ∷ [] else []) states.new.entries) }
{
    if first.text() == b"about:blank".as_slice() {
        states.insert(StateId(1), ())?;
    }
    Ok(())
}

/// The tables of a tab with its first entry and navigable, but without what is noted of its document.
fn bare(alloc: Global, first: &Address, proc: ProcId, keep: u32) -> Result<Tables, OutOfMemory>
    ensures { IfOk result (λ t. IsBare first.now proc keep t) }
{
    let store = StepIndex::fresh(alloc, first)?;
    let tree = NavTree::fresh(alloc, DocId(1), proc, None)?;
    let kept = PageCache::new(alloc, keep)?;
    Ok(Tables {
        store,
        tree,
        making: IndexMap::new(alloc),
        whose: IndexMap::new(alloc),
        shown: IndexMap::new(alloc),
        last: IndexMap::new(alloc),
        initial: IndexMap::new(alloc),
        documents: 1,
        states: 1,
        entries: 1,
        sent: Vec::new(alloc),
        running: None,
        goal: Step(0),
        loads: LoadTable::new(alloc),
        asking: LoadTable::new(alloc),
        kept,
        checks: UnloadCheck::new(alloc),
    })
}

/// Notes of the first document whose it is and where, that it was shown, and whether it is an initial about:blank one.
fn note_first(tables: &mut Tables, first: &Address, proc: ProcId) -> Result<(), OutOfMemory>
    ghost keep: { ℕ }
    requires { IsBare first.now proc keep tables.old }
    ensures { OnOk result (IsFresh first.now proc keep tables.new) }
{
    let nav = NavId(0);
    tables.whose.insert(DocId(1), Birth { nav, proc })?;
    tables.last.insert(nav, DocId(1))?;
    tables.sent.push(0)?;
    note_initial(&mut tables.initial, first)?;
    Ok(())
}

/// The request of the navigable's ongoing load, where that waits for the document.
pub fn waiting_for(loads: &LoadTable, nav: NavId, doc: DocId) -> Option<ReqId>
    ensures req { result ≡ waiting_in loads.now nav doc }
    ensures one_each { HasOneEach loads.now }
{
    match loads.of(nav) {
        Some(load) => match load.phase {
            Phase::Populating(made) => {
                if made.0 == doc.0 {
                    Some(load.req)
                } else {
                    None
                }
            }
            Phase::Asking | Phase::Ready(_) => None,
        },
        None => None,
    }
}

/// The load that waits for a document, if one does, is ready; it is the navigable's.
fn make_ready(loads: &mut LoadTable, nav: NavId, doc: DocId)
    requires { WaitsAt nav loads.old doc }
    ensures { loads.new ≡ moved_on (is_populating doc) (phases.Ready doc) loads.old }
{
    if waiting_for(loads, nav, doc).is_some() {
        loads.ready(nav, doc);
    }
}

impl Tables {
    /// The tables of a tab that was just opened at an address, with its document in a process; at most `keep` documents are to be kept for traversal.
    pub fn fresh(
        alloc: Global,
        first: &Address,
        proc: ProcId,
        keep: u32,
    ) -> Result<Tables, OutOfMemory>
        ensures { IfOk result (λ t. IsFresh first.now proc keep t) }
    {
        let mut tables = bare(alloc, first, proc, keep)?;
        note_first(&mut tables, first, proc)?;
        Ok(tables)
    }

    /// The load that waits for a document, if one does, is ready. It is looked up by the document's navigable, and no table is walked.
    fn ready_load(&mut self, doc: DocId)
        requires { WaitsAtItsNav self.old doc }
        ensures { self.new ≡ record self.old { loads = moved_on (is_populating doc) (phases.Ready doc) self.old.loads } }
    {
        match self.nav_of(doc) {
            Some(nav) => make_ready(&mut self.loads, nav, doc),
            None => {}
        }
    }

    /// The document is made: it is there for its document state, in the process to which its order went, and no longer being made. The load that waits for it, if one does, is ready.
    pub fn note_made(&mut self, state: StateId, doc: DocId) -> Result<(), OutOfMemory>
        requires known { IsSome (proc_in self.old.whose.entries doc) }
        requires waits { WaitsAtItsNav self.old doc }
        ensures placed { OnOk result (PlacesOne state doc self.old self.new) }
        ensures kept { OnOk result (KeepsRun self.old self.new) }
    {
        let proc = self.proc_there(doc);
        self.tree.place(state, doc, proc, None)?;
        self.making.shift_remove(&state);
        self.ready_load(doc);
        Ok(())
    }

    /// Whether the order is the last one that showed the navigable a document.
    fn is_last(&self, nav: NavId, nr: JobId) -> bool
        ensures { result ≡ is_last self.now nav nr }
    {
        match self.shown.get(&nav) {
            Some(last) => last.0 == nr.0,
            None => false,
        }
    }

    /// The order showed its document: the navigable of that stands, unless it was shown a document since.
    pub fn note_shown(&mut self, doc: DocId, nr: JobId)
        requires { (nav : NavId) → nav_in self.old.whose.entries doc ≡ Some nav → IsSome (node_of nav self.old.tree) }
        ensures { self.new ≡ record self.old { tree = shown_tree self.old doc nr } }
    {
        match self.nav_of(doc) {
            Some(nav) => {
                if self.is_last(nav, nr) {
                    self.tree.set_stands(nav, true);
                }
            }
            None => {}
        }
    }
}
