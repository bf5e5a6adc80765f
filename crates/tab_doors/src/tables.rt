//! `Tables`, what the coordinator keeps.
ghost use Rattle.std.specs.Prelude.{◌≡◌};
ghost use Rattle.std.specs.Prelude.{IsSome, Some};
ghost use Rattle.tab_doors.specs.Ties.{nav_in, proc_in};

use crate::birth::Birth;
use address::OutOfMemory;
use indexmap::IndexMap;
use load_table::LoadTable;
use nav_tree::NavTree;
use page_cache::PageCache;
use step_index::StepIndex;
use tab_ids::{DocId, JobId, NavId, ProcId, ReqId, StateId, Step};
use unload_check::UnloadCheck;

/// The session history, the navigables with the documents that are there, those that are being made, how many of each were numbered, the ongoing loads and the kept documents.
#[derive(Drop)]
pub struct Tables {
    pub store: StepIndex,
    pub tree: NavTree,
    /// The document that is being made for a document state.
    pub making: IndexMap<StateId, DocId>,
    /// The navigable and the process of each document that was ever made.
    pub whose: IndexMap<DocId, Birth>,
    /// The last order that showed each navigable a document.
    pub shown: IndexMap<NavId, JobId>,
    /// The document that each navigable was shown last.
    pub last: IndexMap<NavId, DocId>,
    /// The document states of initial about:blank documents.
    pub initial: IndexMap<StateId, ()>,
    /// How many documents, document states and entries of the coordinator were numbered.
    pub documents: u64,
    pub states: u32,
    pub entries: u32,
    /// An entry for the opening and one for each order: as long as it can grow, the numbers of orders fit.
    pub sent: Vec<u8>,
    /// The traversal that runs, and the step that it leads to.
    pub running: Option<ReqId>,
    pub goal: Step,
    /// The ongoing loads.
    pub loads: LoadTable,
    /// The loads in their unload checks, which aren't among those.
    pub asking: LoadTable,
    /// The document states whose documents are kept for traversal.
    pub kept: PageCache,
    /// The unload checks that had begun before the event, as it was then.
    pub checks: UnloadCheck,
}

impl Tables {
    /// The navigable for which a document was made; None where no document has the number.
    pub fn nav_of(&self, doc: DocId) -> Option<NavId>
        ensures { result ≡ nav_in self.now.whose.entries doc }
    {
        match self.whose.get(&doc) {
            Some(birth) => Some(birth.nav),
            None => None,
        }
    }

    /// The process in which a document was made; None where no document has the number.
    pub fn proc_of(&self, doc: DocId) -> Option<ProcId>
        ensures { result ≡ proc_in self.now.whose.entries doc }
    {
        match self.whose.get(&doc) {
            Some(birth) => Some(birth.proc),
            None => None,
        }
    }

    /// The process of a document that was made.
    pub fn proc_there(&self, doc: DocId) -> ProcId
        requires { IsSome (proc_in self.now.whose.entries doc) }
        ensures { proc_in self.now.whose.entries doc ≡ Some result }
    {
        match self.proc_of(doc) {
            Some(proc) => proc,
            None => unreachable!(),
        }
    }
}
