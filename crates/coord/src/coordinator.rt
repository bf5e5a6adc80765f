//! `Coordinator`: its settings, its tables, what waits, for whom stray documents are to be discarded, and the slots of handlers.
ghost use Rattle.std.specs.Prelude.{◌≡◌, IfOk};
ghost use Rattle.coord.specs.Standing.{StandsFor};
ghost use Rattle.tab_stands.specs.Standing.{opened_at};

use address::OutOfMemory;
use indexmap::IndexMap;
use log_model::Header;
use move_queue::MoveQueue;
use std::alloc::Global;
use tab_doors::Tables;
use tab_ids::{DocId, ProcId, ReqId, StateId};

/// The settings; the tables; the steps that wait, with the reports that are held back for the traversal that runs; the request for which the document of a state is to be discarded, should it have neither an entry nor an ongoing load; the slots of the unload handlers of the documents whose making was reported; and the step that was logged last: a traversal, or a load with a new document.
#[derive(Drop)]
pub struct Coordinator {
    pub header: Header,
    pub tables: Tables,
    pub queue: MoveQueue,
    pub blame: IndexMap<StateId, ReqId>,
    pub slots: IndexMap<DocId, u8>,
    pub logged: Option<ReqId>,
}

impl Coordinator {
    /// The coordinator of a tab that was just opened at the header's address, with its document in a process. It keeps the header. HTML Standard, "create a new top-level traversable".
    pub fn fresh(alloc: Global, header: &Header, proc: ProcId) -> Result<Coordinator, OutOfMemory>
        ensures stands { IfOk result (λ c. StandsFor (opened_at header.now.first proc) c) }
        ensures header { IfOk result (λ c. c.header ≡ header.now) }
    {
        let tables = Tables::fresh(alloc, &header.first, proc, header.keep)?;
        let header = header.copy(alloc)?;
        Ok(Coordinator {
            header,
            tables,
            queue: MoveQueue::new(alloc),
            blame: IndexMap::new(alloc),
            slots: IndexMap::new(alloc),
            logged: None,
        })
    }
}
