//! What no clause says: that memory suffices.
use address::OutOfMemory;
use log_model::{Job, Task, Why};
use running_table::Runners;
use std::alloc::Global;
use std::test::*;
use tab_ids::{DocId, Epoch, JobId, NavId, ProcId};

/// A document of navigable 0 is shown.
fn show(runners: &mut Runners, doc: DocId, epoch: Epoch) -> Result<(), OutOfMemory> {
    runners.place(doc, NavId(0))?;
    runners.show(doc, epoch)
}

/// The newest document of navigable 0: once 1 and 2 are shown, once 2 is frozen, and once 1 is removed.
fn newest(alloc: Global) -> Result<[Option<DocId>; 3], OutOfMemory> {
    let freeze = Job {
        nr: JobId(1),
        proc: ProcId(1),
        incarnation: 0,
        doc: DocId(2),
        why: Why::Start,
        task: Task::Freeze,
    };
    let mut runners = Runners::new(alloc);
    show(&mut runners, DocId(1), Epoch(1))?;
    show(&mut runners, DocId(2), Epoch(2))?;
    let shown = runners.newest(NavId(0));
    runners.do_job(&freeze)?;
    let frozen = runners.newest(NavId(0));
    runners.remove(DocId(1));
    Ok([shown, frozen, runners.newest(NavId(0))])
}

#[test]
fn the_document_shown_last_is_the_newest(rt: HostRuntime) -> Result<(), Fail> {
    let newest = newest(rt.alloc())?;
    assert_eq!(rt; newest, [Some(DocId(2)), Some(DocId(1)), None]);
    Ok(())
}
