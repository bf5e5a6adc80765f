//! The first report of a process is taken: an order was done, or a document made something.
ghost use Rattle.std.specs.Prelude.{◌≡◌, [], OnOk, true};
ghost use Rattle.coord.specs.Delivering.{InDelivery, InDone, IsDone, slot_told, slots_with};
ghost use Rattle.coord.specs.Standing.{HasActed, IsOpenTo};
ghost use Rattle.tab_stands.specs.Delivering.{IsDelivery, IsQuietTask, IsShowTask};

use crate::coordinator::Coordinator;
use address::OutOfMemory;
use indexmap::IndexMap;
use log_model::{Job, Out, Outcome, Report, Task, Why};
use std::alloc::Global;
use tab_ids::{DocId, ProcId, ReqId, StateId};

/// Whether no request is noted for a document that is left to be discarded.
fn is_none_noted(blame: &IndexMap<StateId, ReqId>) -> bool
    ensures { result ≡ true → blame.now.entries ≡ [] }
{
    blame.len() == 0
}

/// The slot of which a report tells, with its document: that of a document that was made and has a handler.
fn slot_told(report: &Report) -> Option<(DocId, u8)>
    ensures { result ≡ slot_told report.now }
{
    match report {
        Report::Done(job, Outcome::Populated(Some(slot)), _) => Some((job.doc, *slot)),
        Report::Done(_, _, _) | Report::Made(_) | Report::Died(_) => None,
    }
}

impl Coordinator {
    /// The first report of the process is taken. HTML Standard, "apply the history step" and "URL and history update steps".
    pub fn deliver(
        &mut self,
        alloc: Global,
        out: &mut Out,
        proc: ProcId,
        report: &Report,
    ) -> Result<(), OutOfMemory>
        ghost d: { InDelivery }
        requires delivery { IsDelivery d.event proc report.now }
        requires proc { d.proc ≡ proc }
        requires report { d.report ≡ report.now }
        requires open_ { IsOpenTo d.event self.old }
        requires first { out.old ≡ [] }
        ensures acted { OnOk result (HasActed d.event out.new self.new) }
    {
        self.hear(report)?;
        match report {
            Report::Done(job, _, made) => match made {
                Some(made) => self.take_made(alloc, out, made),
                None => self.take_done(alloc, out, job),
            },
            Report::Made(made) => self.take_made(alloc, out, made),
            Report::Died(_) => unreachable!(),
        }
    }

    /// The slot of which the report tells is noted, if it tells of one.
    fn hear(&mut self, report: &Report) -> Result<(), OutOfMemory>
        ensures heard { OnOk result (self.new.slots.entries ≡ slots_with self.old.slots.entries (slot_told report.now)) }
        ensures same { OnOk result (self.new ≡ record self.old { slots = self.new.slots }) }
    {
        if let Some((doc, slot)) = slot_told(report) {
            self.slots.insert(doc, slot)?;
        }
        Ok(())
    }

    /// An order was done, of which nothing was made.
    fn take_done(&mut self, alloc: Global, out: &mut Out, job: &Job) -> Result<(), OutOfMemory>
        ghost d: { InDone }
        requires done { IsDone d self.old job.now }
        requires first { out.old ≡ [] }
        ensures acted { OnOk result (HasActed d.event out.new self.new) }
    {
        match &job.task {
            Task::Activate { .. } => self.take_shown(alloc, out, job),
            Task::Populate { state, .. } => self.take_placed(alloc, out, job, *state),
            Task::Update { .. } | Task::Freeze | Task::Discard | Task::DoFragment { .. } => {
                self.take_quiet(alloc, out, job)
            }
            Task::Ask { .. } => unreachable!(),
        }
    }

    /// The order neither made nor showed a document: the tab is at rest as it was, unless a document is left to be discarded.
    fn take_quiet(&mut self, alloc: Global, out: &mut Out, _job: &Job) -> Result<(), OutOfMemory>
        ghost d: { InDone }
        requires done { IsDone d self.old _job.now }
        requires quiet { IsQuietTask _job.now.task }
        requires first { out.old ≡ [] }
        ensures acted { OnOk result (HasActed d.event out.new self.new) }
    {
        if is_none_noted(&self.blame) {
            return Ok(());
        }
        self.settle(alloc, out, Why::Start, None)
    }

    /// A document was shown: its navigable stands, unless it was shown a document since.
    fn take_shown(&mut self, alloc: Global, out: &mut Out, job: &Job) -> Result<(), OutOfMemory>
        ghost d: { InDone }
        requires done { IsDone d self.old job.now }
        requires shows { IsShowTask job.now.task }
        requires first { out.old ≡ [] }
        ensures acted { OnOk result (HasActed d.event out.new self.new) }
    {
        self.tables.note_shown(job.doc, job.nr);
        self.settle(alloc, out, Why::Start, None)
    }
}
