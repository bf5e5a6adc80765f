//! A document was made.
ghost use Rattle.std.specs.Prelude.{◌≡◌, [], ◌++◌, OnOk, Some, true};
ghost use Rattle.std.specs.Option.{IsSome};
ghost use Rattle.coord.specs.Delivering.{HasPlaced, InDone, IsDone, done_in, made_in, steps_of};
ghost use Rattle.coord.specs.Standing.{HasActed};
ghost use Rattle.log_model.specs.declared.job.Why.TheVariants as whys;
ghost use Rattle.tab_doors.specs.Ties.{nav_in};
ghost use Rattle.tab_stands.specs.Delivering.{IsMakeTask};
ghost use Rattle.tab_unneeded.specs.Made.{InMade};
ghost use Rattle.tab_unneeded.specs.Telling.{is_unneeded_in};

use crate::coordinator::Coordinator;
use address::OutOfMemory;
use log_model::{Job, Out, Why};
use move_queue::{MoveQueue, QueueStep};
use std::alloc::Global;
use tab_doors::{Tables, waiting_for};
use tab_ids::{DocId, NavId, ReqId, StateId};
use tab_unneeded::{discard_made, is_unneeded};

/// The navigable for which a document was made.
fn nav_there(tables: &Tables, doc: DocId) -> NavId
    requires { IsSome (nav_in tables.now.whose.entries doc) }
    ensures { nav_in tables.now.whose.entries doc ≡ Some result }
{
    match tables.nav_of(doc) {
        Some(nav) => nav,
        None => unreachable!(),
    }
}

/// The step of a load that is ready joins the queue, if one is.
fn join(queue: &mut MoveQueue, ready: Option<ReqId>, nav: NavId) -> Result<(), OutOfMemory>
    ensures { OnOk result (queue.new ≡ record queue.old { waiting = queue.old.waiting ++ steps_of ready nav }) }
{
    match ready {
        Some(req) => queue.push(QueueStep::Ready(req, nav)),
        None => Ok(()),
    }
}

impl Coordinator {
    /// A document was made for a document state: it is there, and the load that waits for it, if one does, waits for its turn.
    pub(crate) fn take_placed(
        &mut self,
        alloc: Global,
        out: &mut Out,
        job: &Job,
        state: StateId,
    ) -> Result<(), OutOfMemory>
        ghost d: { InDone }
        requires done { IsDone d self.old job.now }
        requires makes { IsMakeTask state job.now.task }
        requires first { out.old ≡ [] }
        ensures acted { OnOk result (HasActed d.event out.new self.new) }
    {
        match job.why {
            Why::Req(req) => self.take_asked(alloc, out, job, state, req),
            Why::Start | Why::Evict | Why::Death(_) => self.take_unasked(alloc, out, job, state),
        }
    }

    /// It was made for a request, which is noted for its state: should nothing need it any more, the next pass discards it for that.
    fn take_asked(
        &mut self,
        alloc: Global,
        out: &mut Out,
        job: &Job,
        state: StateId,
        req: ReqId,
    ) -> Result<(), OutOfMemory>
        ghost d: { InDone }
        requires done { IsDone d self.old job.now }
        requires makes { IsMakeTask state job.now.task }
        requires asked { job.now.why ≡ whys.Req req }
        requires first { out.old ≡ [] }
        ensures acted { OnOk result (HasActed d.event out.new self.new) }
    {
        self.place(job, state)?;
        self.blame.insert(state, req)?;
        self.settle(alloc, out, Why::Req(req), None)
    }

    /// It was made for no request: where nothing needs it any more it is discarded at once.
    fn take_unasked(
        &mut self,
        alloc: Global,
        out: &mut Out,
        job: &Job,
        state: StateId,
    ) -> Result<(), OutOfMemory>
        ghost d: { InDone }
        requires done { IsDone d self.old job.now }
        requires makes { IsMakeTask state job.now.task }
        requires unasked { (req : ReqId) → job.now.why ≡ whys.Req req → ⊥ }
        requires first { out.old ≡ [] }
        ensures acted { OnOk result (HasActed d.event out.new self.new) }
    {
        if is_unneeded(&self.tables, job.doc, state) {
            self.drop_made(alloc, out, job, state)
        } else {
            self.place(job, state)?;
            self.settle(alloc, out, job.why, None)
        }
    }

    /// It is discarded.
    fn drop_made(
        &mut self,
        alloc: Global,
        out: &mut Out,
        job: &Job,
        state: StateId,
    ) -> Result<(), OutOfMemory>
        ghost m: { InMade }
        requires made_in { m ≡ made_in (done_in m) self.old job.now }
        requires done { IsDone (done_in m) self.old job.now }
        requires makes { IsMakeTask state job.now.task }
        requires unasked { (req : ReqId) → job.now.why ≡ whys.Req req → ⊥ }
        requires unneeded { is_unneeded_in self.old.tables job.now.doc state ≡ true }
        requires first { out.old ≡ [] }
        ensures acted { OnOk result (HasActed m.event out.new self.new) }
    {
        discard_made(alloc, &mut self.tables, out, job.doc, state, job.why)?;
        self.settle(alloc, out, Why::Start, None)
    }

    /// The document is there, and the load that waits for it, if one does, waits for its turn.
    fn place(&mut self, job: &Job, state: StateId) -> Result<(), OutOfMemory>
        ghost d: { InDone }
        requires done { IsDone d self.old job.now }
        requires makes { IsMakeTask state job.now.task }
        ensures placed { OnOk result (HasPlaced self.old self.new job.now.doc state) }
    {
        let nav = nav_there(&self.tables, job.doc);
        let waits = waiting_for(&self.tables.loads, nav, job.doc);
        self.tables.note_made(state, job.doc)?;
        join(&mut self.queue, waits, nav)?;
        Ok(())
    }
}
