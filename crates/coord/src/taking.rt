//! A document made something: a traversal joins the queue; a change is taken up, refused, dropped, or held back.
ghost use Rattle.std.specs.Prelude.{◌≡◌, [], OnOk, Some, true};
ghost use Rattle.coord.specs.Delivering.{InDelivery, IsMade};
ghost use Rattle.coord.specs.Standing.{HasActed};
ghost use Rattle.log_model.specs.AfterRequests.{changes_history};
ghost use Rattle.log_model.specs.declared.made.What.TheVariants as whats;
ghost use Rattle.sync_core.specs.declared.judging.Judged.TheVariants as verdicts;
ghost use Rattle.tab_stands.specs.PassedOn.{judged_in};

use crate::coordinator::Coordinator;
use address::OutOfMemory;
use log_model::{Made, Out, What, Why};
use move_queue::QueueStep;
use std::alloc::Global;
use sync_core::Judged;
use tab_stands::{judged, take};

impl Coordinator {
    /// What a document made, of a poke or of a fragment order.
    pub(crate) fn take_made(
        &mut self,
        alloc: Global,
        out: &mut Out,
        made: &Made,
    ) -> Result<(), OutOfMemory>
        ghost d: { InDelivery }
        requires made { IsMade d self.old made.now }
        requires first { out.old ≡ [] }
        ensures acted { OnOk result (HasActed d.event out.new self.new) }
    {
        match made.what {
            What::Go { delta } => self.take_go(alloc, out, made, delta),
            What::Push { .. }
            | What::Replace { .. }
            | What::AddFrame { .. }
            | What::RemoveFrame { .. } => self.take_change(alloc, out, made),
            What::Edit => unreachable!(),
        }
    }

    /// A document's traversal joins the queue.
    fn take_go(
        &mut self,
        alloc: Global,
        out: &mut Out,
        made: &Made,
        delta: i32,
    ) -> Result<(), OutOfMemory>
        ghost d: { InDelivery }
        requires made { IsMade d self.old made.now }
        requires goes { made.now.what ≡ whats.Go delta }
        requires first { out.old ≡ [] }
        ensures acted { OnOk result (HasActed d.event out.new self.new) }
    {
        self.queue.push(QueueStep::Traverse(made.req, delta))?;
        self.settle(alloc, out, Why::Start, Some(made.req))
    }

    /// What changes the history is taken up, refused or dropped; or it is held back until the traversal that runs has ended.
    fn take_change(&mut self, alloc: Global, out: &mut Out, made: &Made) -> Result<(), OutOfMemory>
        ghost d: { InDelivery }
        requires made { IsMade d self.old made.now }
        requires changes { changes_history made.now.what ≡ true }
        requires first { out.old ≡ [] }
        ensures acted { OnOk result (HasActed d.event out.new self.new) }
    {
        let verdict = judged(&self.tables, made);
        match verdict {
            Judged::Park => self.hold_back(alloc, out, made),
            Judged::Now | Judged::Stale(_) | Judged::Gone(_) => {
                self.take_up(alloc, out, made, verdict)
            }
        }
    }

    /// It is held back until the traversal that runs has ended.
    fn hold_back(&mut self, alloc: Global, out: &mut Out, made: &Made) -> Result<(), OutOfMemory>
        ghost d: { InDelivery }
        requires made { IsMade d self.old made.now }
        requires changes { changes_history made.now.what ≡ true }
        requires waits { judged_in self.old.tables made.now ≡ Some verdicts.Park }
        requires first { out.old ≡ [] }
        ensures acted { OnOk result (HasActed d.event out.new self.new) }
    {
        let held = made.copy()?;
        self.queue.park(held)?;
        self.settle(alloc, out, Why::Start, Some(made.req))
    }

    /// It is taken up, refused or dropped.
    fn take_up(
        &mut self,
        alloc: Global,
        out: &mut Out,
        made: &Made,
        verdict: Judged,
    ) -> Result<(), OutOfMemory>
        ghost d: { InDelivery }
        requires made { IsMade d self.old made.now }
        requires changes { changes_history made.now.what ≡ true }
        requires judged { judged_in self.old.tables made.now ≡ Some verdict }
        requires free { (verdict ≡ verdicts.Park) → ⊥ }
        requires first { out.old ≡ [] }
        ensures acted { OnOk result (HasActed d.event out.new self.new) }
    {
        take(alloc, &mut self.tables, &mut self.blame, out, made, verdict)?;
        self.settle(alloc, out, Why::Req(made.req), Some(made.req))
    }
}
