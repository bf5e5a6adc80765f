//! The tab is brought to rest, which ends an event of the coordinator.
ghost use Rattle.std.specs.Prelude.{OnOk};
ghost use Rattle.coord.specs.Standing.{HasActed, IsToSettle};
ghost use Rattle.seen_laws.specs.InEvent.{InEvent};
ghost use Rattle.tab_stands.specs.PassedOn.{HasPut, LeavesOff};

use crate::coordinator::Coordinator;
use address::OutOfMemory;
use log_model::{Out, Why};
use std::alloc::Global;
use tab_ids::ReqId;
use tab_stands::{Reasons, settle};

impl Coordinator {
    /// The tab is brought to rest, and the event ends. `cause` is what orders of the walk are for where no traversal runs, and `handled` the request that the event accepts, or whose report it takes.
    pub(crate) fn settle(
        &mut self,
        alloc: Global,
        out: &mut Out,
        cause: Why,
        handled: Option<ReqId>,
    ) -> Result<(), OutOfMemory>
        ghost e: { InEvent }
        requires ready { IsToSettle e out.old self.old cause }
        ensures acted { OnOk result (HasActed e out.new self.new) }
        ensures put { OnOk result (HasPut e out.old out.new) }
        ensures off { OnOk result (LeavesOff e out.old out.new) }
    {
        let mut reasons = Reasons {
            cause,
            handled,
            logged: self.logged,
        };
        settle(
            alloc,
            &self.header,
            &mut self.tables,
            &mut self.queue,
            &mut self.blame,
            &self.slots,
            out,
            &mut reasons,
        )?;
        self.logged = reasons.logged;
        Ok(())
    }
}
