//! What the user asks for: a load, or a traversal.
ghost use Rattle.std.specs.Prelude.{◌≡◌, [], OnOk};
ghost use Rattle.coord.specs.Standing.{AskCame, HasActed, IsAsk, IsOpenTo, LoadCame};
ghost use Rattle.coord.specs.declared.ask.Ask.TheVariants as asks;
ghost use Rattle.seen_laws.specs.InEvent.{InEvent};
ghost use Rattle.tab_loads.specs.Loading as spec;

use crate::ask::Ask;
use crate::coordinator::Coordinator;
use address::{Address, OutOfMemory};
use log_model::{Mode, Out, Why};
use move_queue::QueueStep;
use std::alloc::Global;
use tab_ids::{NavId, ReqId};
use tab_loads::{Loaded, load};

/// What orders that follow a load are for.
fn cause_of(req: ReqId, loaded: Loaded) -> Why
    ensures { result ≡ spec.cause_of req loaded }
{
    match loaded {
        Loaded::Begun => Why::Req(req),
        Loaded::Refused | Loaded::CutOff | Loaded::ToFragment | Loaded::Asks => Why::Start,
    }
}

impl Coordinator {
    /// A request of the user was accepted: a load is refused, dropped, sent to a fragment or begins; a traversal joins the queue. Then the tab is brought to rest. HTML Standard, "navigate" and "traverse the history by a delta".
    pub fn request(
        &mut self,
        alloc: Global,
        out: &mut Out,
        req: ReqId,
        ask: &Ask,
    ) -> Result<(), OutOfMemory>
        ghost e: { InEvent }
        requires asks { IsAsk e req ask.now }
        requires open_ { IsOpenTo e self.old }
        requires first { out.old ≡ [] }
        ensures acted { OnOk result (HasActed e out.new self.new) }
        ensures came { OnOk result (AskCame e req ask.now out.new) }
    {
        match ask {
            Ask::Load { nav, mode, address } => self.load(alloc, out, req, *nav, *mode, address),
            Ask::Go { delta } => self.go(alloc, out, req, *delta),
        }
    }

    /// A load was accepted.
    fn load(
        &mut self,
        alloc: Global,
        out: &mut Out,
        req: ReqId,
        nav: NavId,
        mode: Mode,
        address: &Address,
    ) -> Result<(), OutOfMemory>
        ghost e: { InEvent }
        requires asks { IsAsk e req (asks.Load nav mode address.now) }
        requires open_ { IsOpenTo e self.old }
        requires first { out.old ≡ [] }
        ensures acted { OnOk result (HasActed e out.new self.new) }
        ensures came { OnOk result (LoadCame e req nav mode address.now out.new) }
    {
        let loaded = load(
            alloc,
            &self.header,
            &mut self.tables,
            &self.queue,
            &mut self.blame,
            &self.slots,
            out,
            req,
            nav,
            mode,
            address,
        )?;
        let cause = cause_of(req, loaded);
        self.settle(alloc, out, cause, Some(req))
    }

    /// A traversal was accepted: it joins the queue.
    fn go(
        &mut self,
        alloc: Global,
        out: &mut Out,
        req: ReqId,
        delta: i32,
    ) -> Result<(), OutOfMemory>
        ghost e: { InEvent }
        requires asks { IsAsk e req (asks.Go delta) }
        requires open_ { IsOpenTo e self.old }
        requires first { out.old ≡ [] }
        ensures acted { OnOk result (HasActed e out.new self.new) }
    {
        self.queue.push(QueueStep::Traverse(req, delta))?;
        self.settle(alloc, out, Why::Start, Some(req))
    }
}
