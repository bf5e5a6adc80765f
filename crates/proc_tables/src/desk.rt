//! `Desk`, the lists of one process: the pokes, orders and reports that wait, and the order in hand.
ghost use Rattle.std.specs.Prelude.{◌≡◌, drop, length, slice_get, None, OnErr, OnOk};
ghost use Rattle.std.specs.Option.{option_copied};
ghost use Rattle.log_model.specs.After.{desk_dropped};
ghost use Rattle.log_model.specs.Logs.{is_idle};
ghost use Rattle.log_model.specs.Seen.{empty_desk};
ghost use Rattle.proc_tables.specs.Desks.{desk_with};

use crate::item::Item;
use address::OutOfMemory;
use log_model::{Job, Order, Poke, Report};
use std::alloc::Global;
use std::collections::VecDeque;
use std::marker::Model;
use tab_ids::{ProcId, ReqId};

/// What waits in a process, and what it has in hand. It keeps nothing of deaths.
#[derive(Drop)]
pub struct Desk {
    proc: ProcId,
    input: VecDeque<Poke>,
    mail: VecDeque<Job>,
    in_hand: Option<Order>,
    reports: VecDeque<Report>,
}

impl Model for Desk {
    ghost use Rattle.std.specs.Prelude.{[]};
    ghost use Rattle.log_model.specs.Seen as spec;

    ghost Value = { spec.Desk };

    ghost view = { λ d. record {
      proc = d.proc;
      input = d.input.items;
      mail = d.mail.items;
      in_hand = d.in_hand;
      reports = d.reports.items;
      killed = [];
      known = 0;
    } };
}

impl Desk {
    /// The desk of a process in which nothing waits. It takes no memory.
    pub(crate) fn new(alloc: Global, proc: ProcId) -> Desk
        ensures { result ≡ empty_desk proc }
    {
        Desk {
            proc,
            input: VecDeque::new(alloc),
            mail: VecDeque::new(alloc),
            in_hand: None,
            reports: VecDeque::new(alloc),
        }
    }

    /// How many pokes wait.
    pub fn pokes(&self) -> usize
        ensures { result ≡ length self.now.input }
    {
        self.input.len()
    }

    /// How many orders wait.
    pub fn orders(&self) -> usize
        ensures { result ≡ length self.now.mail }
    {
        self.mail.len()
    }

    /// The order in hand.
    pub fn in_hand(&self) -> Option<&Order>
        ensures { option_copied result ≡ self.now.in_hand }
    {
        self.in_hand.as_ref()
    }

    /// How many reports wait.
    pub fn reports(&self) -> usize
        ensures { result ≡ length self.now.reports }
    {
        self.reports.len()
    }

    /// Whether nothing waits in it, and it has no order in hand.
    pub fn is_idle(&self) -> bool
        ensures { result ≡ is_idle self.now }
    {
        self.input.is_empty()
            && self.mail.is_empty()
            && self.in_hand.is_none()
            && self.reports.is_empty()
    }

    /// Something joins its list; an order that is taken up is in hand.
    pub(crate) fn add(&mut self, item: Item) -> Result<(), OutOfMemory>
        ensures ok { OnOk result (self.new ≡ desk_with item self.old) }
        ensures err { OnErr result (self.new ≡ self.old) }
    {
        match item {
            Item::Poke(poke) => {
                self.input.push_back(poke)?;
                Ok(())
            }
            Item::Job(job) => {
                self.mail.push_back(job)?;
                Ok(())
            }
            Item::Order(order) => {
                self.in_hand = Some(order);
                Ok(())
            }
            Item::Report(report) => {
                self.reports.push_back(report)?;
                Ok(())
            }
        }
    }

    /// Takes the first poke off the input.
    pub(crate) fn next_poke(&mut self) -> Option<Poke>
        ensures first { result ≡ slice_get self.old.input 0 }
        ensures rest { self.new ≡ record self.old { input = drop 1 self.old.input } }
    {
        self.input.pop_front()
    }

    /// Takes the first order off the mail.
    pub(crate) fn next_job(&mut self) -> Option<Job>
        ensures first { result ≡ slice_get self.old.mail 0 }
        ensures rest { self.new ≡ record self.old { mail = drop 1 self.old.mail } }
    {
        self.mail.pop_front()
    }

    /// Lets the order in hand go.
    pub(crate) fn let_go(&mut self) -> Option<Order>
        ensures held { result ≡ self.old.in_hand }
        ensures rest { self.new ≡ record self.old { in_hand = None } }
    {
        self.in_hand.take()
    }

    /// Takes the first report off those that wait.
    pub(crate) fn next_report(&mut self) -> Option<Report>
        ensures first { result ≡ slice_get self.old.reports 0 }
        ensures rest { self.new ≡ record self.old { reports = drop 1 self.old.reports } }
    {
        self.reports.pop_front()
    }

    /// A request that was dropped leaves the input.
    pub(crate) fn forget(&mut self, req: ReqId)
        ensures { self.new ≡ desk_dropped req self.old }
    {
        self.input.retain(|poke| poke.req.0 != req.0);
    }
}
