//! `Done`, which a contract sees as the record of the same name, and `work`, which makes it.
ghost use Rattle.std.specs.Prelude.{◌≡◌, Bool, IsTrue, Ok, None};
ghost use Rattle.log_model.specs.Outcomes.{is_outcome_of};
ghost use Rattle.proc_work.specs.Same.{same_order};
ghost use Rattle.proc_work.specs.Work.{done_of, kind_asked, outcome_of_task};

use crate::same;
use address::OutOfMemory;
use handler_table::HandlerTable;
use log_model::{HandlerKind, Leaving, Order, Outcome, Task};
use std::marker::Model;

/// An order that a process has worked on, with its outcome.
///
/// Nothing but `work` makes one, so the outcome is always the order's own.
#[derive(Drop)]
pub struct Done {
    order: Order,
    outcome: Outcome,
    kind: Option<HandlerKind>,
}

impl Model for Done {
    ghost use Rattle.std.specs.Prelude.{◌≡◌};
    ghost use Rattle.proc_work.specs.Work as spec;

    ghost Value = { spec.Done };

    ghost view = { λ d. record { order = d.order; outcome = d.outcome; kind = d.kind } };

    ghost invariant = { λ d. d.outcome ≡ spec.outcome_of_task d.order.job.task d.order.dirty d.kind };
}

/// Works on an order: a populated document has no slot yet, and an asked one answers by the handler of its slot; where the slot is empty it leaves. It takes no memory.
pub fn work(order: Order, handlers: &HandlerTable) -> Result<Done, OutOfMemory>
    ensures { result ≡ Ok (done_of order (kind_asked handlers.now.kinds.items order.job.task)) }
{
    let kind = kind_of(&order.job.task, handlers);
    let outcome = outcome_of(&order, handlers);
    Ok(Done {
        order,
        outcome,
        kind,
    })
}

impl Done {
    /// The order.
    pub fn order(&self) -> &Order
        ensures { result.now ≡ self.now.order }
    {
        &self.order
    }

    /// How it went. A populated document has no slot here: who finishes the order gives it that of its page.
    pub fn outcome(&self) -> &Outcome
        ensures outcome { result.now ≡ self.now.outcome }
        ensures worked { self.now ≡ done_of self.now.order self.now.kind }
        ensures belongs { IsTrue (is_outcome_of self.now.order.job.task self.now.outcome) }
    {
        &self.outcome
    }

    /// The kind of the handler that was asked.
    pub fn kind(&self) -> Option<HandlerKind>
        ensures { result ≡ self.now.kind }
    {
        self.kind
    }

    /// Whether this very order was worked on: all its fields are the same.
    pub fn is_of(&self, order: &Order) -> bool
        ensures { result ≡ same_order self.now.order order.now }
    {
        same::same_order(&self.order, order)
    }
}

/// The kind of the handler that a task asks.
fn kind_of(task: &Task, handlers: &HandlerTable) -> Option<HandlerKind>
    ensures { result ≡ kind_asked handlers.now.kinds.items task.now }
{
    match task {
        Task::Ask { slot, .. } => handlers.kind(*slot),
        Task::Populate { .. }
        | Task::Activate { .. }
        | Task::Update { .. }
        | Task::Freeze
        | Task::Discard
        | Task::DoFragment { .. } => None,
    }
}

/// The outcome of an order: what the handler of its slot answers, where it asks one.
fn outcome_of(order: &Order, handlers: &HandlerTable) -> Outcome
    ensures { result ≡ outcome_of_task order.now.job.task order.now.dirty (kind_asked handlers.now.kinds.items order.now.job.task) }
{
    match &order.job.task {
        Task::Populate { .. } => Outcome::Populated(None),
        Task::Activate { .. } => Outcome::Activated,
        Task::Update { .. } => Outcome::Updated,
        Task::Freeze => Outcome::Frozen,
        Task::Discard => Outcome::Discarded,
        Task::Ask { slot, cause } => {
            let leaving = Leaving {
                dirty: order.dirty,
                cause: *cause,
            };
            Outcome::Asked(handlers.ask(*slot, leaving))
        }
        Task::DoFragment { .. } => Outcome::Fragmented,
    }
}
