//! `MoveQueue`, which a contract sees as two lists: the steps that wait, and the reports that are parked.
ghost use Rattle.std.specs.Prelude.{◌≡◌, ◌↔◌, [], ◌∷◌, ◌++◌, IsNone, IfSome, IfNone, OnOk, OnErr, is_some, position, slice_get};
ghost use Rattle.std.specs.List.{list_any};
ghost use Rattle.move_queue.specs.Queue.{serves, without_first};

use crate::queue_step::QueueStep;
use address::OutOfMemory;
use log_model::Made;
use std::alloc::Global;
use std::collections::VecDeque;
use std::marker::Model;
use tab_ids::ReqId;

/// The session history traversal queue, with the reports that are parked until the running traversal is logged.
#[derive(Drop)]
pub struct MoveQueue {
    steps: VecDeque<QueueStep>,
    parked: VecDeque<Made>,
}

impl Model for MoveQueue {
    ghost use Rattle.move_queue.specs.Queue.{Queue};

    ghost Value = { Queue };

    ghost view = { λ q. record { waiting = q.steps.items; parked = q.parked.items } };
}

impl MoveQueue {
    /// A queue with no step and no parked report. It takes no memory.
    pub fn new(alloc: Global) -> MoveQueue
        ensures { result ≡ record { waiting = []; parked = [] } }
    {
        MoveQueue {
            steps: VecDeque::new(alloc),
            parked: VecDeque::new(alloc),
        }
    }

    /// Puts a step at the end of the queue.
    pub fn push(&mut self, step: QueueStep) -> Result<(), OutOfMemory>
        ensures ok { OnOk result (self.new ≡ record self.old { waiting = self.old.waiting ++ step ∷ [] }) }
        ensures err { OnErr result (self.new ≡ self.old) }
    {
        self.steps.push_back(step)?;
        Ok(())
    }

    /// Takes the first step of the queue.
    pub fn next(&mut self) -> Option<QueueStep>
        ensures first { IfSome result (λ step. self.old ≡ record self.new { waiting = step ∷ self.new.waiting }) }
        ensures none { IsNone result ↔ (self.old.waiting ≡ []) }
        ensures unchanged { IfNone result (self.new ≡ self.old) }
    {
        self.steps.pop_front()
    }

    /// Puts a step back at the front of the queue.
    pub fn put_back(&mut self, step: QueueStep) -> Result<(), OutOfMemory>
        ensures ok { OnOk result (self.new ≡ record self.old { waiting = step ∷ self.old.waiting }) }
        ensures err { OnErr result (self.new ≡ self.old) }
    {
        self.steps.push_front(step)?;
        Ok(())
    }

    /// Whether a step waits.
    pub fn has_next(&self) -> bool
        ensures { result ≡ is_some (slice_get self.now.waiting 0) }
    {
        !self.steps.is_empty()
    }

    /// Takes the first step of a request out of the queue, and answers whether there was one.
    pub fn withdraw(&mut self, req: ReqId) -> bool
        ensures found { result ≡ list_any (serves req) self.old.waiting }
        ensures rest { self.new ≡ record self.old { waiting = without_first (serves req) self.old.waiting } }
    {
        withdraw_from(&mut self.steps, req)
    }

    /// Keeps a report until it is taken up again.
    pub fn park(&mut self, made: Made) -> Result<(), OutOfMemory>
        ensures ok { OnOk result (self.new ≡ record self.old { parked = self.old.parked ++ made ∷ [] }) }
        ensures err { OnErr result (self.new ≡ self.old) }
    {
        self.parked.push_back(made)?;
        Ok(())
    }

    /// Takes up the report that was parked first.
    pub fn unpark(&mut self) -> Option<Made>
        ensures first { IfSome result (λ made. self.old ≡ record self.new { parked = made ∷ self.new.parked }) }
        ensures none { IsNone result ↔ (self.old.parked ≡ []) }
        ensures unchanged { IfNone result (self.new ≡ self.old) }
    {
        self.parked.pop_front()
    }
}

/// The place of the first step of a request.
fn place_of(steps: &VecDeque<QueueStep>, req: ReqId) -> Option<usize>
    ensures { result ≡ position (serves req) steps.now.items }
{
    steps.iter().position(|step| step.request() == req)
}

/// Takes the first step of a request out.
#[tactic(auto, using(crate::proofs::FirstOnes::withdrawals))]
fn withdraw_from(steps: &mut VecDeque<QueueStep>, req: ReqId) -> bool
    ensures found { result ≡ list_any (serves req) steps.old.items }
    ensures rest { steps.new.items ≡ without_first (serves req) steps.old.items }
{
    match place_of(steps, req) {
        Some(place) => {
            let _step = steps.remove(place);
            true
        }
        None => false,
    }
}
