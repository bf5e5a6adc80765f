//! `World`, one tab: a contract sees its settings, its log, and whether it is closed.
ghost use Rattle.std.specs.Prelude.{◌≡◌, ◌↔◌, ◌<◌, ◌≤◌, ◌==◌, ◌∷◌, [], true, false, None, IfOk, IfErr, OnErr, IsErrOf, List, length, slice_get, take};
ghost use Rattle.std.specs.Option.{option_copied, option_and_then};
ghost use Rattle.log_model.specs.declared.handler.HandlerKind.{HandlerKind};
ghost use Rattle.log_model.specs.declared.header.Header.{Header};
ghost use Rattle.log_model.specs.ActsAtOnce.{ActsAtOnce};
ghost use Rattle.log_model.specs.Legal.{IsLegal};
ghost use Rattle.log_model.specs.Limits.{BeginsBelow};
ghost use Rattle.log_model.specs.Suits.{Suits};
ghost use Rattle.log_model.specs.History.{has_row};
ghost use Rattle.log_model.specs.Logs.{seen_of, history_of, in_hand_of, input_of, mail_of, reports_of, is_still, is_quiet};
ghost use Rattle.log_model.specs.Order.{SameHistory};
ghost use Rattle.log_model.specs.Places.{is_shown};
ghost use Rattle.log_model.specs.Formed.{running_documents};
ghost use Rattle.log_model.specs.LoadsEndInTime.{LoadsEndInTime};
ghost use Rattle.proc_work.specs.Answers.{AnswersBy};
ghost use Rattle.step_index.specs.Held.{history_held};
ghost use Rattle.world.specs.Kept.{OpensAs, OpensUnhandled};
ghost use Rattle.world.specs.Open.{IsOpen, endings_of, opening_process, row_limit};
ghost use Rattle.world.specs.Opening.{opening_row};
ghost use Rattle.world.specs.Sited.{SomeWaits};
ghost use Rattle.world.specs.Steps.{IsBuilt, Steps, idle_reply, reached_in};
ghost use Rattle.world.specs.Turns.{HasGone, Shuts};

use crate::accepting::{accept_ask, accept_poke};
use crate::delivering::deliver;
use crate::error::StepError;
use crate::event::{Event, Reply, Waiting};
use crate::evicting::evict;
use crate::finishing::finish;
use crate::idling::idle;
use crate::opening::{opening_log, opening_process};
use crate::reading::{in_hand, reached, waiting};
use crate::state::{State, opened_at};
use crate::working::{act, begin};
use address::OutOfMemory;
use coord::Ask;
use doc_view::View;
use handler_table::HandlerTable;
use history_log::Log;
use log_model::{Ending, HandlerKind, Header, Order};
use std::alloc::Global;
use std::marker::Model;
use step_index::StepIndex;
use tab_ids::{NavId, ProcId};

/// No event that logs begins at this many rows or more.
const ROW_LIMIT: usize = 1_000_000;

/// A tab, with its documents in the processes of their sites.
///
/// What the log has come to is kept beside it: no step reads the log again.
#[derive(Drop)]
pub struct World {
    header: Header,
    kinds: Vec<HandlerKind>,
    log: Log,
    state: State,
    closed: bool,
}

impl Model for World {
    ghost use Rattle.world.specs.Kept.{WorldState, IsKept};

    ghost Value = { WorldState };

    ghost view = { λ w. record { header = w.header; kinds = w.kinds.items; log = w.log; closed = w.closed } };

    ghost invariant = { λ w. IsKept w.header w.kinds.items w.log w.state w.closed };
}

impl World {
    /// A tab that was just opened at the header's address, with its document in the process of its site. It keeps the header, whose pages have no effect yet, and the kind of each slot of the handlers.
    pub fn fresh(
        alloc: Global,
        header: &Header,
        handlers: &HandlerTable,
    ) -> Result<World, OutOfMemory>
        ensures ok { IfOk result (λ world. world ≡ record { header = header.now; kinds = handlers.now.kinds.items; log = opening_row header.now.first (opening_process header.now) ∷ []; closed = false }) }
        ensures suits { OpensUnhandled header.now → IfOk result (λ world. Suits header.now world.log) }
    {
        let proc = opening_process(header);
        let log = opening_log(alloc, header, proc)?;
        let settings = header.copy(alloc)?;
        let kinds = copied(alloc, handlers.kinds())?;
        let state = opened_at(alloc, header, proc)?;
        Ok(World {
            header: settings,
            kinds,
            log,
            state,
            closed: false,
        })
    }

    /// Lets an event happen. The errors are tried in their order, after the answers that log nothing.
    pub fn step(&mut self, event: Event) -> Result<Reply, StepError>
        requires built { IsBuilt event }
        ensures closed { IsErrOf result StepError.Closed ↔ (self.old.closed ≡ true) }
        ensures shut { self.old.closed ≡ true → self.new ≡ self.old }
        ensures steps { self.old.closed ≡ false → Steps self.old event result self.new }
        ensures full { IsErrOf result StepError.LogFull → row_limit ≤ length self.new.log }
        ensures header { self.new.header ≡ self.old.header }
        ensures kinds { self.new.kinds ≡ self.old.kinds }

        // What holds of the log, whatever is answered.
        ensures legal { IsLegal self.new.log }
        ensures at_once { ActsAtOnce self.new.log }
        ensures loads_end { LoadsEndInTime self.new.log }
        ensures suits { self.new.header.pages ≡ [] → OpensAs self.new.header self.new.log → Suits self.new.header self.new.log }
        ensures limited { BeginsBelow row_limit self.new.log }
        ensures answers { AnswersBy self.new.kinds self.new.log }
    {
        let result = self.try_step(event);
        // Brings what holds of every world.
        let _kept = &self.closed;
        result
    }

    /// `step`, but for what holds of every world's log.
    fn try_step(&mut self, event: Event) -> Result<Reply, StepError>
        requires built { IsBuilt event }
        ensures closed { IsErrOf result StepError.Closed ↔ (self.old.closed ≡ true) }
        ensures shut { self.old.closed ≡ true → self.new ≡ self.old }
        ensures steps { self.old.closed ≡ false → Steps self.old event result self.new }
        ensures full { IsErrOf result StepError.LogFull → row_limit ≤ length self.new.log }
        ensures header { self.new.header ≡ self.old.header }
        ensures kinds { self.new.kinds ≡ self.old.kinds }
    {
        if self.closed {
            return Err(StepError::Closed);
        }
        let State {
            desks,
            coordinator,
            ..
        } = &self.state;
        if let Some(reply) = idle(desks, coordinator, self.kinds.as_slice(), &event) {
            return Ok(reply);
        }
        let before = self.log.len();
        if before >= ROW_LIMIT {
            return Err(StepError::LogFull);
        }
        match go(&mut self.log, &self.header, &mut self.state, event) {
            Ok(reply) => Ok(reply),
            Err(error) => {
                self.log.cut(before);
                self.closed = true;
                Err(error)
            }
        }
    }

    /// The settings under which the tab was opened.
    pub fn header(&self) -> &Header
        ensures { result.now ≡ self.now.header }
    {
        &self.header
    }

    /// The kind of the handler of a slot; none where the slot is empty.
    pub fn kind(&self, slot: u8) -> Option<HandlerKind>
        ensures { result ≡ slice_get self.now.kinds slot }
    {
        self.kinds.get(slot as usize).copied()
    }

    /// The log: what happened, in order.
    pub fn log(&self) -> &Log
        ensures log { result.now ≡ self.now.log }
        ensures legal { IsLegal self.now.log }
        ensures at_once { ActsAtOnce self.now.log }
        ensures loads_end { LoadsEndInTime self.now.log }
        ensures suits { self.now.header.pages ≡ [] → OpensAs self.now.header self.now.log → Suits self.now.header self.now.log }
        ensures limited { BeginsBelow row_limit self.now.log }
        ensures answers { AnswersBy self.now.kinds self.now.log }
    {
        // Brings what holds of every world.
        let _open = &self.closed;
        &self.log
    }

    /// The log, once nothing more is to happen.
    pub fn into_log(self) -> Log
        ensures log { result ≡ self.log }
        ensures legal { IsLegal self.log }
        ensures at_once { ActsAtOnce self.log }
        ensures loads_end { LoadsEndInTime self.log }
        ensures suits { self.header.pages ≡ [] → OpensAs self.header self.log → Suits self.header self.log }
        ensures limited { BeginsBelow row_limit self.log }
        ensures answers { AnswersBy self.kinds self.log }
    {
        let World {
            header: _,
            kinds: _,
            log,
            state: _,
            closed: _,
        } = self;
        log
    }

    /// The view of the document that a poke of the navigable reaches.
    pub fn view(&self, nav: NavId) -> Option<&View>
        ensures view { self.now.closed ≡ false → option_copied result ≡ option_and_then (λ document. document.view) (reached_in (seen_of self.now.log) nav) }
    {
        match reached(&self.state.coordinator, &self.state.runners, nav) {
            Ok(doc) => self.state.views.of(doc),
            Err(_) => None,
        }
    }

    /// Whether exactly one document of the navigable runs.
    pub fn is_sole(&self, nav: NavId) -> bool
        ensures sole { self.now.closed ≡ false → result ≡ (length (running_documents (seen_of self.now.log) nav) == 1) }
    {
        self.state.runners.count(nav) == 1
    }

    /// Whether a navigable with an entry is shown at the current step: it is the top, or it hangs on the document state of its shown parent's target. HTML Standard, "Navigables".
    pub fn is_shown(&self, nav: NavId) -> bool
        ensures shown { self.now.closed ≡ false → has_row nav (history_of self.now.log).rows ≡ true → result ≡ is_shown (history_of self.now.log).rows (history_of self.now.log).current nav }
    {
        // Brings what holds of every world.
        let _open = &self.closed;
        self.state.coordinator.is_shown(nav)
    }

    /// The order that a process has in hand.
    pub fn in_hand(&self, proc: ProcId) -> Option<&Order>
        ensures order { self.now.closed ≡ false → option_copied result ≡ in_hand_of self.now.log proc }
    {
        in_hand(&self.state.desks, proc)
    }

    /// How many pokes, orders and reports wait in a process.
    pub fn waiting(&self, proc: ProcId) -> Waiting
        ensures input { self.now.closed ≡ false → result.input ≡ length (input_of self.now.log proc) }
        ensures mail { self.now.closed ≡ false → result.mail ≡ length (mail_of self.now.log proc) }
        ensures reports { self.now.closed ≡ false → result.reports ≡ length (reports_of self.now.log proc) }
    {
        waiting(&self.state.desks, proc)
    }

    /// Whether nothing is in transit.
    pub fn is_still(&self) -> bool
        ensures still { self.now.closed ≡ false → result ≡ is_still (seen_of self.now.log) }
        // What is in transit waits in a process of the settings.
        ensures sited { self.now.closed ≡ false → result ≡ false → SomeWaits self.now.header (seen_of self.now.log) }
    {
        self.state.desks.is_idle()
    }

    /// Whether nothing is in transit and no prompt is up.
    pub fn is_quiet(&self) -> bool
        ensures quiet { self.now.closed ≡ false → result ≡ is_quiet (seen_of self.now.log) }
    {
        self.state.desks.is_idle()
    }

    /// The store that keeps the history. Nothing is said of the store of a closed world.
    pub fn store(&self) -> &StepIndex
        ensures history { self.now.closed ≡ false → SameHistory (history_held result.now) (history_of self.now.log) }
    {
        // Brings what holds of every world.
        let _open = &self.closed;
        self.state.coordinator.store()
    }

    /// How each request ended, in the order of acceptance.
    pub fn endings(&self) -> &[Option<Ending>]
        ensures endings { self.now.closed ≡ false → result.now ≡ endings_of (seen_of self.now.log) }
    {
        // Brings what holds of every world.
        let _open = &self.closed;
        self.state.endings.as_slice()
    }
}

/// The kinds once more.
fn copied(alloc: Global, kinds: &[HandlerKind]) -> Result<Vec<HandlerKind>, OutOfMemory>
    ensures { IfOk result (λ copy. copy.items ≡ kinds.now) }
{
    let mut copy = Vec::new(alloc);
    copy.extend_from_slice(kinds)?;
    Ok(copy)
}

/// An event that logs happens.
fn go(log: &mut Log, header: &Header, state: &mut State, event: Event) -> Result<Reply, StepError>
    requires open { IsOpen header.now log.old state.old }
    requires short { length log.old < row_limit }
    requires built { IsBuilt event }
    requires due { (kinds : List HandlerKind) × (idle_reply kinds (seen_of log.old) event ≡ None) }
    ensures gone { IfOk result (λ reply. HasGone header.now event reply log.old log.new state.new) }
    ensures shuts { IfErr result Shuts }
    ensures front { OnErr result (take (length log.old) log.new ≡ log.old) }
{
    match event {
        Event::Load { nav, mode, address } => {
            let ask = Ask::Load { nav, mode, address };
            accept_ask(log, header, state, &ask)
        }
        Event::Go { delta } => {
            let ask = Ask::Go { delta };
            accept_ask(log, header, state, &ask)
        }
        Event::Poke { nav, action } => accept_poke(log, header, state, nav, action),
        // No prompt is up, so the answer to one isn't due.
        Event::Answer { .. } => unreachable!(),
        Event::Evict => evict(log, header, state),
        Event::Act { proc } => act(log, header, state, proc),
        Event::Begin { proc } => begin(log, header, state, proc),
        Event::Finish { proc, done } => {
            let outcome = *done.outcome();
            finish(log, header, state, proc, outcome)
        }
        Event::Deliver { proc } => deliver(log, header, state, proc),
    }
}
