//! `HandlerTable`, which a contract sees as the list of its handlers' kinds, by slot.
ghost use Rattle.std.specs.Prelude.{◌≡◌, ◌≤◌, ◌↔◌, [], ◌∷◌, ◌++◌, length, map, slice_get, option_map, Err, IfOk, IfSome, OnOk, OnErr, IsErrOf};
ghost use Rattle.std.specs.Option.{option_copied};
ghost use Rattle.handler_table.specs.Answers.{AnswersBy, answer_at};

use crate::add_error::AddError;
use crate::ask::Ask;
use crate::handler::Handler;
use log_model::{HandlerKind, Leaving, Verdict};
use std::alloc::Global;

/// How many handlers there may be.
const LIMIT: usize = 64;

/// Unload handlers by slot, at most 64; each answers by its kind.
#[derive(Drop)]
pub struct HandlerTable {
    kinds: Vec<HandlerKind>,
    handlers: Vec<Handler>,
    ghost tied: { map (λ h. h.kind) handlers.items ≡ kinds.items },
    ghost few: { length kinds.items ≤ 64 },
}

impl HandlerTable {
    /// A table with no handler. It takes no memory.
    pub fn new(alloc: Global) -> HandlerTable
        ensures { result.kinds.items ≡ [] }
    {
        HandlerTable {
            kinds: Vec::new(alloc),
            handlers: Vec::new(alloc),
        }
    }

    /// Adds a handler, and answers its slot.
    ///
    /// `Full` comes exactly at 64 handlers, and hands this very handler back; without memory it is dropped.
    pub fn add(
        &mut self,
        kind: HandlerKind,
        ask: Box<dyn Fn(Leaving) -> Verdict + Send + Sync>,
    ) -> Result<u8, AddError>
        requires callable { Ask.IsAlwaysCallable ask }
        requires by_kind { AnswersBy (Ask.post ask) kind }
        ensures ok { OnOk result (self.new.kinds.items ≡ self.old.kinds.items ++ kind ∷ []) }
        ensures slot { IfOk result (λ slot. slot ≡ length self.old.kinds.items) }
        ensures full { IsErrOf result (AddError.Full ask) ↔ (length self.old.kinds.items ≡ 64) }
        ensures full_only { (other : _) → result ≡ Err (AddError.Full other) → length self.old.kinds.items ≡ 64 }
        ensures err { OnErr result (self.new.kinds.items ≡ self.old.kinds.items) }
    {
        let slot = self.kinds.len();
        if slot >= LIMIT {
            return Err(AddError::Full(ask));
        }
        // What can fail comes first, so that an error changes nothing.
        if self.kinds.reserve(1).is_err() {
            return Err(AddError::OutOfMemory);
        }
        if self.handlers.push(Handler { kind, ask }).is_err() {
            return Err(AddError::OutOfMemory);
        }
        self.kinds.push_reserved(kind);
        Ok(slot as u8)
    }

    /// Asks the handler of a slot; leave where the slot is empty.
    pub fn ask(&self, slot: u8, leaving: Leaving) -> Verdict
        ensures { result ≡ answer_at self.now.kinds.items slot leaving }
    {
        match self.at(slot) {
            Some(handler) => handler.answer(leaving),
            None => Verdict::Leave,
        }
    }

    /// The kind of the handler of a slot.
    pub fn kind(&self, slot: u8) -> Option<HandlerKind>
        ensures { result ≡ slice_get self.now.kinds.items slot }
    {
        self.kinds.get(slot as usize).copied()
    }

    /// The kinds of the handlers, by slot.
    pub fn kinds(&self) -> &[HandlerKind]
        ensures { result.now ≡ self.now.kinds.items }
    {
        self.kinds.as_slice()
    }

    /// The handler of a slot.
    fn at(&self, slot: u8) -> Option<&Handler>
        ensures { option_map (λ h. h.kind) (option_copied result) ≡ slice_get self.now.kinds.items slot }
    {
        self.handlers.get(slot as usize)
    }
}

/// A table may be sent to another thread and shared between threads: the check proves it here.
#[allow(dead_code)]
fn crosses_threads(table: &HandlerTable) {
    needs_send_and_sync(table);
}

/// Takes what may be sent and shared.
fn needs_send_and_sync<T: Send + Sync>(_value: &T) {}

/// A caller: a handler that always prompts is kept, and prompts. The check refuses a closure of another kind here.
#[allow(dead_code)]
fn asks_a_prompting_handler(alloc: Global, leaving: Leaving) -> Option<Verdict>
    ensures { IfSome result (λ verdict. verdict ≡ Verdict.Prompt) }
{
    let mut table = HandlerTable::new(alloc);
    let ask: Ask = Box::new(alloc, |_: Leaving| Verdict::Prompt).ok()?;
    table.add(HandlerKind::Always, ask).ok()?;
    Some(table.ask(0, leaving))
}
