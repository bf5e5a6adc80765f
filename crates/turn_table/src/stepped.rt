//! `Stepped`, a value that events step, each with a reply.

/// A value that is stepped by one event at a time.
pub trait Stepped: Drop {
    type Event;

    type Reply;

    // An event may lead from a value to another with a reply. A step may find no memory, so one event may lead to several.
    ghost goes: { Self → Self.Event → Self.Reply → Self → Type 0 };

    // An event is for the first seat alone.
    ghost for_first: { Self.Event → Type 0 };

    /// Makes one step.
    fn step(&mut self, event: Self::Event) -> Self::Reply
        ensures { goes self.old event result self.new };
}
