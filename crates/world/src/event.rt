//! `Event`, what may happen in a tab, and `Reply`, what a step answers.
use address::Address;
use log_model::{Action, Mode, Order};
use proc_work::Done;
use tab_ids::{NavId, ProcId, ReqId};

/// What may happen next.
#[derive(Drop)]
pub enum Event {
    /// A request: a navigable is to navigate to an address.
    Load {
        nav: NavId,
        mode: Mode,
        address: Address,
    },
    /// A request: the tab is to traverse its history by a delta.
    Go {
        delta: i32,
    },
    /// A request: the running document of a navigable is to act.
    Poke {
        nav: NavId,
        action: Action,
    },
    /// The user answers the prompt of a request: to stay, or to leave.
    Answer {
        req: ReqId,
        stay: bool,
    },
    /// The user has the document discarded that is kept longest.
    Evict,
    /// A process lets its document act on the first poke of its input.
    Act {
        proc: ProcId,
    },
    /// A process takes up the first order of its mail.
    Begin {
        proc: ProcId,
    },
    /// A process has worked on the order in hand.
    Finish {
        proc: ProcId,
        done: Done,
    },
    /// The coordinator takes the first report of a process.
    Deliver {
        proc: ProcId,
    },
}

/// What a step answers. `NoPrompt`, `NothingKept`, `Busy`, `Stale` and `Empty` change nothing.
#[derive(Drop)]
pub enum Reply {
    Accepted(ReqId),
    Answered,
    /// No prompt of the request is up.
    NoPrompt,
    Evicted,
    /// No document is kept.
    NothingKept,
    Acted,
    Took(Order),
    /// The order was sent to an earlier incarnation of the process, and is void.
    Voided,
    /// An order is in hand.
    Busy,
    Finished,
    /// The finished order isn't the one in hand.
    Stale,
    Delivered,
    /// Nothing waits there.
    Empty,
}

/// How many pokes, orders and reports wait in a process.
#[derive(Clone, Copy, PartialEq, Eq, Debug)]
pub struct Waiting {
    pub input: u64,
    pub mail: u64,
    pub reports: u64,
}
