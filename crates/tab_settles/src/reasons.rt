//! `Reasons`, what orders are for as a tab is brought to rest.
ghost use Rattle.std.specs.Prelude.{◌≡◌};
ghost use Rattle.tab_settles.specs.Settling.{followed, tells_of};

use log_model::Why;
use tab_ids::ReqId;

/// What orders are for, and with which requests the event has to do.
#[derive(Clone, Copy, PartialEq, Eq, Debug)]
pub struct Reasons {
    /// What orders of the walk are for where no traversal runs.
    pub cause: Why,
    /// The request that the event accepts, or whose report it takes.
    pub handled: Option<ReqId>,
    /// The step that was logged last: a traversal, or a load with a new document.
    pub logged: Option<ReqId>,
}

impl Reasons {
    /// What orders that tell length and index are for.
    pub(crate) fn tells(&self) -> Why
        ensures { result ≡ tells_of self.now }
    {
        match self.handled.or(self.logged) {
            Some(req) => Why::Req(req),
            None => self.cause,
        }
    }

    /// Orders are for the request that was taken up, was applied or began last, where there is one.
    pub(crate) fn follow(&mut self, last: Option<ReqId>)
        ensures { self.new ≡ followed last self.old }
    {
        if let Some(req) = last {
            self.cause = Why::Req(req);
        }
    }
}
