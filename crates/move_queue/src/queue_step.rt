//! `QueueStep`, a step of the session history traversal queue.
ghost use Rattle.std.specs.Prelude.{◌≡◌};
ghost use Rattle.move_queue.specs.Queue.{request_of};

use tab_ids::{NavId, ReqId};

/// What waits in the traversal queue, under the request that it serves.
#[derive(Clone, Copy, PartialEq, Eq, Debug)]
pub enum QueueStep {
    /// Traverse the history by a delta.
    Traverse(ReqId, i32),
    /// Reload a navigable.
    Reload(ReqId, NavId),
    /// Finalise the load of a navigable whose new document is ready.
    Ready(ReqId, NavId),
}

impl QueueStep {
    /// The request that the step serves.
    pub(crate) fn request(&self) -> ReqId
        ensures { result ≡ request_of self.now }
    {
        match self {
            QueueStep::Traverse(req, _) => *req,
            QueueStep::Reload(req, _) => *req,
            QueueStep::Ready(req, _) => *req,
        }
    }
}
