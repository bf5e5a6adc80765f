//! `Turn`, what the next turn of the queue came to.
use tab_ids::ReqId;

/// What the next turn of the queue came to.
#[derive(Clone, Copy, PartialEq, Eq, Debug)]
pub enum Turn {
    /// Nothing was done: not all stand, or no step waits.
    Rests,
    /// A traversal was refused, since its delta leads nowhere.
    Refused,
    /// Nothing was done: the traversal whose turn it is asks somebody before it begins, and waits on, first of all.
    Asks(ReqId),
    /// The request, a traversal, has begun, or, a load, was applied: what follows is for it.
    Went(ReqId),
}
