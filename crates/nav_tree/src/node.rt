//! `Node`, a navigable as the tree keeps it.
use crate::nav::Nav;
use tab_ids::ReqId;

/// A navigable, and the request that destroyed it once one has.
#[derive(Clone, Copy, PartialEq, Eq, Debug)]
pub struct Node {
    pub nav: Nav,
    pub destroyed_by: Option<ReqId>,
}
