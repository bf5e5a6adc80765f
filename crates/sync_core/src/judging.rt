//! `judge`, when a report is taken up.
ghost use Rattle.std.specs.Prelude.{◌≡◌, IsSome};
ghost use Rattle.nav_tree.specs.Tree.{node_of};
ghost use Rattle.sync_core.specs.Judging.{judged, is_current};

use log_model::Why;
use nav_tree::{Nav, NavStatus, NavTree};
use tab_ids::{Epoch, NavId, ReqId};

/// What becomes of a report.
#[derive(Clone, Copy, PartialEq, Eq, Debug)]
pub enum Judged {
    /// It is taken up at once.
    Now,
    /// It waits for the running traversal, which has moved its navigable.
    Park,
    /// Its document has lost the navigable, or doesn't run, for this reason.
    Stale(Why),
    /// This request removed its navigable.
    Gone(ReqId),
}

/// What becomes of a report that a document of the navigable made under an epoch; `running` is false where a fragment order found its document not running. It takes no memory.
pub fn judge(tree: &NavTree, nav: NavId, epoch: Epoch, running: bool) -> Judged
    requires { IsSome (node_of nav tree.now) }
    ensures { result ≡ judged tree.now nav epoch running }
{
    if let Some(req) = tree.destroyed_by(nav) {
        return Judged::Gone(req);
    }
    match tree.nav(nav) {
        Some(fields) => {
            if !running || !is_awake_under(fields, epoch) {
                return Judged::Stale(fields.why);
            }
            if fields.moved {
                return Judged::Park;
            }
            Judged::Now
        }
        None => unreachable!(),
    }
}

/// Whether the navigable is still awake under the epoch.
fn is_awake_under(nav: &Nav, epoch: Epoch) -> bool
    ensures { result ≡ is_current epoch nav.now }
{
    match nav.status {
        NavStatus::Awake(_) => nav.epoch == epoch,
        NavStatus::Lost => false,
        NavStatus::Asleep => false,
    }
}
