//! Which row ends a request.
ghost use Rattle.std.specs.Prelude.{◌≡◌};
ghost use Rattle.history_log.specs.Endings as spec;

use log_model::RowKind;
use tab_ids::ReqId;

/// Whether the row says that the request was applied, refused or dropped.
pub fn ends(req: ReqId, row: &RowKind) -> bool
    ensures { result ≡ spec.ends req row.now }
{
    match row {
        RowKind::Applied { req: ended, .. }
        | RowKind::Refused { req: ended, .. }
        | RowKind::Dropped { req: ended, .. } => *ended == req,
        RowKind::Opened { .. }
        | RowKind::Accepted { .. }
        | RowKind::Started { .. }
        | RowKind::Prompted { .. }
        | RowKind::Answered { .. }
        | RowKind::Sent { .. }
        | RowKind::Taken { .. }
        | RowKind::Finished { .. }
        | RowKind::Made { .. }
        | RowKind::Delivered { .. }
        | RowKind::Killed { .. }
        | RowKind::Evicted { .. } => false,
    }
}
