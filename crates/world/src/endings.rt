//! How each request ended, in the order of acceptance.
ghost use Rattle.std.specs.Prelude.{◌≡◌, ◌<◌, ◌+◌, ◌++◌, ◌∷◌, [], length, OnOk};
ghost use Rattle.world.specs.Open.{row_limit};
ghost use Rattle.world.specs.Notes.{ended_in, endings_noted};

use address::OutOfMemory;
use log_model::{Ending, RowKind};
use tab_ids::ReqId;

/// The number of the next request.
pub(crate) fn next_request(endings: &Vec<Option<Ending>>) -> ReqId
    requires { length endings.now.items < row_limit }
    ensures { result.0 ≡ length endings.now.items + 1 }
{
    ReqId(endings.len() as u32 + 1)
}

/// One request more, which has ended so or is open.
pub(crate) fn add(
    endings: &mut Vec<Option<Ending>>,
    ending: Option<Ending>,
) -> Result<(), OutOfMemory>
    ensures { OnOk result (endings.new.items ≡ endings.old.items ++ ending ∷ []) }
{
    endings.push(ending)?;
    Ok(())
}

/// Notes a row that the coordinator put out.
pub(crate) fn note_ending(endings: &mut Vec<Option<Ending>>, row: &RowKind)
    ensures { endings.new.items ≡ endings_noted endings.old.items row.now }
{
    match row {
        RowKind::Applied { req, .. } => end(endings, *req, Ending::Applied),
        RowKind::Refused { req, reason } => end(endings, *req, Ending::Refused(*reason)),
        RowKind::Dropped { req, cause } => end(endings, *req, Ending::Dropped(*cause)),
        RowKind::Opened { .. }
        | RowKind::Accepted { .. }
        | RowKind::Started { .. }
        | RowKind::Prompted { .. }
        | RowKind::Answered { .. }
        | RowKind::Sent { .. }
        | RowKind::Taken { .. }
        | RowKind::Finished { .. }
        | RowKind::Made { .. }
        | RowKind::Delivered { .. }
        | RowKind::Killed { .. }
        | RowKind::Evicted { .. } => (),
    }
}

/// A request has ended.
pub(crate) fn end(endings: &mut Vec<Option<Ending>>, req: ReqId, ending: Ending)
    ensures { endings.new.items ≡ ended_in endings.old.items req ending }
{
    if req.0 == 0 {
        return;
    }
    let at = req.0 as usize - 1;
    if at < endings.len() {
        endings[at] = Some(ending);
    }
}
