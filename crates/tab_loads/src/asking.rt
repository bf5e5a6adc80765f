//! Whom a load asks before it begins.
ghost use Rattle.std.specs.Prelude.{◌≡◌, IfOk};
ghost use Rattle.tab_loads.specs.Loading.{are_asked_at};

use address::OutOfMemory;
use indexmap::IndexMap;
use leave_questions::leave_questions;
use log_model::LeaveCause;
use std::alloc::Global;
use tab_doors::Tables;
use tab_ids::{DocId, NavId};

/// Whether a load of the navigable asks somebody before it begins: a document that it leaves has an unload handler. HTML Standard, "checking if unloading is canceled".
pub(crate) fn asks_somebody(
    alloc: Global,
    tables: &Tables,
    slots: &IndexMap<DocId, u8>,
    nav: NavId,
) -> Result<bool, OutOfMemory>
    ensures { IfOk result (λ asks. asks ≡ are_asked_at slots.now.entries tables.now nav) }
{
    let questions = leave_questions(alloc, &tables.tree, slots, nav, LeaveCause::Load)?;
    Ok(!questions.is_empty())
}
