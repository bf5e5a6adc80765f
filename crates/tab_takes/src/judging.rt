//! What becomes of what a document made.
ghost use Rattle.std.specs.Prelude.{◌≡◌, Some};
ghost use Rattle.std.specs.Option.{IsSome};
ghost use Rattle.tab_takes.specs.Taking.{HasNode, judged_in, nav_found};

use log_model::Made;
use sync_core::{Judged, judge};
use tab_doors::Tables;
use tab_ids::NavId;

/// The navigable of the document that made it.
pub(crate) fn nav_there(tables: &Tables, made: &Made) -> NavId
    requires { IsSome (nav_found tables.now made.now.doc) }
    ensures { nav_found tables.now made.now.doc ≡ Some result }
{
    match tables.nav_of(made.doc) {
        Some(nav) => nav,
        None => unreachable!(),
    }
}

/// What becomes of what a document made, by where its navigable stands: it is dropped, since its navigable was removed, or was shown a document since; it waits for the traversal that has moved its navigable; or it is taken up now.
pub fn judged(tables: &Tables, made: &Made) -> Judged
    requires { HasNode tables.now made.now }
    ensures { judged_in tables.now made.now ≡ Some result }
{
    let nav = nav_there(tables, made);
    judge(&tables.tree, nav, made.epoch, true)
}
