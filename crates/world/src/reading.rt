//! What waits in a process, what it has in hand, and whom a poke reaches.
ghost use Rattle.std.specs.Prelude.{◌≡◌, Some, IfErr, IfOk, IsSome, length};
ghost use Rattle.std.specs.Option.{option_copied};
ghost use Rattle.log_model.specs.Causes.{denial_of_poke};
ghost use Rattle.log_model.specs.Equal.{holds};
ghost use Rattle.log_model.specs.Seen.{Seen};
ghost use Rattle.proc_tables.specs.Desks.{desk_at};
ghost use Rattle.proc_tables.specs.Views.{view_at};
ghost use Rattle.tab_doors.specs.Ties.{proc_in};
ghost use Rattle.world.specs.Reaching.{AreOf, Reaches};

use crate::event::Waiting;
use coord::Coordinator;
use log_model::{Denial, Order};
use proc_tables::{Desks, Views};
use running_table::Runners;
use tab_ids::{DocId, NavId, ProcId};

/// How many pokes, orders and reports wait in a process.
pub(crate) fn waiting(desks: &Desks, proc: ProcId) -> Waiting
    ensures input { result.input ≡ length (desk_at desks.now proc).input }
    ensures mail { result.mail ≡ length (desk_at desks.now proc).mail }
    ensures reports { result.reports ≡ length (desk_at desks.now proc).reports }
{
    match desks.of(proc) {
        Some(desk) => Waiting {
            input: desk.pokes() as u64,
            mail: desk.orders() as u64,
            reports: desk.reports() as u64,
        },
        None => Waiting {
            input: 0,
            mail: 0,
            reports: 0,
        },
    }
}

/// The order that a process has in hand.
pub(crate) fn in_hand(desks: &Desks, proc: ProcId) -> Option<&Order>
    ensures { option_copied result ≡ (desk_at desks.now proc).in_hand }
{
    match desks.of(proc) {
        Some(desk) => desk.in_hand(),
        None => None,
    }
}

/// Whether a document that is there has unsaved edits.
pub(crate) fn is_dirty(views: &Views, doc: DocId) -> bool
    ensures { result ≡ holds (λ view. view.dirty) (view_at views.now doc) }
{
    match views.of(doc) {
        Some(view) => view.dirty(),
        None => false,
    }
}

/// Whether a document is there and runs.
pub(crate) fn runs(views: &Views, doc: DocId) -> bool
    ensures { result ≡ holds (λ view. view.running) (view_at views.now doc) }
{
    match views.of(doc) {
        Some(view) => view.running(),
        None => false,
    }
}

/// The process in which a document that was made lives.
pub(crate) fn home_of(coordinator: &Coordinator, doc: DocId) -> ProcId
    requires { IsSome (proc_in coordinator.now.tables.whose.entries doc) }
    ensures { proc_in coordinator.now.tables.whose.entries doc ≡ Some result }
{
    coordinator.tables.proc_there(doc)
}

/// The document that a poke of a navigable reaches, or the reason that denies it.
pub(crate) fn reached(
    coordinator: &Coordinator,
    runners: &Runners,
    nav: NavId,
) -> Result<DocId, Denial>
    ensures reached { IfOk result (λ doc. (s : Seen) → AreOf s coordinator.now runners.now → Reaches s nav doc) }
    ensures denied { IfErr result (λ reason. (s : Seen) → AreOf s coordinator.now runners.now → denial_of_poke s nav ≡ Some reason) }
{
    let newest = runners.newest(nav);
    if !coordinator.has_row(nav) {
        return Err(Denial::NoNavigable);
    }
    match newest {
        Some(doc) => Ok(doc),
        None => Err(Denial::NoDocument),
    }
}
