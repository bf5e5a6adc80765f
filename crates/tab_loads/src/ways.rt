//! What the tables tell of a load that the user asks for.
ghost use Rattle.std.specs.Prelude.{◌≡◌, IsSome, Some, option_copied, option_and_then};
ghost use Rattle.apply_plan.specs.Order.{parent_in};
ghost use Rattle.apply_plan.specs.Reaches.{has_target, is_awake};
ghost use Rattle.apply_plan.specs.Standing.{has_arrived, is_standing};
ghost use Rattle.log_model.specs.History.{row_of, target_entry};
ghost use Rattle.step_index.specs.Held.{history_held};
ghost use Rattle.tab_loads.specs.Telling.{away_in, away_or, cut_by, cut_by_in, denial_in, fragment_in, fragment_of, is_new_nav, is_placed_at, is_placed_in, leads_to_fragment, mover_of};
ghost use Rattle.tab_passes.specs.Telling.{awake_on};

use address::Address;
use apply_plan::{Reach, is_reached};
use entry_store::Store;
use log_model::{Denial, Row, Why};
use nav_tree::{Nav, NavStatus, NavTree, ReloadPhase};
use navigate_core::is_fragment;
use step_index::StepIndex;
use tab_doors::Tables;
use tab_drops::is_bare;
use tab_ids::{DocId, EntryId, NavId, ReqId, Step};
use tab_passes::aim;

/// The reason for which a load is refused as the user asks for it: its navigable has no entry, or isn't shown at the current step.
pub(crate) fn denial(tables: &Tables, nav: NavId) -> Option<Denial>
    ensures { result ≡ denial_in tables.now nav }
{
    let current = tables.store.current();
    if is_bare(&tables.store, nav) {
        Some(Denial::NoNavigable)
    } else if is_reached(&tables.store, &tables.tree, nav, current, Reach::Shown) {
        None
    } else {
        Some(Denial::NotShown)
    }
}

/// The row of the navigable's target entry at a step.
fn target_row(store: &StepIndex, nav: NavId, step: Step) -> Option<&Row>
    ensures { option_copied result ≡ target_entry (history_held store.now).rows nav step.0 }
{
    match store.target(nav, step) {
        Some(entry) => store.row(entry),
        None => None,
    }
}

/// Whether the navigable was given its target at a step.
fn has_target(store: &StepIndex, nav: NavId, fields: &Nav, step: Step) -> bool
    ensures { result ≡ has_target (history_held store.now).rows step.0 nav fields.now }
{
    match target_row(store, nav, step) {
        Some(row) => match fields.given {
            Some(given) => row.entry == given,
            None => false,
        },
        None => false,
    }
}

/// Whether the navigable is known lost, or shown its document.
fn has_arrived(fields: &Nav) -> bool
    ensures { result ≡ has_arrived fields.now }
{
    match fields.status {
        NavStatus::Awake(_) => fields.stands,
        NavStatus::Lost => true,
        NavStatus::Asleep => false,
    }
}

/// Whether the navigable stands at a step.
fn is_standing(store: &StepIndex, nav: NavId, fields: &Nav, step: Step) -> bool
    ensures { result ≡ is_standing (history_held store.now).rows step.0 nav fields.now }
{
    has_target(store, nav, fields, step)
        && fields.reload == ReloadPhase::Idle
        && has_arrived(fields)
}

/// Whether the navigable is shown at a step and stands there.
fn is_placed_at(tables: &Tables, nav: NavId, step: Step) -> bool
    ensures { result ≡ is_placed_at tables.now step.0 nav }
{
    if is_reached(&tables.store, &tables.tree, nav, step, Reach::Shown) {
        match tables.tree.nav(nav) {
            Some(fields) => is_standing(&tables.store, nav, fields, step),
            None => false,
        }
    } else {
        false
    }
}

/// Whether it is shown at the aim and stands there.
fn is_placed(tables: &Tables, nav: NavId) -> bool
    ensures { result ≡ is_placed_in tables.now nav }
{
    is_placed_at(tables, nav, aim(tables))
}

/// The navigable, where it isn't; else the one found before.
fn away_or(tables: &Tables, found: Option<NavId>, nav: NavId) -> Option<NavId>
    ensures { result ≡ away_or tables.now found nav }
{
    if is_placed(tables, nav) {
        found
    } else {
        Some(nav)
    }
}

/// The navigable to which one was added.
fn parent_of(tree: &NavTree, nav: NavId) -> Option<NavId>
    ensures { result ≡ parent_in tree.now nav }
{
    tree.nav(nav)?.parent
}

/// The topmost of the navigable and those above it that isn't shown at the aim, or doesn't stand there.
pub(crate) fn away(tables: &Tables, nav: NavId) -> Option<NavId>
    ensures { result ≡ away_in tables.now nav }
{
    let mut found = None;
    let mut at = nav;
    for i in 0..tables.tree.len() {
        found = away_or(tables, found, at);
        match parent_of(&tables.tree, at) {
            Some(parent) => at = parent,
            None => return found,
        }
    }
    away_or(tables, found, at)
}

/// Whether the navigable is awake.
fn is_awake(status: NavStatus) -> bool
    ensures { result ≡ is_awake status }
{
    match status {
        NavStatus::Awake(_) => true,
        NavStatus::Lost => false,
        NavStatus::Asleep => false,
    }
}

/// Whether no document was ever shown in the navigable: no order showed it one, or the first that did isn't through.
fn is_new(fields: &Nav) -> bool
    ensures { result ≡ is_new_nav fields.now }
{
    fields.epoch.0 == 0 || (fields.epoch.0 == 1 && (is_awake(fields.status) && !fields.stands))
}

/// The traversal that runs, or, where none does, the request for which a navigable is as it is.
fn mover_of(running: Option<ReqId>, why: Why) -> Option<ReqId>
    ensures { result ≡ mover_of running why }
{
    match running {
        Some(run) => Some(run),
        None => match why {
            Why::Req(req) => Some(req),
            Why::Death(_) => None,
            Why::Evict => None,
            Why::Start => None,
        },
    }
}

/// Who keeps a load from a navigable that isn't shown, or doesn't stand: who added it, if it is new, else who moves it.
fn cut_by(running: Option<ReqId>, fields: &Nav) -> Option<ReqId>
    ensures { result ≡ cut_by running fields.now }
{
    if is_new(fields) {
        fields.added_by
    } else {
        mover_of(running, fields.why)
    }
}

/// The same, of a navigable where there is such a request.
pub(crate) fn cut_there(tables: &Tables, nav: NavId) -> ReqId
    requires { IsSome (cut_by_in tables.now nav) }
    ensures { cut_by_in tables.now nav ≡ Some result }
{
    match cut_by_nav(tables, nav) {
        Some(req) => req,
        None => unreachable!(),
    }
}

/// The same, of a navigable.
fn cut_by_nav(tables: &Tables, nav: NavId) -> Option<ReqId>
    ensures { result ≡ cut_by_in tables.now nav }
{
    let fields = tables.tree.nav(nav)?;
    cut_by(tables.running, fields)
}

/// The row of an entry, if it was given.
fn given_row(store: &StepIndex, given: Option<EntryId>) -> Option<&Row>
    ensures { option_copied result ≡ option_and_then (λ entry. row_of entry (history_held store.now).rows) given }
{
    store.row(given?)
}

/// Whether an address is a fragment navigation from the entry that was given.
fn leads_to_fragment(store: &StepIndex, given: Option<EntryId>, address: &Address) -> bool
    ensures { result ≡ leads_to_fragment (history_held store.now).rows address.now given }
{
    match given_row(store, given) {
        Some(row) => is_fragment(&row.address, address),
        None => false,
    }
}

/// The document of a navigable that is awake.
fn awake_on(status: NavStatus) -> Option<DocId>
    ensures { result ≡ awake_on status }
{
    match status {
        NavStatus::Awake(doc) => Some(doc),
        NavStatus::Lost => None,
        NavStatus::Asleep => None,
    }
}

/// The same, where an address is a fragment navigation from the entry that the navigable was given.
fn fragment_of(store: &StepIndex, fields: &Nav, address: &Address) -> Option<DocId>
    ensures { result ≡ fragment_of (history_held store.now).rows address.now fields.now }
{
    if leads_to_fragment(store, fields.given, address) {
        awake_on(fields.status)
    } else {
        None
    }
}

/// The document that goes to the fragment of an address: that which the navigable is awake on, where the address differs from the given entry's by its fragment alone. HTML Standard, "navigate to a fragment".
pub(crate) fn fragment_doc(tables: &Tables, nav: NavId, address: &Address) -> Option<DocId>
    ensures { result ≡ fragment_in tables.now nav address.now }
{
    let fields = tables.tree.nav(nav)?;
    fragment_of(&tables.store, fields, address)
}
