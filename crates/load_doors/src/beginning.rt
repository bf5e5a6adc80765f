//! A load begins.
ghost use Rattle.std.specs.Map.{lookup};
ghost use Rattle.std.specs.Option.{option_copied};
ghost use Rattle.std.specs.Prelude.{◌≡◌, ◌<◌, ◌+◌, ◌^◌, ◌++◌, ◌∷◌, [], OnOk, None, Some, false, is_some, option_and_then};
ghost use Rattle.load_doors.specs.Loading.{IsGiven, IsToBegin, begun_load};
ghost use Rattle.load_table.specs.Loads.{ongoing_load};
ghost use Rattle.log_model.specs.AfterRequests.{load_replaces};
ghost use Rattle.log_model.specs.declared.request.Request.TheVariants as requests;
ghost use Rattle.log_model.specs.declared.row_kind.RowKind.TheVariants as rows;
ghost use Rattle.log_model.specs.History.{row_of};
ghost use Rattle.nav_tree.specs.Tree.{is_state, nav_of};
ghost use Rattle.step_index.specs.Held.{history_held};
ghost use Rattle.navigate_core.specs.Navigations.{is_replace};
ghost use Rattle.seen_laws.specs.InEvent.{InEvent, now_of};
ghost use Rattle.tab_doors.specs.Working.{IsAtWork, KeepsStore};

use address::{Address, OutOfMemory};
use entry_store::Store;
use load_table::{Load, Phase};
use log_model::{Mode, Out, Row, RowKind};
use navigate_core::{Handling, choose};
use tab_doors::Tables;
use tab_ids::{NavId, ReqId, StateId};

/// Whether a load is to replace the entry that its navigable was given: it wants to, or that entry's document is an initial about:blank one. HTML Standard, "navigate" (history handling).
pub fn replaces(tables: &Tables, out: &Out, nav: NavId, mode: Mode, address: &Address) -> bool
    ghost e: { InEvent }
    requires work { IsAtWork e out.now tables.now }
    requires given { IsGiven (now_of e out.now) tables.now nav }
    ensures { result ≡ load_replaces (now_of e out.now) (requests.Load nav mode address.now) }
{
    let _rows = out.len();
    match given_row(tables, nav) {
        Some(row) => is_replace(choose(
            mode,
            is_initial(tables, row.state),
            address.text() == row.address.text(),
        )),
        None => is_replace(choose(mode, false, false)),
    }
}

/// Whether the handling is a replace.
fn is_replace(handling: Handling) -> bool
    ensures { result ≡ is_replace handling }
{
    match handling {
        Handling::Replace => true,
        Handling::Push => false,
    }
}

/// The row of the entry that a navigable was given.
fn given_row(tables: &Tables, nav: NavId) -> Option<&Row>
    ensures { option_copied result ≡ option_and_then (λ fields. option_and_then (λ entry. row_of entry (history_held tables.now.store).rows) fields.given) (nav_of nav tables.now.tree) }
{
    let fields = tables.tree.nav(nav)?;
    tables.store.row(fields.given?)
}

/// Whether the document state is one of initial about:blank documents.
fn is_initial(tables: &Tables, state: StateId) -> bool
    ensures { result ≡ is_some (lookup (is_state state) tables.now.initial.entries) }
{
    tables.initial.contains_key(&state)
}

/// A load begins, of a navigable without an ongoing one: it has the next document state, and asks for no document yet.
pub fn begin_load(
    tables: &mut Tables,
    out: &mut Out,
    req: ReqId,
    nav: NavId,
    replace: bool,
    address: Address,
) -> Result<(), OutOfMemory>
    ghost e: { InEvent }
    requires work { IsAtWork e out.old tables.old }
    requires off { e.checking req ≡ false }
    requires due { IsToBegin e out.old tables.old.loads req nav replace address }
    requires room { tables.old.states + 1 < 2 ^ 32 }
    ensures work { OnOk result (IsAtWork e out.new tables.new) }
    ensures out { OnOk result (out.new ≡ out.old ++ rows.Started req None ∷ []) }
    ensures began { OnOk result (ongoing_load nav tables.new.loads ≡ Some (begun_load req nav replace address (tables.old.states + 1))) }
    ensures kept { OnOk result (KeepsStore tables.old tables.new) }
{
    let state = StateId(tables.states + 1);
    out.push(RowKind::Started { req, goal: None })?;
    tables.loads.begin(Load {
        req,
        nav,
        address,
        replace,
        state,
        phase: Phase::Asking,
    })?;
    tables.states += 1;
    Ok(())
}
