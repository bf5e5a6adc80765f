//! A document is made for a navigable's target.
ghost use Rattle.std.specs.Prelude.{◌≡◌, OnOk, Some, is_some};
ghost use Rattle.std.specs.Map.{lookup};
ghost use Rattle.apply_plan.specs.declared.need.Need.TheVariants as needs;
ghost use Rattle.nav_tree.specs.Tree.{is_state};
ghost use Rattle.seen_laws.specs.InEvent.{now_of};
ghost use Rattle.tab_doors.specs.Working.{KeepsStore};
ghost use Rattle.tab_moves.specs.Making.{HasMade, is_new_by, make_why};
ghost use Rattle.tab_moves.specs.Showing.{IsTurn, need_in};
ghost use Rattle.tab_passes.specs.Causes.{MayCause};
ghost use Rattle.tab_passes.specs.Leaving.{KeepsOff};
ghost use Rattle.tab_passes.specs.Passing.{InPass, IsPassing};

use crate::homes::home_there;
use crate::showing::{row_there, show_why};
use address::OutOfMemory;
use log_model::{Header, Out, Why};
use nav_tree::NavTree;
use tab_doors::Tables;
use tab_ids::{DocId, EntryId, NavId, StateId};

/// Whether the navigable was never shown a document, and was added by the request that is the cause.
fn is_new_by(tree: &NavTree, nav: NavId, cause: Why) -> bool
    ensures { result ≡ is_new_by tree.now nav cause }
{
    match tree.nav(nav) {
        Some(fields) => match fields.added_by {
            Some(req) => fields.epoch.0 == 0 && cause == Why::Req(req),
            None => false,
        },
        None => false,
    }
}

/// What the order that makes a document for a navigable is for: the request that added the navigable, as long as that is at hand, else as one that shows it.
fn make_why(tables: &Tables, nav: NavId, cause: Why) -> Why
    ensures { result ≡ make_why (is_new_by tables.now.tree nav cause) tables.now.running cause }
{
    if is_new_by(&tables.tree, nav, cause) {
        cause
    } else {
        show_why(tables.running, cause)
    }
}

/// The document that is being made for a document state.
fn made_for(tables: &Tables, state: StateId) -> Option<DocId>
    ensures { result ≡ lookup (is_state state) tables.now.making.entries }
{
    tables.making.get(&state).copied()
}

/// Whether the document state is one of initial about:blank documents.
fn is_initial(tables: &Tables, state: StateId) -> bool
    ensures { result ≡ is_some (lookup (is_state state) tables.now.initial.entries) }
{
    tables.initial.contains_key(&state)
}

/// A document is made for the navigable's target, in the process of its site, unless one is being made.
pub fn make_target(
    header: &Header,
    tables: &mut Tables,
    out: &mut Out,
    nav: NavId,
    entry: EntryId,
    cause: Why,
) -> Result<(), OutOfMemory>
    ghost p: { InPass }
    requires passing { IsPassing p out.old tables.old }
    requires header { header.now ≡ p.event.header }
    requires cause { MayCause (now_of p.event out.old) cause }
    requires need { need_in tables.old nav ≡ Some (needs.Populate nav entry) }
    ensures passing { OnOk result (IsPassing p out.new tables.new) }
    ensures turn { OnOk result (IsTurn (now_of p.event out.old) (now_of p.event out.new) nav) }
    ensures made { OnOk result (HasMade header.now tables.old nav entry cause out.old out.new) }
    ensures off { OnOk result (KeepsOff p.event out.old out.new) }
    ensures kept { OnOk result (KeepsStore tables.old tables.new) }
{
    let row = row_there(&tables.store, entry);
    let state = row.state;
    match made_for(tables, state) {
        Some(_) => {}
        None => {
            let address = row.address.copy()?;
            let why = make_why(tables, nav, cause);
            let initial = is_initial(tables, state);
            let proc = home_there(header, tables, nav, &address);
            tables.make(out, nav, state, proc, address, initial, why)?;
        }
    }
    Ok(())
}
