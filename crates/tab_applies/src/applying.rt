//! A ready load has its turn.
ghost use Rattle.std.specs.Prelude.{◌≡◌, None, OnOk, IsSome, Some};
ghost use Rattle.load_table.specs.Loads.{ongoing_load};
ghost use Rattle.seen_laws.specs.InEvent.{now_of};
ghost use Rattle.tab_applies.specs.Applying.{HasApplied, InReady, MayApply, given_in};
ghost use Rattle.tab_turns.specs.PassedOn.{IsPassing};

use address::OutOfMemory;
use load_doors::apply_load;
use log_model::Out;
use nav_tree::NavTree;
use std::alloc::Global;
use tab_doors::Tables;
use tab_ids::{EntryId, NavId};

/// The entry that the navigable was given.
fn given_there(tree: &NavTree, nav: NavId) -> EntryId
    requires { IsSome (given_in tree.now nav) }
    ensures { given_in tree.now nav ≡ Some result }
{
    match tree.nav(nav) {
        Some(fields) => match fields.given {
            Some(entry) => entry,
            None => unreachable!(),
        },
        None => unreachable!(),
    }
}

/// The ready load of a navigable has its turn: it is applied, so that the history has a new entry of its document state, in the place of the given one where the load replaces. No traversal runs, and all stand. HTML Standard, "finalize a cross-document navigation".
pub fn apply_ready(
    alloc: Global,
    tables: &mut Tables,
    out: &mut Out,
    nav: NavId,
) -> Result<(), OutOfMemory>
    ghost r: { InReady }
    requires passing { IsPassing r.pass out.old tables.old }
    requires at { ongoing_load nav tables.old.loads ≡ Some r.load }
    requires idle { tables.old.running ≡ None }
    requires may { MayApply r.pass.event (now_of r.pass.event out.old) nav r.load }
    ensures passing { OnOk result (IsPassing r.pass out.new tables.new) }
    ensures applied { OnOk result (HasApplied r.pass.event nav r.load out.old out.new tables.old tables.new) }
{
    let over = given_there(&tables.tree, nav);
    apply_load(alloc, tables, out, nav, over)?;
    Ok(())
}
