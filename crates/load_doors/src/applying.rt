//! A load is applied.
ghost use Rattle.std.specs.Option.{IsSome};
ghost use Rattle.std.specs.Prelude.{◌≡◌, ◌<◌, ◌+◌, ◌^◌, ◌++◌, ◌∷◌, [], false, OnOk, None, Some, map};
ghost use Rattle.seen_facts.specs.Each.Runs.{is_this};
ghost use Rattle.load_doors.specs.Applying.{InApply, IsApplyDue, new_entry};
ghost use Rattle.load_table.specs.Loads.{ongoing_load};
ghost use Rattle.log_model.specs.declared.row_kind.RowKind.TheVariants as rows;
ghost use Rattle.navigate_core.specs.Navigations.{change_for};
ghost use Rattle.seen_laws.specs.InEvent.{log_of, now_of};
ghost use Rattle.tab_doors.specs.Dues.{MayChange, SeesRows};
ghost use Rattle.tab_doors.specs.Look.{sight, sight_in};
ghost use Rattle.tab_doors.specs.Working.{IsAtWork, KeepsRun};
ghost use Rattle.unasked_dues.specs.Checking.{NoStepChecks};

use address::OutOfMemory;
use load_table::Load;
use log_model::Out;
use navigate_core::finalise;
use std::alloc::Global;
use tab_doors::{Tables, destroy_each};
use tab_ids::{EntryId, NavId};

/// The ongoing load of a navigable that has one.
fn load_of(tables: &Tables, nav: NavId) -> &Load
    requires { IsSome (ongoing_load nav tables.now.loads) }
    ensures { ongoing_load nav tables.now.loads ≡ Some result.now }
{
    match tables.loads.of(nav) {
        Some(load) => load,
        None => unreachable!(),
    }
}

/// The load of a navigable is applied: the history has a new entry of its document state, in the place of `over` where the load replaces. Each navigable that loses its last entries to it is noted. HTML Standard, "finalize a cross-document navigation".
pub fn apply_load(
    alloc: Global,
    tables: &mut Tables,
    out: &mut Out,
    nav: NavId,
    over: EntryId,
) -> Result<(), OutOfMemory>
    ghost a: { InApply }
    requires work { IsAtWork a.event out.old tables.old }
    requires at { ongoing_load nav tables.old.loads ≡ Some a.load }
    requires change { a.change ≡ change_for a.load over (new_entry tables.old) }
    requires due { IsApplyDue a.event out.old a.load.req nav a.change }
    requires may { MayChange (now_of a.event out.old) a.change }
    requires sees { SeesRows (now_of a.event out.old) a.change }
    requires no_maker { sight_in (map sight (now_of a.event out.old).documents) (record { 0 = 0 }) ≡ None }
    requires apart { is_this tables.old.running a.load.req ≡ false }
    requires room { tables.old.entries + 1 < 2 ^ 32 }
    requires free { NoStepChecks a.event.checking (log_of a.event []) }
    ensures work { OnOk result (IsAtWork a.event out.new tables.new) }
    ensures out { OnOk result (out.new ≡ out.old ++ rows.Applied a.load.req a.change ∷ []) }
    ensures kept { OnOk result (KeepsRun tables.old tables.new) }
{
    let entry = EntryId {
        maker: 0,
        nr: tables.entries + 1,
    };
    let load = load_of(tables, nav);
    let req = load.req;
    let change = finalise(load, over, entry)?;
    let lost = tables.change(alloc, out, req, change)?;
    destroy_each(&mut tables.tree, &lost, req);
    tables.entries += 1;
    tables.loads.cancel(nav);
    Ok(())
}
