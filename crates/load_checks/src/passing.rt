//! A load passes its check where an event was cut, and the event is cut once more behind the order that makes its document.
ghost use Rattle.std.specs.Prelude.{◌≡◌, [], IfOk, OnOk, Some};
ghost use Rattle.load_checks.specs.Stages.{GoesAt, HasLetPass, InLoadTurn, InStage, IsCutAt};
ghost use Rattle.load_table.specs.Loads.{HasOneEach, ongoing_load};
ghost use Rattle.unload_check.specs.Checks.{outcome_at};
ghost use Rattle.unload_check.specs.declared.check.Check.TheVariants as checks;

use address::OutOfMemory;
use load_passed::pass_load;
use load_prompts::ask_about;
use load_table::Load;
use log_model::{Docs, Header, Out};
use std::alloc::Global;
use tab_doors::Tables;
use tab_ids::NavId;

/// The load of the navigable that is in its unload check.
fn asked_load(tables: &Tables, nav: NavId) -> Result<Option<Load>, OutOfMemory>
    ensures load { IfOk result (λ load. load ≡ ongoing_load nav tables.now.asking) }
    ensures one_each { OnOk result (HasOneEach tables.now.asking) }
{
    match tables.asking.of(nav) {
        Some(load) => {
            let address = load.address.copy()?;
            Ok(Some(Load {
                req: load.req,
                nav: load.nav,
                address,
                replace: load.replace,
                state: load.state,
                phase: load.phase,
            }))
        }
        None => Ok(None),
    }
}

/// The load, which is in its unload check and goes on, passes it: its document is to be made, and the event is cut behind that order.
fn pass_asked(
    alloc: Global,
    header: &Header,
    tables: &mut Tables,
    run: &mut Docs,
    out: &mut Out,
    load: Load,
) -> Result<(), OutOfMemory>
    ghost v: { InLoadTurn }
    requires load { v.load ≡ load }
    requires header { header.now ≡ v.stage.event.header }
    requires run { run.old ≡ [] }
    requires first { out.old ≡ [] }
    requires at { IsCutAt v.stage tables.old }
    requires its { ongoing_load load.nav tables.old.asking ≡ Some load }
    requires goes { outcome_at load.req tables.old.checks ≡ Some checks.Go }
    requires one_each { HasOneEach tables.old.asking }
    ensures passed { OnOk result (HasLetPass v.stage load.nav tables.old tables.new out.new) }
    ensures none { OnOk result (run.new ≡ []) }
{
    pass_load(
        header,
        tables,
        out,
        load.req,
        load.nav,
        &load.address,
        load.replace,
        load.state,
    )?;
    ask_about(alloc, tables, run, out, &[])?;
    Ok(())
}

/// The load of the navigable, which is in its unload check and goes on, passes it: its document is to be made, and the event is cut behind that order. HTML Standard, "checking if unloading is canceled", "navigate" and "attempt to populate the history entry's document".
pub fn let_pass(
    alloc: Global,
    header: &Header,
    tables: &mut Tables,
    run: &mut Docs,
    out: &mut Out,
    nav: NavId,
) -> Result<(), OutOfMemory>
    ghost w: { InStage }
    requires header { header.now ≡ w.event.header }
    requires run { run.old ≡ [] }
    requires first { out.old ≡ [] }
    requires at { IsCutAt w tables.old }
    requires goes { GoesAt tables.old nav }
    ensures passed { OnOk result (HasLetPass w nav tables.old tables.new out.new) }
    ensures none { OnOk result (run.new ≡ []) }
{
    match asked_load(tables, nav)? {
        Some(load) => pass_asked(alloc, header, tables, run, out, load),
        None => Ok(()),
    }
}
