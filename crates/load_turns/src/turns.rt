//! Each load of which nobody is to be asked any more passes, in its turn.
ghost use Rattle.std.specs.Prelude.{◌≡◌, [], OnOk, false};
ghost use Rattle.std.specs.Option.{option_map_or};
ghost use Rattle.load_checks.specs.Stages.{InStage, IsCutAt};
ghost use Rattle.load_turns.specs.Turns.{HasTurned, HaveTurned, InTurns, going_at, is_go};

use crate::passed::{Passed, Passes};
use address::OutOfMemory;
use load_checks::let_pass;
use log_model::{Docs, Header, Out};
use std::alloc::Global;
use tab_doors::Tables;
use tab_ids::{NavId, ReqId};
use unload_check::Check;

/// Whether a request goes on by its check.
fn is_go(check: Option<Check>) -> bool
    ensures { result ≡ option_map_or is_go check false }
{
    match check {
        Some(Check::Go) => true,
        Some(Check::Waiting) => false,
        Some(Check::Prompt(_)) => false,
        Some(Check::Stay) => false,
        None => false,
    }
}

/// The request of the navigable's load that is in its check and goes on.
fn going(tables: &Tables, nav: NavId) -> Option<ReqId>
    ensures { result ≡ going_at tables.now nav }
{
    let req = tables.asking.of(nav)?.req;
    if is_go(tables.checks.outcome(req)) {
        Some(req)
    } else {
        None
    }
}

/// The navigable's load passes, if it is in its check and goes on.
fn let_next(
    alloc: Global,
    header: &Header,
    tables: &mut Tables,
    run: &mut Docs,
    done: &mut Passes,
    nav: NavId,
) -> Result<(), OutOfMemory>
    ghost w: { InStage }
    requires header { header.now ≡ w.event.header }
    requires run { run.old ≡ [] }
    requires at { IsCutAt w tables.old }
    ensures turned { OnOk result (HasTurned w nav tables.old tables.new done.old done.new) }
    ensures none { OnOk result (run.new ≡ []) }
{
    match going(tables, nav) {
        Some(req) => {
            let mut out = Out::new(alloc);
            let_pass(alloc, header, tables, run, &mut out, nav)?;
            done.push(Passed { req, out })?;
            Ok(())
        }
        None => Ok(()),
    }
}

/// Of these navigables each load that is in its check and goes on passes, in their order: its document is to be made, and the event is cut behind that order. They are put behind those that have passed (`done`). HTML Standard, "checking if unloading is canceled", "navigate" and "attempt to populate the history entry's document".
pub fn let_all_pass(
    alloc: Global,
    header: &Header,
    tables: &mut Tables,
    run: &mut Docs,
    done: &mut Passes,
    navs: &[NavId],
) -> Result<(), OutOfMemory>
    ghost w: { InTurns }
    requires header { header.now ≡ w.stage.event.header }
    requires run { run.old ≡ [] }
    requires first { done.old ≡ [] }
    requires checks { w.checks ≡ tables.old.checks }
    requires at { IsCutAt w.stage tables.old }
    ensures turned { OnOk result (HaveTurned w navs.now tables.old tables.new done.new) }
    ensures none { OnOk result (run.new ≡ []) }
{
    for nav in navs {
        let_next(alloc, header, tables, run, done, *nav)?;
    }
    Ok(())
}
