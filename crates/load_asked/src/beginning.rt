//! A load begins and asks, and is among those in their unload checks.
ghost use Rattle.load_asked.specs.Beginning.{HasAsked, IsToBegin, asking_load, entered_tables};
ghost use Rattle.log_model.specs.declared.request.Request.TheVariants as requests;
ghost use Rattle.seen_laws.specs.InEvent.{log_of};
ghost use Rattle.slot_facts.specs.Slots.{AreSlots};
ghost use Rattle.std.specs.Prelude.{◌≡◌, ◌<◌, ◌+◌, ◌^◌, [], OnOk};
ghost use Rattle.tab_loads.specs.Asking.{InLoad};

use address::{Address, OutOfMemory};
use indexmap::IndexMap;
use leave_questions::leave_questions;
use load_doors::replaces;
use load_table::{Load, Phase};
use log_model::{Docs, LeaveCause, Mode, Out};
use std::alloc::Global;
use tab_asks::begin_asking;
use tab_doors::Tables;
use tab_ids::{DocId, NavId, ReqId, StateId};

/// The load is among those in their checks, and has the next document state.
fn enter_check(
    tables: &mut Tables,
    req: ReqId,
    nav: NavId,
    address: Address,
    replace: bool,
) -> Result<(), OutOfMemory>
    requires room { tables.old.states + 1 < 2 ^ 32 }
    ensures tables { OnOk result (tables.new ≡ entered_tables tables.old (asking_load req nav address replace (tables.old.states + 1))) }
{
    let state = StateId(tables.states + 1);
    tables.asking.begin(Load {
        req,
        nav,
        address,
        replace,
        state,
        phase: Phase::Asking,
    })?;
    tables.states += 1;
    Ok(())
}

/// The load, which is to ask, begins: its row, then an order to each document that it leaves and that has an unload handler, by `slots`, in the order of the walk. The table of checks is told of the run of discarded documents that lasted before (`run`), and the load's check begins in it; the load is among those in their checks, with the next document state. HTML Standard, "navigate" and "checking if unloading is canceled".
pub fn ask_for_load(
    alloc: Global,
    tables: &mut Tables,
    slots: &IndexMap<DocId, u8>,
    run: &mut Docs,
    out: &mut Out,
    req: ReqId,
    nav: NavId,
    mode: Mode,
    address: &Address,
) -> Result<(), OutOfMemory>
    ghost l: { InLoad }
    requires first { out.old ≡ [] }
    requires run { run.old ≡ l.event.ran }
    requires req { l.req ≡ req }
    requires nav { l.nav ≡ nav }
    requires mode { l.mode ≡ mode }
    requires address { l.address ≡ address.now }
    requires due { IsToBegin l tables.old }
    requires slots { AreSlots (log_of l.event []) slots.now.entries }
    ensures asked { OnOk result (HasAsked l tables.old tables.new out.new) }
    ensures none { OnOk result (run.new ≡ []) }
{
    let replace = replaces(tables, out, nav, mode, address);
    let questions = leave_questions(alloc, &tables.tree, slots, nav, LeaveCause::Load)?;
    begin_asking(alloc, tables, run, out, req, None, questions.as_slice())?;
    let own = address.copy()?;
    enter_check(tables, req, nav, own, replace)?;
    Ok(())
}
