//! A load that has passed its unload check is ongoing, and its document is to be made.
ghost use Rattle.std.specs.Prelude.{◌≡◌, [], OnOk};
ghost use Rattle.load_passed.specs.Passing.{InLoadPass, IsPastLoad, IsToMake, load_tables, passed_load};
ghost use Rattle.load_table.specs.Loads.{KeepsOthers, cancelled};
ghost use Rattle.load_table.specs.declared.phase.Phase.TheVariants as phases;
ghost use Rattle.unload_check.specs.Checks.{ended};

use address::{Address, OutOfMemory};
use load_doors::make_load;
use load_table::{Load, Phase};
use log_model::{Header, Out, Why};
use tab_doors::Tables;
use tab_ids::{NavId, ReqId, StateId};
use tab_moves::home_there;

/// The load's check ends in the table, and it is its navigable's ongoing load, which asks for no document yet, and none of those in their checks.
fn begin_passed(tables: &mut Tables, load: Load) -> Result<(), OutOfMemory>
    ensures tables { OnOk result (tables.new ≡ load_tables tables.old load (ended load.req tables.old.checks)) }
{
    let (req, nav) = (load.req, load.nav);
    tables.loads.begin(load)?;
    tables.asking.cancel(nav);
    tables.checks.end(req);
    Ok(())
}

/// The load, which asked and was in its unload check, has passed it: that ends in the table, the load is its navigable's ongoing one, with the document state that it has, and its document is to be made, in the process of its site. HTML Standard, "checking if unloading is canceled", "navigate" and "attempt to populate the history entry's document".
pub fn pass_load(
    header: &Header,
    tables: &mut Tables,
    out: &mut Out,
    req: ReqId,
    nav: NavId,
    address: &Address,
    replace: bool,
    state: StateId,
) -> Result<(), OutOfMemory>
    ghost l: { InLoadPass }
    requires header { header.now ≡ l.event.header }
    requires first { out.old ≡ [] }
    requires load { passed_load l ≡ record { req = req; nav = nav; address = address.now; replace = replace; state = state; phase = phases.Asking } }
    requires passes { IsToMake l (load_tables tables.old (passed_load l) (ended l.req tables.old.checks)) }
    ensures past { OnOk result (IsPastLoad l tables.new out.new) }
    ensures checks { OnOk result (tables.new.checks ≡ ended req tables.old.checks) }
    ensures asking { OnOk result (tables.new.asking ≡ cancelled nav tables.old.asking) }
    ensures others { OnOk result (KeepsOthers nav tables.old.loads tables.new.loads) }
    ensures running { OnOk result (tables.new.running ≡ tables.old.running) }
    ensures goal { OnOk result (tables.new.goal ≡ tables.old.goal) }
{
    let own = address.copy()?;
    let load = Load {
        req,
        nav,
        address: own,
        replace,
        state,
        phase: Phase::Asking,
    };
    begin_passed(tables, load)?;
    let proc = home_there(header, tables, nav, address);
    let target = address.copy()?;
    make_load(tables, out, nav, state, proc, target, Why::Req(req))?;
    Ok(())
}
