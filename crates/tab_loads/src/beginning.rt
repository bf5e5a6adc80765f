//! A load begins, in the place of its navigable's ongoing one.
ghost use Rattle.std.specs.Prelude.{◌≡◌, [], OnOk, None, option_map};
ghost use Rattle.load_table.specs.Loads.{ongoing_load};
ghost use Rattle.log_model.specs.Orders.{due_questions};
ghost use Rattle.log_model.specs.declared.request.Request.TheVariants as requests;
ghost use Rattle.seen_laws.specs.InEvent.{log_of};
ghost use Rattle.tab_loads.specs.Asking.{HasCome, InLoad, IsAsked};
ghost use Rattle.tab_loads.specs.Giving.{HasMadeWay};
ghost use Rattle.tab_loads.specs.Telling.{away_in, fragment_in};
ghost use Rattle.tab_loads.specs.declared.loaded.Loaded.TheVariants.{Begun};

use address::{Address, OutOfMemory};
use indexmap::IndexMap;
use load_doors::{begin_load, drop_load, make_load, replaces};
use load_table::LoadTable;
use log_model::{Header, Mode, Out, Why};
use tab_doors::Tables;
use tab_ids::{NavId, ReqId, StateId};
use tab_moves::home_there;
use tab_one_pass::note_loads;

/// The request of a navigable's ongoing load.
fn load_of(loads: &LoadTable, nav: NavId) -> Option<ReqId>
    ensures { result ≡ option_map (λ load. load.req) (ongoing_load nav loads.now) }
{
    match loads.of(nav) {
        Some(load) => Some(load.req),
        None => None,
    }
}

/// The navigable's ongoing load, if it has one, is dropped for the one that is to begin, which is noted for the documents of loads before. HTML Standard, "Navigables" ("ongoing navigation").
fn give_way(
    tables: &mut Tables,
    blame: &mut IndexMap<StateId, ReqId>,
    out: &mut Out,
    req: ReqId,
    nav: NavId,
) -> Result<(), OutOfMemory>
    ghost l: { InLoad }
    requires asked { IsAsked l tables.old }
    requires noted { l.noted ≡ blame.old.entries }
    requires first { out.old ≡ [] }
    requires req { l.req ≡ req }
    requires nav { l.nav ≡ nav }
    ensures way { OnOk result (HasMadeWay l.event req nav tables.old tables.new out.new blame.old.entries blame.new.entries) }
{
    match load_of(&tables.loads, nav) {
        Some(old) => {
            note_loads(tables, blame, Some(req))?;
            drop_load(tables, out, nav, old, req)?;
        }
        None => {}
    }
    Ok(())
}

/// The load, which asks nobody, begins, the navigable's ongoing one gives way to it, and its document is to be made, in the process of its site. HTML Standard, "navigate" and "attempt to populate the history entry's document".
pub(crate) fn begin(
    header: &Header,
    tables: &mut Tables,
    blame: &mut IndexMap<StateId, ReqId>,
    out: &mut Out,
    req: ReqId,
    nav: NavId,
    mode: Mode,
    address: &Address,
) -> Result<(), OutOfMemory>
    ghost l: { InLoad }
    requires header { header.now ≡ l.event.header }
    requires asked { IsAsked l tables.old }
    requires noted { l.noted ≡ blame.old.entries }
    requires first { out.old ≡ [] }
    requires req { l.req ≡ req }
    requires nav { l.nav ≡ nav }
    requires mode { l.mode ≡ mode }
    requires address { l.address ≡ address.now }
    requires placed { away_in tables.old l.nav ≡ None }
    requires anew { fragment_in tables.old l.nav l.address ≡ None }
    requires unasked { due_questions (log_of l.event []) (requests.Load l.nav l.mode l.address) None ≡ [] }
    ensures come { OnOk result (HasCome l tables.old tables.new out.new blame.new.entries Begun) }
{
    give_way(tables, blame, out, req, nav)?;
    let replace = replaces(tables, out, nav, mode, address);
    let own = address.copy()?;
    begin_load(tables, out, req, nav, replace, own)?;
    let state = StateId(tables.states);
    let proc = home_there(header, tables, nav, address);
    let target = address.copy()?;
    make_load(tables, out, nav, state, proc, target, Why::Req(req))?;
    Ok(())
}
