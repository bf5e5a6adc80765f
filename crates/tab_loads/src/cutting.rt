//! A load is dropped, since its navigable or one above it isn't shown or doesn't stand.
ghost use Rattle.std.specs.Prelude.{◌≡◌, [], OnOk, Some};
ghost use Rattle.tab_loads.specs.Asking.{HasCome, InLoad, IsAsked};
ghost use Rattle.tab_loads.specs.Telling.{away_in};
ghost use Rattle.tab_loads.specs.declared.loaded.Loaded.TheVariants.{CutOff};

use crate::ways::cut_there;
use address::OutOfMemory;
use load_doors::drop_new;
use log_model::Out;
use tab_doors::Tables;
use tab_ids::{NavId, ReqId};

/// The load is dropped, since `away` is the topmost on the way to its navigable that isn't shown at the aim, or doesn't stand there: for the request that added that one, if no document was ever shown in it, else for the one that moves it.
pub(crate) fn cut_off(
    tables: &mut Tables,
    out: &mut Out,
    req: ReqId,
    away: NavId,
) -> Result<(), OutOfMemory>
    ghost l: { InLoad }
    requires asked { IsAsked l tables.old }
    requires first { out.old ≡ [] }
    requires req { l.req ≡ req }
    requires away { away_in tables.old l.nav ≡ Some away }
    ensures come { OnOk result (HasCome l tables.old tables.new out.new l.noted CutOff) }
{
    let by = cut_there(tables, away);
    drop_new(tables, out, req, by)?;
    Ok(())
}
