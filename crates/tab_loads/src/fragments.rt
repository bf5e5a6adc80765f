//! A load is sent to the document of its navigable, which goes to a fragment.
ghost use Rattle.std.specs.Prelude.{◌≡◌, [], OnOk, None, Some};
ghost use Rattle.tab_loads.specs.Asking.{HasCome, InLoad, IsAsked};
ghost use Rattle.tab_loads.specs.Telling.{away_in, fragment_in};
ghost use Rattle.tab_loads.specs.declared.loaded.Loaded.TheVariants.{ToFragment};

use address::{Address, OutOfMemory};
use load_doors::send_fragment;
use log_model::{Mode, Out};
use tab_doors::Tables;
use tab_ids::{DocId, ReqId};

/// The document that the navigable is awake on is sent to the fragment of the address. HTML Standard, "navigate to a fragment".
pub(crate) fn to_fragment(
    tables: &mut Tables,
    out: &mut Out,
    req: ReqId,
    doc: DocId,
    mode: Mode,
    address: &Address,
) -> Result<(), OutOfMemory>
    ghost l: { InLoad }
    requires asked { IsAsked l tables.old }
    requires first { out.old ≡ [] }
    requires req { l.req ≡ req }
    requires mode { l.mode ≡ mode }
    requires address { l.address ≡ address.now }
    requires placed { away_in tables.old l.nav ≡ None }
    requires doc { fragment_in tables.old l.nav l.address ≡ Some doc }
    ensures come { OnOk result (HasCome l tables.old tables.new out.new l.noted ToFragment) }
{
    let address = address.copy()?;
    send_fragment(tables, out, doc, req, mode, address)?;
    Ok(())
}
