//! The process in which a document is made.
ghost use Rattle.std.specs.Prelude.{◌≡◌, IsSome, Some, bytes_eq, find};
ghost use Rattle.std.specs.Option.{option_copied};
ghost use Rattle.log_model.specs.Suits.{process_of_origin};
ghost use Rattle.tab_moves.specs.Making.{home_in, parent_proc};

use address::Address;
use log_model::{Header, Site};
use nav_tree::NavStatus;
use tab_doors::Tables;
use tab_ids::{NavId, ProcId};

/// The site of an origin.
fn site_of<'a>(sites: &'a [Site], origin: &[u8]) -> Option<&'a Site>
    ensures { option_copied result ≡ find (λ site. bytes_eq site.origin origin.now) sites.now }
{
    sites.iter().find(|site| site.origin.bytes() == origin)
}

/// The process of an origin: that of its site.
fn process_of_origin(header: &Header, origin: &[u8]) -> ProcId
    ensures { result ≡ process_of_origin header.now origin.now }
{
    match site_of(header.sites.as_slice(), origin) {
        Some(site) => site.proc,
        None => ProcId(1),
    }
}

/// The process of the document that the navigable above is awake on.
fn parent_proc(tables: &Tables, nav: NavId) -> Option<ProcId>
    ensures { result ≡ parent_proc tables.now nav }
{
    let parent = tables.tree.nav(nav)?.parent?;
    match tables.tree.nav(parent)?.status {
        NavStatus::Awake(doc) => tables.proc_of(doc),
        NavStatus::Lost => None,
        NavStatus::Asleep => None,
    }
}

/// The process of a document at an address: that of its origin's site; of an about:blank document that of its parent's document, at the top the first.
fn home_of(header: &Header, tables: &Tables, nav: NavId, address: &Address) -> Option<ProcId>
    ensures { result ≡ home_in header.now tables.now nav address.now }
{
    if address.base() == b"about:blank".as_slice() {
        if nav.0 == 0 {
            Some(ProcId(1))
        } else {
            parent_proc(tables, nav)
        }
    } else {
        Some(process_of_origin(header, address.origin()))
    }
}

/// The process in which a document of the navigable at an address is made, where there is one: that of the address's origin, by the header; of an about:blank document that of the parent's document, at the top the first.
pub fn home_there(header: &Header, tables: &Tables, nav: NavId, address: &Address) -> ProcId
    requires { IsSome (home_in header.now tables.now nav address.now) }
    ensures { home_in header.now tables.now nav address.now ≡ Some result }
{
    match home_of(header, tables, nav, address) {
        Some(proc) => proc,
        None => unreachable!(),
    }
}
