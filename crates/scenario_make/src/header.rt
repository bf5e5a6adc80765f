//! The settings of each scenario that is made.
ghost use Rattle.std.specs.Prelude.{◌≡◌, ◌++◌, ◌∷◌, [], IfOk, OnOk};
ghost use Rattle.scenario_make.specs.Scenarios.{made_header};

use crate::error::MakeError;
use crate::words::address;
use address::{OutOfMemory, Text};
use log_model::{Header, Page, Pages, Site, Sites};
use std::alloc::Global;
use tab_ids::ProcId;

fn add_site(
    alloc: Global,
    sites: &mut Sites,
    origin: &[u8],
    proc: ProcId,
) -> Result<(), OutOfMemory>
    ensures { OnOk result (sites.new ≡ sites.old ++ record { origin = origin.now; proc = proc } ∷ []) }
{
    let origin = Text::of(alloc, origin)?;
    sites.push(Site { origin, proc })?;
    Ok(())
}

/// The sites of hosts `b` and `c`; host `a` lives in the first process.
fn made_sites(alloc: Global) -> Result<Sites, OutOfMemory>
    ensures { IfOk result (λ sites. sites ≡ made_header.sites) }
{
    let mut sites = Sites::new(alloc);
    add_site(alloc, &mut sites, b"http://b.test", ProcId(2))?;
    add_site(alloc, &mut sites, b"http://c.test", ProcId(3))?;
    Ok(sites)
}

/// The page with a handler.
fn made_pages(alloc: Global) -> Result<Pages, OutOfMemory>
    ensures { IfOk result (λ pages. pages ≡ made_header.pages) }
{
    let base = Text::of(alloc, b"http://b.test/p1")?;
    let mut pages = Pages::new(alloc);
    pages.push(Page { base, slot: 0 })?;
    Ok(pages)
}

/// The settings.
pub fn header(alloc: Global) -> Result<Header, MakeError>
    ensures { IfOk result (λ header. header ≡ made_header) }
{
    let sites = made_sites(alloc)?;
    let pages = made_pages(alloc)?;
    let first = address(alloc, b"http://a.test/")?;
    Ok(Header {
        keep: 2,
        sites,
        pages,
        first,
    })
}
