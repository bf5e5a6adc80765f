//! `Header`, the settings under which a tab is opened.
ghost use Rattle.std.specs.Prelude.{◌≡◌, IfOk};

use crate::items::Items;
use address::{Address, OutOfMemory, Text};
use std::alloc::Global;
use tab_ids::ProcId;

/// Documents of this origin live in this process.
#[derive(Drop)]
pub struct Site {
    pub origin: Text,
    pub proc: ProcId,
}

impl Site {
    /// An equal site.
    pub fn copy(&self) -> Result<Site, OutOfMemory>
        ensures { IfOk result (λ site. site ≡ self.now) }
    {
        let origin = self.origin.copy()?;
        Ok(Site {
            origin,
            proc: self.proc,
        })
    }
}

/// A document populated at this address, its fragment aside, has the unload handler of this slot.
#[derive(Drop)]
pub struct Page {
    pub base: Text,
    pub slot: u8,
}

impl Page {
    /// An equal page.
    pub fn copy(&self) -> Result<Page, OutOfMemory>
        ensures { IfOk result (λ page. page ≡ self.now) }
    {
        let base = self.base.copy()?;
        Ok(Page {
            base,
            slot: self.slot,
        })
    }
}

/// A list of sites.
pub type Sites = Items<Site>;

/// A list of pages.
pub type Pages = Items<Page>;

/// How many documents are kept for traversal, which process each site has, which page has which handler, and the address of the first entry.
#[derive(Drop)]
pub struct Header {
    pub keep: u32,
    pub sites: Sites,
    pub pages: Pages,
    pub first: Address,
}

impl Header {
    /// An equal header.
    pub fn copy(&self, alloc: Global) -> Result<Header, OutOfMemory>
        ensures { IfOk result (λ header. header ≡ self.now) }
    {
        let sites = copy_sites(alloc, &self.sites)?;
        let pages = copy_pages(alloc, &self.pages)?;
        let first = self.first.copy()?;
        Ok(Header {
            keep: self.keep,
            sites,
            pages,
            first,
        })
    }
}

fn copy_sites(alloc: Global, sites: &Sites) -> Result<Sites, OutOfMemory>
    ensures { IfOk result (λ copied. copied ≡ sites.now) }
{
    let mut copied = Items::new(alloc);
    for site in sites.as_slice() {
        let site = site.copy()?;
        copied.push(site)?;
    }
    Ok(copied)
}

fn copy_pages(alloc: Global, pages: &Pages) -> Result<Pages, OutOfMemory>
    ensures { IfOk result (λ copied. copied ≡ pages.now) }
{
    let mut copied = Items::new(alloc);
    for page in pages.as_slice() {
        let page = page.copy()?;
        copied.push(page)?;
    }
    Ok(copied)
}
