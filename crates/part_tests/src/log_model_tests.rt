//! Copies with ample memory.
use address::{Address, Text};
use log_model::{Actor, Change, Header, Items, LogRow, Page, Pages, RowKind, Site, Sites};
use std::alloc::Global;
use std::test::Fail;
use tab_ids::{EntryId, NavId, ProcId, ReqId, StateId};

fn one_site(alloc: Global) -> Result<Sites, Fail> {
    let origin = Text::of(alloc, b"memo")?;
    let mut sites = Items::new(alloc);
    let site = Site {
        origin,
        proc: ProcId(2),
    };
    sites.push(site)?;
    Ok(sites)
}

fn one_page(alloc: Global) -> Result<Pages, Fail> {
    let base = Text::of(alloc, b"memo")?;
    let mut pages = Items::new(alloc);
    pages.push(Page { base, slot: 3 })?;
    Ok(pages)
}

fn header(alloc: Global) -> Result<Header, Fail> {
    let first = Address::read(alloc, b"http://a.test/1")?;
    let sites = one_site(alloc)?;
    let pages = one_page(alloc)?;
    Ok(Header {
        keep: 4,
        sites,
        pages,
        first,
    })
}

fn copy_of_header(alloc: Global) -> Result<Header, Fail> {
    let header = header(alloc)?;
    Ok(header.copy(alloc)?)
}

#[test]
fn a_header_is_copied_with_its_lists(rt: HostRuntime) -> Result<(), Fail> {
    let copied = copy_of_header(rt.alloc())?;
    assert_eq!(rt; copied.keep, 4);
    assert_eq!(rt; copied.sites.len(), 1);
    assert_eq!(rt; copied.pages.len(), 1);
    assert_eq!(rt; copied.first.text(), b"http://a.test/1".as_slice());
    Ok(())
}

fn change(alloc: Global) -> Result<Change, Fail> {
    let address = Address::read(alloc, b"http://a.test/1")?;
    let memo = Text::of(alloc, b"memo")?;
    Ok(Change::Push {
        nav: NavId(0),
        entry: EntryId { maker: 1, nr: 1 },
        state: StateId(1),
        address,
        memo: Some(memo),
    })
}

fn row(change: Change) -> LogRow {
    LogRow {
        event: 7,
        actor: Actor::Coord,
        row: RowKind::Applied {
            req: ReqId(1),
            change,
        },
    }
}

/// The event of a copied row.
fn event_of_copy(alloc: Global) -> Result<u32, Fail> {
    let row = row(change(alloc)?);
    let copied = row.copy()?;
    Ok(copied.event)
}

#[test]
fn a_row_of_the_log_is_copied_with_its_change(rt: HostRuntime) -> Result<(), Fail> {
    assert_eq!(rt; event_of_copy(rt.alloc())?, 7);
    Ok(())
}
