//! The lines from the version to `open`.
ghost use Rattle.std.specs.Prelude.{◌≡◌, IfOk};
ghost use Rattle.scenario_text.specs.Words.{shown};
ghost use Rattle.scenario_text.specs.Heading as spec;
ghost use Rattle.scenario_text.specs.Gives.{GivesLine};
ghost use Rattle.scenario_text.specs.Written.{Each, IsWrittenOrigin, IsWrittenBase, IsWrittenSite, IsWrittenPage, AreWrittenSettings, IsWrittenPlace};

use crate::fault::LineError;
use crate::fields::{Fields, Split, words};
use crate::head_word::HeadWord;
use crate::line::Lines;
use crate::place::{Place, Settings, Stage};
use crate::readings::{address_of, base_of, keep_of, origin_of, proc_of, slot_of};
use crate::reason::Reason;
use address::Text;
use log_model::{Header, Page, Pages, Site, Sites};
use std::alloc::Global;
use tab_ids::ProcId;

/// The settings where no line gives others.
pub fn plain_settings(alloc: Global) -> Settings
    ensures plain { result ≡ spec.plain_settings }
    ensures written { AreWrittenSettings result }
{
    Settings {
        keep: 3,
        sites: Sites::new(alloc),
        pages: Pages::new(alloc),
    }
}

#[tactic(auto, unfolding(crate::specs::Heading::keep_line))]
fn keep_line(settings: Settings, fields: Fields<'_>) -> Result<Place, LineError>
    requires { AreWrittenSettings settings }
    ensures read { GivesLine result (spec.keep_line settings (shown fields.entry)) }
    ensures written { IfOk result (λ place. IsWrittenPlace place) }
{
    match fields {
        Fields::One(keep) => {
            let keep = keep_of(keep)?;
            let Settings { sites, pages, .. } = settings;
            let settings = Settings { keep, sites, pages };
            Ok(Place::Heading(Stage::Keep, settings))
        }
        Fields::Zero | Fields::Two(_, _) | Fields::Three(_, _, _) | Fields::More => {
            Err(LineError::Faulty(Reason::Count))
        }
    }
}

/// Whether a site of this origin has come.
fn has_site(sites: &[Site], origin: &[u8]) -> bool
    ensures { result ≡ spec.has_site sites.now origin.now }
{
    sites.iter().any(|site| site.origin.bytes() == origin)
}

/// The sites with one more, of another origin.
#[tactic(auto, using(crate::proofs::WrittenLaws::one_more))]
fn with_site(sites: Sites, origin: Text, proc: ProcId) -> Result<Sites, LineError>
    requires are { Each IsWrittenSite sites }
    requires is { IsWrittenOrigin origin }
    ensures read { GivesLine result (spec.with_site sites origin proc) }
    ensures written { IfOk result (λ sites. Each IsWrittenSite sites) }
{
    if has_site(sites.as_slice(), origin.bytes()) {
        return Err(LineError::Faulty(Reason::Twice));
    }
    let mut sites = sites;
    sites.push(Site { origin, proc })?;
    Ok(sites)
}

#[tactic(auto, unfolding(crate::specs::Heading::site_line))]
fn site_line(alloc: Global, settings: Settings, fields: Fields<'_>) -> Result<Place, LineError>
    requires { AreWrittenSettings settings }
    ensures read { GivesLine result (spec.site_line settings (shown fields.entry)) }
    ensures written { IfOk result (λ place. IsWrittenPlace place) }
{
    match fields {
        Fields::Two(origin, proc) => {
            let origin = origin_of(alloc, origin)?;
            let proc = proc_of(proc)?;
            let Settings { keep, sites, pages } = settings;
            let sites = with_site(sites, origin, proc)?;
            let settings = Settings { keep, sites, pages };
            Ok(Place::Heading(Stage::Site, settings))
        }
        Fields::Zero | Fields::One(_) | Fields::Three(_, _, _) | Fields::More => {
            Err(LineError::Faulty(Reason::Count))
        }
    }
}

/// Whether a page at this address has come.
fn has_page(pages: &[Page], base: &[u8]) -> bool
    ensures { result ≡ spec.has_page pages.now base.now }
{
    pages.iter().any(|page| page.base.bytes() == base)
}

/// The pages with one more, at another address.
#[tactic(auto, using(crate::proofs::WrittenLaws::one_more))]
fn with_page(pages: Pages, base: Text, slot: u8) -> Result<Pages, LineError>
    requires are { Each IsWrittenPage pages }
    requires is { IsWrittenBase base }
    ensures read { GivesLine result (spec.with_page pages base slot) }
    ensures written { IfOk result (λ pages. Each IsWrittenPage pages) }
{
    if has_page(pages.as_slice(), base.bytes()) {
        return Err(LineError::Faulty(Reason::Twice));
    }
    let mut pages = pages;
    pages.push(Page { base, slot })?;
    Ok(pages)
}

#[tactic(auto, unfolding(crate::specs::Heading::page_line))]
fn page_line(alloc: Global, settings: Settings, fields: Fields<'_>) -> Result<Place, LineError>
    requires { AreWrittenSettings settings }
    ensures read { GivesLine result (spec.page_line settings (shown fields.entry)) }
    ensures written { IfOk result (λ place. IsWrittenPlace place) }
{
    match fields {
        Fields::Two(address, slot) => {
            let base = base_of(alloc, address)?;
            let slot = slot_of(slot)?;
            let Settings { keep, sites, pages } = settings;
            let pages = with_page(pages, base, slot)?;
            let settings = Settings { keep, sites, pages };
            Ok(Place::Heading(Stage::Page, settings))
        }
        Fields::Zero | Fields::One(_) | Fields::Three(_, _, _) | Fields::More => {
            Err(LineError::Faulty(Reason::Count))
        }
    }
}

#[tactic(auto, using(crate::proofs::WrittenLaws::addresses), unfolding(crate::specs::Heading::open_line))]
fn open_line(alloc: Global, settings: Settings, fields: Fields<'_>) -> Result<Place, LineError>
    requires { AreWrittenSettings settings }
    ensures read { GivesLine result (spec.open_line settings (shown fields.entry)) }
    ensures written { IfOk result (λ place. IsWrittenPlace place) }
{
    match fields {
        Fields::One(address) => {
            let first = address_of(alloc, address)?;
            let Settings { keep, sites, pages } = settings;
            let header = Header {
                keep,
                sites,
                pages,
                first,
            };
            Ok(Place::Body(header, Lines::new(alloc)))
        }
        Fields::Zero | Fields::Two(_, _) | Fields::Three(_, _, _) | Fields::More => {
            Err(LineError::Faulty(Reason::Count))
        }
    }
}

/// The place after a line between the version and `open`.
#[tactic(auto, unfolding(crate::specs::Heading::heading_line))]
pub fn heading_line(
    alloc: Global,
    stage: Stage,
    settings: Settings,
    line: &[u8],
) -> Result<Place, LineError>
    requires { AreWrittenSettings settings }
    ensures read { GivesLine result (spec.heading_line stage settings line.now) }
    ensures written { IfOk result (λ place. IsWrittenPlace place) }
{
    let Split { word, fields, .. } = words(line);
    match HeadWord::due(stage, word) {
        Some(HeadWord::Keep) => keep_line(settings, fields),
        Some(HeadWord::Site) => site_line(alloc, settings, fields),
        Some(HeadWord::Page) => page_line(alloc, settings, fields),
        Some(HeadWord::Open) => open_line(alloc, settings, fields),
        None => Err(LineError::Faulty(Reason::Header)),
    }
}
