//! The lines of a printed scenario, each added to what is written so far.
ghost use Rattle.std.specs.Prelude.{◌≡◌, ◌++◌, OnOk, codes, flat_map};
ghost use Rattle.scenario_text.specs.Printed as spec;

use crate::line::ScenarioLine;
use crate::words::{
    put, put_delta, put_end, put_memo, put_mode, put_number, put_reference, put_stay, put_text,
};
use address::{OutOfMemory, Text};
use log_model::{Action, Header, Page, Request, Site};
use std::alloc::Global;
use tab_ids::NavId;

/// NAV MEMO, and a REF where there is one.
fn put_entry(
    alloc: Global,
    out: &mut Vec<u8>,
    nav: NavId,
    memo: &Option<Text>,
    reference: &Option<Text>,
) -> Result<(), OutOfMemory>
    ensures { OnOk result (out.new.items ≡ out.old.items ++ (spec.number_word nav.0 ++ spec.memo_word memo.now ++ spec.reference_word reference.now)) }
{
    put_number(alloc, out, nav.0)?;
    put_memo(out, memo)?;
    put_reference(out, reference)?;
    Ok(())
}

fn put_action(
    alloc: Global,
    out: &mut Vec<u8>,
    nav: NavId,
    action: &Action,
) -> Result<(), OutOfMemory>
    ensures { OnOk result (out.new.items ≡ out.old.items ++ spec.action_words nav.0 action.now) }
{
    match action {
        Action::Push { memo, reference } => {
            put(out, b"push")?;
            put_entry(alloc, out, nav, memo, reference)?;
            Ok(())
        }
        Action::Replace { memo, reference } => {
            put(out, b"replace")?;
            put_entry(alloc, out, nav, memo, reference)?;
            Ok(())
        }
        Action::Fragment { text } => {
            put(out, b"fragment")?;
            put_number(alloc, out, nav.0)?;
            put_text(out, text.bytes())?;
            Ok(())
        }
        Action::AddFrame { nav: child } => {
            put(out, b"frame")?;
            put_number(alloc, out, nav.0)?;
            put_number(alloc, out, child.0)?;
            Ok(())
        }
        Action::RemoveFrame { nav: child } => {
            put(out, b"remove")?;
            put_number(alloc, out, nav.0)?;
            put_number(alloc, out, child.0)?;
            Ok(())
        }
        Action::Go { delta } => {
            put(out, b"docgo")?;
            put_number(alloc, out, nav.0)?;
            put_delta(alloc, out, *delta)?;
            Ok(())
        }
        Action::Edit => {
            put(out, b"edit")?;
            put_number(alloc, out, nav.0)?;
            Ok(())
        }
    }
}

fn put_request(alloc: Global, out: &mut Vec<u8>, request: &Request) -> Result<(), OutOfMemory>
    ensures { OnOk result (out.new.items ≡ out.old.items ++ spec.request_words request.now) }
{
    match request {
        Request::Load { nav, mode, address } => {
            put(out, b"load")?;
            put_number(alloc, out, nav.0)?;
            put_mode(out, *mode)?;
            put_text(out, address.text())?;
            Ok(())
        }
        Request::Go { delta } => {
            put(out, b"go")?;
            put_delta(alloc, out, *delta)?;
            Ok(())
        }
        Request::Reload { nav } => {
            put(out, b"reload")?;
            put_number(alloc, out, nav.0)?;
            Ok(())
        }
        Request::Poke { nav, action } => {
            put_action(alloc, out, *nav, action)?;
            Ok(())
        }
    }
}

fn put_words(alloc: Global, out: &mut Vec<u8>, line: &ScenarioLine) -> Result<(), OutOfMemory>
    ensures { OnOk result (out.new.items ≡ out.old.items ++ spec.line_words line.now) }
{
    match line {
        ScenarioLine::Ask(request) => {
            put_request(alloc, out, request)?;
            Ok(())
        }
        ScenarioLine::Answer { req, stay } => {
            put(out, b"answer")?;
            put_number(alloc, out, req.0)?;
            put_stay(out, *stay)?;
            Ok(())
        }
        ScenarioLine::Evict => {
            put(out, b"evict")?;
            Ok(())
        }
        ScenarioLine::Kill { proc } => {
            put(out, b"kill")?;
            put_number(alloc, out, proc.0)?;
            Ok(())
        }
        ScenarioLine::Act { proc } => {
            put(out, b"act")?;
            put_number(alloc, out, proc.0)?;
            Ok(())
        }
        ScenarioLine::Begin { proc } => {
            put(out, b"begin")?;
            put_number(alloc, out, proc.0)?;
            Ok(())
        }
        ScenarioLine::Finish { proc } => {
            put(out, b"finish")?;
            put_number(alloc, out, proc.0)?;
            Ok(())
        }
        ScenarioLine::Deliver { proc } => {
            put(out, b"deliver")?;
            put_number(alloc, out, proc.0)?;
            Ok(())
        }
        ScenarioLine::Settle => {
            put(out, b"settle")?;
            Ok(())
        }
    }
}

fn put_line(alloc: Global, out: &mut Vec<u8>, line: &ScenarioLine) -> Result<(), OutOfMemory>
    ensures { OnOk result (out.new.items ≡ out.old.items ++ spec.line_text line.now) }
{
    put_words(alloc, out, line)?;
    put_end(out)?;
    Ok(())
}

fn put_keep(alloc: Global, out: &mut Vec<u8>, keep: u32) -> Result<(), OutOfMemory>
    ensures { OnOk result (out.new.items ≡ out.old.items ++ spec.keep_line keep) }
{
    put(out, b"keep")?;
    put_number(alloc, out, keep)?;
    put_end(out)?;
    Ok(())
}

fn put_site(alloc: Global, out: &mut Vec<u8>, site: &Site) -> Result<(), OutOfMemory>
    ensures { OnOk result (out.new.items ≡ out.old.items ++ spec.site_line site.now) }
{
    put(out, b"site")?;
    put_text(out, site.origin.bytes())?;
    put_number(alloc, out, site.proc.0)?;
    put_end(out)?;
    Ok(())
}

fn put_page(alloc: Global, out: &mut Vec<u8>, page: &Page) -> Result<(), OutOfMemory>
    ensures { OnOk result (out.new.items ≡ out.old.items ++ spec.page_line page.now) }
{
    put(out, b"page")?;
    put_text(out, page.base.bytes())?;
    put_number(alloc, out, u32::from(page.slot))?;
    put_end(out)?;
    Ok(())
}

fn put_sites(alloc: Global, out: &mut Vec<u8>, sites: &[Site]) -> Result<(), OutOfMemory>
    ensures { OnOk result (out.new.items ≡ out.old.items ++ flat_map spec.site_line sites.now) }
{
    for site in sites {
        put_site(alloc, out, site)?;
    }
    Ok(())
}

fn put_pages(alloc: Global, out: &mut Vec<u8>, pages: &[Page]) -> Result<(), OutOfMemory>
    ensures { OnOk result (out.new.items ≡ out.old.items ++ flat_map spec.page_line pages.now) }
{
    for page in pages {
        put_page(alloc, out, page)?;
    }
    Ok(())
}

fn put_open(out: &mut Vec<u8>, first: &[u8]) -> Result<(), OutOfMemory>
    ensures { OnOk result (out.new.items ≡ out.old.items ++ spec.open_text first.now) }
{
    put(out, b"open")?;
    put_text(out, first)?;
    put_end(out)?;
    Ok(())
}

/// The version, and a line for each setting.
pub fn put_header(alloc: Global, out: &mut Vec<u8>, header: &Header) -> Result<(), OutOfMemory>
    ensures { OnOk result (out.new.items ≡ out.old.items ++ spec.header_text header.now) }
{
    put(out, b"session 1\n")?;
    put_keep(alloc, out, header.keep)?;
    put_sites(alloc, out, header.sites.as_slice())?;
    put_pages(alloc, out, header.pages.as_slice())?;
    put_open(out, header.first.text())?;
    Ok(())
}

/// A line for each step.
pub fn put_lines(
    alloc: Global,
    out: &mut Vec<u8>,
    lines: &[ScenarioLine],
) -> Result<(), OutOfMemory>
    ensures { OnOk result (out.new.items ≡ out.old.items ++ flat_map spec.line_text lines.now) }
{
    for line in lines {
        put_line(alloc, out, line)?;
    }
    Ok(())
}
