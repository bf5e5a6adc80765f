//! `State`, what an open world keeps beside its log, so that no step reads the log again.
ghost use Rattle.std.specs.Prelude.{◌≡◌, ℕ, List, [], IfOk};
ghost use Rattle.coord.specs.Standing.{StandsFor};
ghost use Rattle.log_model.specs.Views.{opening_view};
ghost use Rattle.proc_tables.specs.Views.{Becomes};
ghost use Rattle.running_table.specs.Making.{IsTold};
ghost use Rattle.tab_ids.specs.declared.ProcId.{ProcId};
ghost use Rattle.coord.specs.PassedOn.{opened_at};
ghost use Rattle.world.specs.Open.{bare, first_document};
ghost use Rattle.world.specs.Opening.{IsJustOpened};

use address::OutOfMemory;
use coord::Coordinator;
use doc_view::View;
use log_model::{Ending, Header, Pages};
use proc_tables::{Desks, Views};
use running_table::Runners;
use std::alloc::Global;
use tab_ids::{DocId, EntryId, Epoch, NavId, ProcId};

/// The number of the next event, the coordinator, the views of the documents, which of them run, the lists of the processes, and how each request ended.
#[derive(Drop)]
pub(crate) struct State {
    pub(crate) events: u32,
    pub(crate) coordinator: Coordinator,
    pub(crate) views: Views,
    pub(crate) runners: Runners,
    pub(crate) desks: Desks,
    pub(crate) endings: Vec<Option<Ending>>,
}

/// The settings but their pages: no document gets a handler yet.
fn without_pages(alloc: Global, header: &Header) -> Result<Header, OutOfMemory>
    ensures { IfOk result (λ settings. settings ≡ bare header.now) }
{
    let mut settings = header.copy(alloc)?;
    settings.pages = Pages::new(alloc);
    Ok(settings)
}

/// The coordinator of a tab that was just opened as the settings say.
fn first_coordinator(
    alloc: Global,
    header: &Header,
    proc: ProcId,
) -> Result<Coordinator, OutOfMemory>
    ensures stands { IfOk result (λ c. StandsFor (opened_at header.now.first proc) c) }
    ensures header { IfOk result (λ c. c.header ≡ bare header.now) }
{
    let settings = without_pages(alloc, header)?;
    Coordinator::fresh(alloc, &settings, proc)
}

/// The view of its document.
fn first_views(alloc: Global, header: &Header) -> Result<Views, OutOfMemory>
    ensures { IfOk result (λ views. Becomes first_document (opening_view first_document (record { maker = 0; nr = 1 }) header.now.first) [] views) }
{
    let doc = DocId(1);
    let shown = header.first.copy()?;
    let mut views = Views::new(alloc);
    views.add(doc, View::opening(doc, EntryId { maker: 0, nr: 1 }, shown))?;
    Ok(views)
}

/// That its document runs.
fn first_runners(alloc: Global) -> Result<Runners, OutOfMemory>
    ensures { (address : List ℕ) (proc : ProcId) → IfOk result (λ runners. IsTold (opened_at address proc) runners) }
{
    let doc = DocId(1);
    let mut runners = Runners::new(alloc);
    runners.place(doc, NavId(0))?;
    runners.show(doc, Epoch(1))?;
    Ok(runners)
}

/// What is kept of a tab that was just opened as the settings say, with its document in a process.
pub(crate) fn opened_at(alloc: Global, header: &Header, proc: ProcId) -> Result<State, OutOfMemory>
    ensures { IfOk result (λ t. IsJustOpened header.now proc t) }
{
    let views = first_views(alloc, header)?;
    let runners = first_runners(alloc)?;
    let coordinator = first_coordinator(alloc, header, proc)?;
    Ok(State {
        events: 1,
        coordinator,
        views,
        runners,
        desks: Desks::new(alloc),
        endings: Vec::new(alloc),
    })
}
