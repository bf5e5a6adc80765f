//! `Runners`, which a contract sees as the navigable of each document that is there and, by navigable, the documents that run and their epochs.
ghost use Rattle.std.specs.Prelude.{◌≡◌, true, [], length, None, Some, OnErr, OnOk};
ghost use Rattle.running_table.specs.Runners.{AreOnce, Becomes, IsNewest, IsNewestOf, Keeps, Leaves, Places, RunOn, Runs, Shows, Stays, Stops, nav_in, none_there, runners_in};
ghost use Rattle.running_table.specs.Making.{IsTold};
ghost use Rattle.running_table.specs.Telling.{GoesWith};
ghost use Rattle.log_model.specs.Formed.{running_documents};
ghost use Rattle.log_model.specs.Seen.{Seen};

use crate::nav_runners::NavRunners;
use address::OutOfMemory;
use indexmap::IndexMap;
use log_model::{Job, Task};
use std::alloc::Global;
use std::marker::Model;
use tab_ids::{DocId, Epoch, NavId};

/// Which documents are there, and which of them run, by navigable.
#[derive(Drop)]
pub struct Runners {
    alloc: Global,
    navs: IndexMap<DocId, NavId>,
    running: IndexMap<NavId, NavRunners>,
}

impl Model for Runners {
    ghost use Rattle.running_table.specs.Runners.{RunnersState};

    ghost Value = { RunnersState };

    ghost view = { λ r. record { navs = r.navs.entries; running = r.running.entries } };
}

impl Runners {
    /// The table where no document is there. It takes no memory.
    pub fn new(alloc: Global) -> Runners
        ensures { result ≡ none_there }
    {
        Runners {
            alloc,
            navs: IndexMap::new(alloc),
            running: IndexMap::new(alloc),
        }
    }

    /// A document is there from now on, in this navigable. Who runs stays the same.
    pub fn place(&mut self, doc: DocId, nav: NavId) -> Result<(), OutOfMemory>
        ensures ok { OnOk result (Places doc nav self.old self.new) }
        ensures err { OnErr result (Keeps self.old self.new) }
    {
        place_in(&mut self.navs, doc, nav)
    }

    /// A document runs in its navigable from now on, under this epoch alone. Where it isn't there, nothing changes.
    pub fn show(&mut self, doc: DocId, epoch: Epoch) -> Result<(), OutOfMemory>
        ensures ok { OnOk result (Shows doc epoch self.old self.new) }
        ensures err { OnErr result (Keeps self.old self.new) }
    {
        match nav_of(&self.navs, doc) {
            Some(nav) => show_in(&mut self.running, self.alloc, nav, doc, epoch),
            None => Ok(()),
        }
    }

    /// A document runs no more. It is still there.
    pub fn stop(&mut self, doc: DocId)
        ensures { Stops doc self.old self.new }
    {
        if let Some(nav) = nav_of(&self.navs, doc) {
            stop_in(&mut self.running, nav, doc);
        }
    }

    /// A document is gone, and runs no more.
    pub fn remove(&mut self, doc: DocId)
        ensures { Leaves doc self.old self.new }
    {
        if let Some(nav) = remove_in(&mut self.navs, doc) {
            stop_in(&mut self.running, nav, doc);
        }
    }

    /// Goes with an order that its document has done: one that makes the document places it, one that activates it shows it, one that freezes it stops it, and one that discards it removes it. Another changes nothing.
    pub fn do_job(&mut self, job: &Job) -> Result<(), OutOfMemory>
        ensures ok { OnOk result (GoesWith job.now.doc job.now.task self.old self.new) }
        ensures err { OnErr result (Keeps self.old self.new) }
    {
        match &job.task {
            Task::Populate { nav, .. } => self.place(job.doc, *nav),
            Task::Activate { epoch, .. } => self.show(job.doc, *epoch),
            Task::Freeze => {
                self.stop(job.doc);
                Ok(())
            }
            Task::Discard => {
                self.remove(job.doc);
                Ok(())
            }
            Task::Update { .. } | Task::Ask { .. } | Task::DoFragment { .. } => Ok(()),
        }
    }

    /// The document that runs in a navigable under the greatest epoch: of several the one of the lowest number.
    pub fn newest(&self, nav: NavId) -> Option<DocId>
        ensures { IsNewest self.now nav result }
    {
        newest_in(&self.running, nav)
    }

    /// How many documents run in a navigable.
    pub fn count(&self, nav: NavId) -> usize
        ensures { (s : Seen) → IsTold s self.now → result ≡ length (running_documents s nav) }
    {
        count_in(&self.running, nav)
    }
}

fn count_in(running: &IndexMap<NavId, NavRunners>, nav: NavId) -> usize
    ensures count { result ≡ length (runners_in running.now.entries nav) }
    ensures once { AreOnce (runners_in running.now.entries nav) }
{
    match running.get(&nav) {
        Some(runners) => runners.count(),
        None => 0,
    }
}

fn place_in(navs: &mut IndexMap<DocId, NavId>, doc: DocId, nav: NavId) -> Result<(), OutOfMemory>
    ensures ok { OnOk result (Becomes doc (Some nav) navs.old.entries navs.new.entries) }
    ensures err { OnErr result (Stays navs.old.entries navs.new.entries) }
{
    navs.insert(doc, nav)?;
    Ok(())
}

/// The navigable of a document.
fn nav_of(navs: &IndexMap<DocId, NavId>, doc: DocId) -> Option<NavId>
    ensures { result ≡ nav_in navs.now.entries doc }
{
    navs.get(&doc).copied()
}

/// A document is gone; its navigable.
fn remove_in(navs: &mut IndexMap<DocId, NavId>, doc: DocId) -> Option<NavId>
    ensures nav { result ≡ nav_in navs.old.entries doc }
    ensures there { Becomes doc None navs.old.entries navs.new.entries }
{
    navs.swap_remove(&doc)
}

fn show_in(
    running: &mut IndexMap<NavId, NavRunners>,
    alloc: Global,
    nav: NavId,
    doc: DocId,
    epoch: Epoch,
) -> Result<(), OutOfMemory>
    ensures ok { OnOk result (Runs (Some nav) doc (Some epoch) running.old.entries running.new.entries) }
    ensures err { OnErr result (RunOn running.old.entries running.new.entries) }
{
    match running.get_mut(&nav) {
        Some(runners) => runners.put(doc, epoch),
        None => begin_in(running, alloc, nav, doc, epoch),
    }
}

/// A document is the only one that runs in its navigable.
fn begin_in(
    running: &mut IndexMap<NavId, NavRunners>,
    alloc: Global,
    nav: NavId,
    doc: DocId,
    epoch: Epoch,
) -> Result<(), OutOfMemory>
    requires { runners_in running.old.entries nav ≡ [] }
    ensures ok { OnOk result (Runs (Some nav) doc (Some epoch) running.old.entries running.new.entries) }
    ensures err { OnErr result (RunOn running.old.entries running.new.entries) }
{
    let runners = NavRunners::of(alloc, doc, epoch)?;
    running.insert(nav, runners)?;
    Ok(())
}

fn stop_in(running: &mut IndexMap<NavId, NavRunners>, nav: NavId, doc: DocId)
    ensures { Runs (Some nav) doc None running.old.entries running.new.entries }
{
    if take_in(running, nav, doc) {
        clear_in(running, nav);
    }
}

/// A document leaves those that run in a navigable; whether none is left there.
fn take_in(running: &mut IndexMap<NavId, NavRunners>, nav: NavId, doc: DocId) -> bool
    ensures left { Runs (Some nav) doc None running.old.entries running.new.entries }
    ensures last { result ≡ true → runners_in running.new.entries nav ≡ [] }
{
    match running.get_mut(&nav) {
        Some(runners) => {
            runners.remove(doc);
            runners.is_empty()
        }
        None => false,
    }
}

/// The empty list of a navigable goes.
fn clear_in(running: &mut IndexMap<NavId, NavRunners>, nav: NavId)
    requires { runners_in running.old.entries nav ≡ [] }
    ensures { RunOn running.old.entries running.new.entries }
{
    running.swap_remove(&nav);
}

fn newest_in(running: &IndexMap<NavId, NavRunners>, nav: NavId) -> Option<DocId>
    ensures { IsNewestOf (runners_in running.now.entries nav) result }
{
    match running.get(&nav) {
        Some(runners) => runners.newest(),
        None => None,
    }
}
