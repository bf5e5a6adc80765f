//! `Desks`, the lists of all processes, which a contract sees as pairs of a process and its desk.
ghost use Rattle.std.specs.Prelude.{◌≡◌, [], true, false, slice_get, None, Some, OnErr, OnOk, IsSome};
ghost use Rattle.std.specs.List.{list_all};
ghost use Rattle.std.specs.Map.{lookup, values_of};
ghost use Rattle.indexmap.specs.IndexMap.{set_value_at};
ghost use Rattle.log_model.specs.Seen.{Desk};
ghost use Rattle.tab_ids.specs.declared.ProcId.{ProcId};
ghost use Rattle.std.specs.Option.{option_copied};
ghost use Rattle.log_model.specs.After.{desk_dropped};
ghost use Rattle.log_model.specs.Logs.{is_idle};
ghost use Rattle.proc_tables.specs.Desks.{Changes, Stays, desk_at, desk_noted, desk_with, is_proc, without_job, without_order, without_poke, without_report};

use crate::desk::Desk;
use crate::item::Item;
use address::OutOfMemory;
use indexmap::IndexMap;
use log_model::{Job, Order, Poke, Report, RowKind};
use std::alloc::Global;
use std::marker::Model;
use tab_ids::{ProcId, ReqId};

/// The desks of the processes in which something ever waited.
#[derive(Drop)]
pub struct Desks {
    alloc: Global,
    desks: IndexMap<ProcId, Desk>,
}

impl Model for Desks {
    ghost use Rattle.std.specs.Prelude.{List};
    ghost use Rattle.log_model.specs.Seen as spec;
    ghost use Rattle.tab_ids.specs.declared.ProcId.{ProcId};

    ghost Value = { List (ProcId × spec.Desk) };

    ghost view = { λ d. d.desks.entries };
}

impl Desks {
    /// The desks where nothing ever waited. It takes no memory.
    pub fn new(alloc: Global) -> Desks
        ensures { result ≡ [] }
    {
        Desks {
            alloc,
            desks: IndexMap::new(alloc),
        }
    }

    /// The desk of a process, if something ever waited there.
    pub fn of(&self, proc: ProcId) -> Option<&Desk>
        ensures { option_copied result ≡ lookup (is_proc proc) self.now }
    {
        self.desks.get(&proc)
    }

    /// Whether nothing waits in any process, and none has an order in hand.
    pub fn is_idle(&self) -> bool
        ensures idle { result ≡ true → (proc : ProcId) → is_idle (desk_at self.now proc) ≡ true }
        ensures busy { result ≡ false → (proc : ProcId) × (is_idle (desk_at self.now proc) ≡ false) }
    {
        are_idle(&self.desks)
    }

    /// Something joins the lists of a process.
    pub fn add(&mut self, proc: ProcId, item: Item) -> Result<(), OutOfMemory>
        ensures ok { OnOk result (Changes proc (desk_with item) self.old self.new) }
        ensures err { OnErr result (Stays self.old self.new) }
    {
        add_in(&mut self.desks, self.alloc, proc, item)
    }

    /// Takes the first poke of a process.
    pub fn next_poke(&mut self, proc: ProcId) -> Option<Poke>
        ensures first { result ≡ slice_get (desk_at self.old proc).input 0 }
        ensures rest { Changes proc without_poke self.old self.new }
    {
        next_poke_in(&mut self.desks, proc)
    }

    /// Takes the first order of a process's mail.
    pub fn next_job(&mut self, proc: ProcId) -> Option<Job>
        ensures first { result ≡ slice_get (desk_at self.old proc).mail 0 }
        ensures rest { Changes proc without_job self.old self.new }
    {
        next_job_in(&mut self.desks, proc)
    }

    /// Takes the order that a process has in hand.
    pub fn let_go(&mut self, proc: ProcId) -> Option<Order>
        ensures held { result ≡ (desk_at self.old proc).in_hand }
        ensures rest { Changes proc without_order self.old self.new }
    {
        let_go_in(&mut self.desks, proc)
    }

    /// Takes the first report of a process.
    pub fn next_report(&mut self, proc: ProcId) -> Option<Report>
        ensures first { result ≡ slice_get (desk_at self.old proc).reports 0 }
        ensures rest { Changes proc without_report self.old self.new }
    {
        next_report_in(&mut self.desks, proc)
    }

    /// Notes a row that the coordinator put out.
    pub fn note(&mut self, row: &RowKind) -> Result<(), OutOfMemory>
        ensures ok { OnOk result ((proc : ProcId) → desk_at self.new proc ≡ desk_noted proc (desk_at self.old proc) row.now) }
        ensures err { OnErr result (Stays self.old self.new) }
    {
        match row {
            RowKind::Sent { job } => {
                let job = job.copy()?;
                add_in(&mut self.desks, self.alloc, job.proc, Item::Job(job))
            }
            RowKind::Dropped { req, .. } => {
                forget_in(&mut self.desks, *req);
                Ok(())
            }
            RowKind::Opened { .. }
            | RowKind::Accepted { .. }
            | RowKind::Started { .. }
            | RowKind::Applied { .. }
            | RowKind::Refused { .. }
            | RowKind::Prompted { .. }
            | RowKind::Answered { .. }
            | RowKind::Taken { .. }
            | RowKind::Finished { .. }
            | RowKind::Made { .. }
            | RowKind::Delivered { .. }
            | RowKind::Killed { .. }
            | RowKind::Evicted { .. } => Ok(()),
        }
    }
}

/// Whether nothing waits in any process.
fn are_idle(desks: &IndexMap<ProcId, Desk>) -> bool
    ensures idle { result ≡ true → (proc : ProcId) → is_idle (desk_at desks.now.entries proc) ≡ true }
    ensures busy { result ≡ false → (proc : ProcId) × (is_idle (desk_at desks.now.entries proc) ≡ false) }
{
    // Its clause says that the processes are distinct.
    let _len = desks.len();
    each_is_idle(desks)
}

/// Whether each desk is idle.
fn each_is_idle(desks: &IndexMap<ProcId, Desk>) -> bool
    ensures { result ≡ list_all is_idle (values_of desks.now.entries) }
{
    desks.values().all(|desk| desk.is_idle())
}

/// A process has a desk from now on, an empty one where it had none.
fn make_in(
    desks: &mut IndexMap<ProcId, Desk>,
    alloc: Global,
    proc: ProcId,
) -> Result<(), OutOfMemory>
    ensures there { OnOk result (IsSome (lookup (is_proc proc) desks.new.entries)) }
    ensures same { Stays desks.old.entries desks.new.entries }
{
    if desks.contains_key(&proc) {
        return Ok(());
    }
    desks.insert(proc, Desk::new(alloc, proc))?;
    Ok(())
}

fn add_in(
    desks: &mut IndexMap<ProcId, Desk>,
    alloc: Global,
    proc: ProcId,
    item: Item,
) -> Result<(), OutOfMemory>
    ensures ok { OnOk result (Changes proc (desk_with item) desks.old.entries desks.new.entries) }
    ensures err { OnErr result (Stays desks.old.entries desks.new.entries) }
{
    make_in(desks, alloc, proc)?;
    match desks.get_mut(&proc) {
        Some(desk) => desk.add(item),
        None => unreachable!(),
    }
}

fn next_poke_in(desks: &mut IndexMap<ProcId, Desk>, proc: ProcId) -> Option<Poke>
    ensures first { result ≡ slice_get (desk_at desks.old.entries proc).input 0 }
    ensures rest { Changes proc without_poke desks.old.entries desks.new.entries }
{
    match desks.get_mut(&proc) {
        Some(desk) => desk.next_poke(),
        None => None,
    }
}

fn next_job_in(desks: &mut IndexMap<ProcId, Desk>, proc: ProcId) -> Option<Job>
    ensures first { result ≡ slice_get (desk_at desks.old.entries proc).mail 0 }
    ensures rest { Changes proc without_job desks.old.entries desks.new.entries }
{
    match desks.get_mut(&proc) {
        Some(desk) => desk.next_job(),
        None => None,
    }
}

fn let_go_in(desks: &mut IndexMap<ProcId, Desk>, proc: ProcId) -> Option<Order>
    ensures held { result ≡ (desk_at desks.old.entries proc).in_hand }
    ensures rest { Changes proc without_order desks.old.entries desks.new.entries }
{
    match desks.get_mut(&proc) {
        Some(desk) => desk.let_go(),
        None => None,
    }
}

fn next_report_in(desks: &mut IndexMap<ProcId, Desk>, proc: ProcId) -> Option<Report>
    ensures first { result ≡ slice_get (desk_at desks.old.entries proc).reports 0 }
    ensures rest { Changes proc without_report desks.old.entries desks.new.entries }
{
    match desks.get_mut(&proc) {
        Some(desk) => desk.next_report(),
        None => None,
    }
}

/// A request that was dropped leaves the input of its process.
fn forget_in(desks: &mut IndexMap<ProcId, Desk>, req: ReqId)
    ensures { (proc : ProcId) → desk_at desks.new.entries proc ≡ desk_dropped req (desk_at desks.old.entries proc) }
{
    for place in 0..desks.len() {
        forget_at(desks, place, req);
    }
}

/// It leaves the input of the process at a place of the table.
fn forget_at(desks: &mut IndexMap<ProcId, Desk>, place: usize, req: ReqId)
    ensures some { (desk : Desk) → slice_get (values_of desks.old.entries) place ≡ Some desk → desks.new.entries ≡ set_value_at desks.old.entries place (desk_dropped req desk) }
    ensures none { slice_get (values_of desks.old.entries) place ≡ None → desks.new.entries ≡ desks.old.entries }
{
    match desks.get_index_mut(place) {
        Some(desk) => desk.forget(req),
        None => (),
    }
}
