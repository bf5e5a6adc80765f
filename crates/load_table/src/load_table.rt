//! `LoadTable`, which a contract sees as the list of the ongoing loads: at most one of each navigable.
ghost use Rattle.std.specs.Prelude.{◌≡◌, [], find, position, option_map, Some, OnOk, OnErr, IfOk};
ghost use Rattle.std.specs.Option.{option_copied, ForSome};
ghost use Rattle.std.specs.Map.{values_of};
ghost use Rattle.load_table.specs.declared.phase.Phase.TheVariants as phases;
ghost use Rattle.load_table.specs.Loads.{ongoing_load, HasOneEach, KeepsOthers, begun, cancelled, moved_on, is_of, is_populating};
ghost use Rattle.load_table.specs.Entries.{AreKeyed};

use crate::load::Load;
use crate::phase::Phase;
use address::OutOfMemory;
use indexmap::IndexMap;
use std::alloc::Global;
use std::marker::Model;
use tab_ids::{DocId, NavId, ReqId};

/// The ongoing loads, at most one for each navigable.
#[derive(Drop)]
pub struct LoadTable {
    loads: IndexMap<NavId, Load>,
}

impl Model for LoadTable {
    ghost use Rattle.std.specs.Prelude.{List};
    ghost use Rattle.std.specs.Map.{values_of};
    ghost use Rattle.load_table.specs.declared.load.Load.{Load};
    ghost use Rattle.load_table.specs.Entries.{AreKeyed};

    ghost Value = { List Load };

    ghost view = { λ t. values_of t.loads.entries };

    ghost invariant = { λ t. AreKeyed t.loads.entries };
}

impl LoadTable {
    /// A table with no load. It takes no memory.
    pub fn new(alloc: Global) -> LoadTable
        ensures { result ≡ [] }
    {
        LoadTable {
            loads: IndexMap::new(alloc),
        }
    }

    /// Puts a load in the place of its navigable's ongoing one, and answers the request of that one.
    pub fn begin(&mut self, load: Load) -> Result<Option<ReqId>, OutOfMemory>
        ensures ok { OnOk result (self.new ≡ begun load self.old) }
        ensures replaced { IfOk result (λ req. req ≡ option_map (λ old. old.req) (ongoing_load load.nav self.old)) }
        ensures others { OnOk result (KeepsOthers load.nav self.old self.new) }
        ensures err { OnErr result (self.new ≡ self.old) }
    {
        begin_in(&mut self.loads, load)
    }

    /// Notes that the document of a navigable's load is being made.
    pub fn populating(&mut self, nav: NavId, doc: DocId)
        ensures populating { self.new ≡ moved_on (is_of nav) (phases.Populating doc) self.old }
        ensures others { KeepsOthers nav self.old self.new }
    {
        set_phase(&mut self.loads, nav, Phase::Populating(doc));
    }

    /// Notes that a document was made: the load that waits for it is ready, and its request is answered.
    pub fn populated(&mut self, doc: DocId) -> Option<ReqId>
        ensures ready { self.new ≡ moved_on (is_populating doc) (phases.Ready doc) self.old }
        ensures req { result ≡ option_map (λ load. load.req) (find (is_populating doc) self.old) }
        ensures others { ForSome (find (is_populating doc) self.old) (λ load. KeepsOthers load.nav self.old self.new) }
    {
        populated_in(&mut self.loads, doc)
    }

    /// Notes that the document for which a navigable's load waits was made: the load is ready.
    pub fn ready(&mut self, nav: NavId, doc: DocId)
        ensures ready { self.new ≡ moved_on (is_of nav) (phases.Ready doc) self.old }
        ensures others { KeepsOthers nav self.old self.new }
    {
        set_phase(&mut self.loads, nav, Phase::Ready(doc));
    }

    /// Ends the load of a navigable, and answers its request.
    pub fn cancel(&mut self, nav: NavId) -> Option<ReqId>
        ensures rest { self.new ≡ cancelled nav self.old }
        ensures req { result ≡ option_map (λ load. load.req) (ongoing_load nav self.old) }
        ensures others { KeepsOthers nav self.old self.new }
    {
        cancel_in(&mut self.loads, nav)
    }

    /// The ongoing load of a navigable.
    pub fn of(&self, nav: NavId) -> Option<&Load>
        ensures load { option_copied result ≡ ongoing_load nav self.now }
        ensures one_each { HasOneEach self.now }
    {
        find_in(&self.loads, nav)
    }
}

/// The request of a load.
fn request_of(load: Option<Load>) -> Option<ReqId>
    ensures { result ≡ option_map (λ old. old.req) load }
{
    load.map(|load| load.req)
}

/// Puts a load in the place of its navigable's.
fn begin_in(loads: &mut IndexMap<NavId, Load>, load: Load) -> Result<Option<ReqId>, OutOfMemory>
    requires { AreKeyed loads.old.entries }
    ensures keyed { AreKeyed loads.new.entries }
    ensures ok { OnOk result (values_of loads.new.entries ≡ begun load (values_of loads.old.entries)) }
    ensures replaced { IfOk result (λ req. req ≡ option_map (λ old. old.req) (ongoing_load load.nav (values_of loads.old.entries))) }
    ensures err { OnErr result (values_of loads.new.entries ≡ values_of loads.old.entries) }
{
    let old = loads.insert(load.nav, load)?;
    Ok(request_of(old))
}

/// Gives a navigable's load another phase.
fn set_phase(loads: &mut IndexMap<NavId, Load>, nav: NavId, phase: Phase)
    requires { AreKeyed loads.old.entries }
    ensures keyed { AreKeyed loads.new.entries }
    ensures moved { values_of loads.new.entries ≡ moved_on (is_of nav) phase (values_of loads.old.entries) }
{
    match loads.get_mut(&nav) {
        Some(load) => load.phase = phase,
        None => (),
    }
}

/// The place of the load that waits for a document.
fn place_of(loads: &IndexMap<NavId, Load>, doc: DocId) -> Option<usize>
    ensures { result ≡ position (is_populating doc) (values_of loads.now.entries) }
{
    loads.values().position(|load| load.is_populating(doc))
}

/// Makes the load ready that waits for a document.
fn populated_in(loads: &mut IndexMap<NavId, Load>, doc: DocId) -> Option<ReqId>
    requires { AreKeyed loads.old.entries }
    ensures keyed { AreKeyed loads.new.entries }
    ensures ready { values_of loads.new.entries ≡ moved_on (is_populating doc) (phases.Ready doc) (values_of loads.old.entries) }
    ensures req { result ≡ option_map (λ load. load.req) (find (is_populating doc) (values_of loads.old.entries)) }
{
    match place_of(loads, doc) {
        Some(place) => ready_at(loads, place, doc),
        None => None,
    }
}

/// Makes the load at a place ready.
fn ready_at(loads: &mut IndexMap<NavId, Load>, place: usize, doc: DocId) -> Option<ReqId>
    requires keyed { AreKeyed loads.old.entries }
    requires first { position (is_populating doc) (values_of loads.old.entries) ≡ Some place }
    ensures keyed { AreKeyed loads.new.entries }
    ensures ready { values_of loads.new.entries ≡ moved_on (is_populating doc) (phases.Ready doc) (values_of loads.old.entries) }
    ensures req { result ≡ option_map (λ load. load.req) (find (is_populating doc) (values_of loads.old.entries)) }
{
    match loads.get_index_mut(place) {
        Some(load) => {
            let req = load.req;
            load.phase = Phase::Ready(doc);
            Some(req)
        }
        None => None,
    }
}

/// Takes a navigable's load out.
fn cancel_in(loads: &mut IndexMap<NavId, Load>, nav: NavId) -> Option<ReqId>
    requires { AreKeyed loads.old.entries }
    ensures keyed { AreKeyed loads.new.entries }
    ensures rest { values_of loads.new.entries ≡ cancelled nav (values_of loads.old.entries) }
    ensures req { result ≡ option_map (λ load. load.req) (ongoing_load nav (values_of loads.old.entries)) }
{
    // Its clause says that the numbers are distinct.
    let _len = loads.len();
    request_of(loads.shift_remove(&nav))
}

/// A navigable's load.
fn find_in(loads: &IndexMap<NavId, Load>, nav: NavId) -> Option<&Load>
    requires { AreKeyed loads.now.entries }
    ensures load { option_copied result ≡ ongoing_load nav (values_of loads.now.entries) }
    ensures one_each { HasOneEach (values_of loads.now.entries) }
{
    let _len = loads.len();
    loads.get(&nav)
}
