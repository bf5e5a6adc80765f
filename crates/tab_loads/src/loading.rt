//! A load is refused, dropped, sent to a fragment, or begins.
ghost use Rattle.std.specs.Prelude.{◌≡◌, [], IfOk, OnOk, false};
ghost use Rattle.tab_doors.specs.Working.{KeepsRun};
ghost use Rattle.tab_doors.specs.Working.{MayDiscardIn};
ghost use Rattle.tab_loads.specs.Asking.{HasCome, InLoad, IsAsked};
ghost use Rattle.tab_loads.specs.Loading.{CameTo, InCall, IsLoadAsk, cause_of, hand_of, pass_of};
ghost use Rattle.tab_stands.specs.PassedOn.{IsReady};
ghost use Rattle.load_doors.specs.Logged.{IsLogged};
ghost use Rattle.seen_laws.specs.InEvent.{log_of};
ghost use Rattle.slot_facts.specs.Slots.{AreSlots};
ghost use Rattle.tab_stands.specs.Standing.{HasRoomFor, LastsInLog, StandsFor, seen_start};

use crate::asking::asks_somebody;
use crate::beginning::begin;
use crate::cutting::cut_off;
use crate::fragments::to_fragment;
use crate::loaded::Loaded;
use crate::ways::{away, denial, fragment_doc};
use address::{Address, OutOfMemory};
use indexmap::IndexMap;
use load_doors::refuse_load;
use log_model::{Header, Mode, Out};
use move_queue::MoveQueue;
use std::alloc::Global;
use tab_doors::Tables;
use tab_ids::{DocId, NavId, ReqId, StateId};

/// There is no reason against the load: it is dropped, sent to a fragment, is to ask somebody before it begins, or begins.
fn navigate(
    alloc: Global,
    header: &Header,
    tables: &mut Tables,
    queue: &MoveQueue,
    blame: &mut IndexMap<StateId, ReqId>,
    slots: &IndexMap<DocId, u8>,
    out: &mut Out,
    req: ReqId,
    nav: NavId,
    mode: Mode,
    address: &Address,
) -> Result<Loaded, OutOfMemory>
    ghost l: { InLoad }
    requires header { header.now ≡ l.event.header }
    requires asked { IsAsked l tables.old }
    requires moves { l.queue ≡ queue.now }
    requires noted { l.noted ≡ blame.old.entries }
    requires first { out.old ≡ [] }
    requires req { l.req ≡ req }
    requires nav { l.nav ≡ nav }
    requires mode { l.mode ≡ mode }
    requires address { l.address ≡ address.now }
    requires slots { AreSlots (log_of l.event []) slots.now.entries }
    ensures come { IfOk result (λ loaded. HasCome l tables.old tables.new out.new blame.new.entries loaded) }
{
    match away(tables, nav) {
        Some(top) => {
            cut_off(tables, out, req, top)?;
            Ok(Loaded::CutOff)
        }
        None => match fragment_doc(tables, nav, address) {
            Some(doc) => {
                to_fragment(tables, out, req, doc, mode, address)?;
                Ok(Loaded::ToFragment)
            }
            None => {
                let asks = asks_somebody(alloc, tables, slots, nav)?;
                if asks {
                    return Ok(Loaded::Asks);
                }
                begin(header, tables, blame, out, req, nav, mode, address)?;
                Ok(Loaded::Begun)
            }
        },
    }
}

/// The user asks for a load of a navigable: it is refused where the navigable has no entry or isn't shown; dropped where the navigable or one above it doesn't stand; else, where the address differs by its fragment alone, the navigable's document is sent there; else, where a document that it leaves has an unload handler, by `slots`, it is to ask before it begins, and nothing is done yet; else the load begins, the navigable's ongoing one gives way to it, and its document is to be made, in the process of its site. In `blame` the load's request is noted for the document of the one that gave way. A pass may follow then, with the load at hand still where it is to ask. HTML Standard, "navigate" and "checking if unloading is canceled".
pub fn load(
    alloc: Global,
    header: &Header,
    tables: &mut Tables,
    queue: &MoveQueue,
    blame: &mut IndexMap<StateId, ReqId>,
    slots: &IndexMap<DocId, u8>,
    out: &mut Out,
    req: ReqId,
    nav: NavId,
    mode: Mode,
    address: &Address,
) -> Result<Loaded, OutOfMemory>
    ghost k: { InCall }
    requires header { header.now ≡ k.event.header }
    requires keep { tables.old.kept.keep ≡ k.event.header.keep }
    requires first { out.old ≡ [] }
    requires asks { IsLoadAsk k.event req nav mode address.now }
    requires room { HasRoomFor (seen_start k.event) }
    requires stands { StandsFor k.check (seen_start k.event) tables.old queue.now blame.old.entries }
    requires logged { IsLogged k.event tables.old.checks }
    requires lasts { LastsInLog k.event.checking tables.old.asking (log_of k.event []) }
    requires free { k.check.holds ≡ false → MayDiscardIn false k.event }
    requires slots { AreSlots (log_of k.event []) slots.now.entries }
    ensures came { IfOk result (λ loaded. CameTo k.event req nav mode address.now out.new loaded) }
    ensures ready { IfOk result (λ loaded. IsReady (pass_of k.event (hand_of req loaded k.check.loads)) out.new tables.new queue.now blame.new.entries (cause_of req loaded)) }
    ensures kept { OnOk result (KeepsRun tables.old tables.new) }
{
    match denial(tables, nav) {
        Some(reason) => {
            refuse_load(tables, out, req, reason)?;
            Ok(Loaded::Refused)
        }
        None => navigate(
            alloc, header, tables, queue, blame, slots, out, req, nav, mode, address,
        ),
    }
}
