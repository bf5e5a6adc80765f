//! What was held back for a traversal is taken up, refused or dropped, one report after the other.
ghost use Rattle.std.specs.List.{last_or};
ghost use Rattle.std.specs.Prelude.{◌≡◌, None, OnOk, IfOk, []};
ghost use Rattle.row_facts.specs.Owed.Owed.{IsLoose};
ghost use Rattle.seen_laws.specs.InEvent.{now_of};
ghost use Rattle.tab_takes.specs.PassedOn.{HasQueue, IsTurning};
ghost use Rattle.tab_takes.specs.Taking.{HasTaken, InPass, IsPassing, IsTaking, IsToTake, KeepsRun, LoadsMadeOwn};
ghost use Rattle.tab_releases.specs.Releasing.{EndsEach, HoldsParked, IsReleasing, MayBeFor};

use address::OutOfMemory;
use indexmap::IndexMap;
use log_model::{Made, Out};
use move_queue::MoveQueue;
use std::alloc::Global;
use tab_doors::Tables;
use tab_ids::{ReqId, StateId};
use tab_takes::{judged, take};

/// The report that is held back first is judged, and taken up, refused or dropped. Answers its request.
fn release_one(
    alloc: Global,
    tables: &mut Tables,
    blame: &mut IndexMap<StateId, ReqId>,
    out: &mut Out,
    made: Made,
) -> Result<ReqId, OutOfMemory>
    ghost p: { InPass }
    requires at { IsToTake p out.old tables.old blame.old.entries made }
    requires idle { tables.old.running ≡ None }
    ensures req { IfOk result (λ req. req ≡ made.req) }
    ensures taken { OnOk result (HasTaken p tables.old made out.old out.new tables.new blame.new.entries) }
{
    let verdict = judged(tables, &made);
    take(alloc, tables, blame, out, &made, verdict)?;
    Ok(made.req)
}

/// The reports that were held back for the traversal that has ended are taken up, refused or dropped, in the order in which they were delivered, so that a pass may follow. Answers the request of the last of them, where any was held back: the orders that follow from what they did are for it.
pub fn release(
    alloc: Global,
    tables: &mut Tables,
    queue: &mut MoveQueue,
    blame: &mut IndexMap<StateId, ReqId>,
    out: &mut Out,
) -> Result<Option<ReqId>, OutOfMemory>
    ghost p: { InPass }
    requires passing { IsPassing p out.old tables.old }
    requires empty { p.hand ≡ [] }
    requires turning { IsTurning p.event out.old }
    requires idle { tables.old.running ≡ None }
    requires open_ { IsTaking p.event tables.old.running blame.old.entries (now_of p.event out.old) }
    requires loose { IsLoose p.event out.old }
    requires theirs { LoadsMadeOwn (now_of p.event out.old) }
    requires queued { HasQueue (now_of p.event out.old) None queue.old.waiting }
    requires parked { HoldsParked (now_of p.event out.old) queue.old.parked }
    requires releasing { ((now_of p.event out.old).parked ≡ [] → ⊥) → IsReleasing p.event out.old }
    ensures passing { OnOk result (IsPassing p out.new tables.new) }
    ensures turning { OnOk result (IsTurning p.event out.new) }
    ensures open_ { OnOk result (IsTaking p.event tables.new.running blame.new.entries (now_of p.event out.new)) }
    ensures queued { OnOk result (HasQueue (now_of p.event out.new) None queue.new.waiting) }
    ensures none { OnOk result ((now_of p.event out.new).parked ≡ []) }
    ensures parked { OnOk result (queue.new.parked ≡ []) }
    ensures ended { OnOk result (EndsEach p.event out.old out.new (now_of p.event out.old).parked) }
    ensures last { IfOk result (λ last. last ≡ last_or None (now_of p.event out.old).parked) }
    ensures theirs { OnOk result (LoadsMadeOwn (now_of p.event out.new)) }
    ensures cause { IfOk result (λ last. MayBeFor (now_of p.event out.new) last) }
    ensures waiting { queue.new.waiting ≡ queue.old.waiting }
    ensures kept { OnOk result (KeepsRun tables.old tables.new) }
{
    let mut last = None;
    'held: while let Some(made) = queue.unpark() {
        last = Some(release_one(alloc, tables, blame, out, made)?);
    }
    Ok(last)
}
