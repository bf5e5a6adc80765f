//! What a document made is taken up, refused or dropped.
ghost use Rattle.std.specs.Prelude.{◌≡◌, OnOk, Some};
ghost use Rattle.std.specs.Option.{IsSome};
ghost use Rattle.seen_facts.proofs.Entry.Skips.{without_made};
ghost use Rattle.log_model.specs.Causes.{denial_at_delivery};
ghost use Rattle.log_model.specs.declared.job.Why.TheVariants as whys;
ghost use Rattle.nav_tree.specs.Tree.{state_of};
ghost use Rattle.row_facts.specs.Owed.Owed.{IsLoose};
ghost use Rattle.seen_laws.specs.InEvent.{now_of};
ghost use Rattle.sync_core.specs.declared.judging.Judged.TheVariants as verdicts;
ghost use Rattle.tab_rests.specs.PassedOn.{InPass, IsPassing, LeavesQueue, MayCause};
ghost use Rattle.tab_doors.specs.Working.{KeepsRun};
ghost use Rattle.tab_takes.specs.Taking.{ArrivedWhere, EndsAlone, HasTaken, InTake, IsForTaking, IsTaking, IsToTake, judged_in};

use crate::applying::apply;
use crate::judging::nav_there;
use address::OutOfMemory;
use indexmap::IndexMap;
use log_model::{Denial, Made, Out, Why};
use nav_tree::NavTree;
use std::alloc::Global;
use sync_core::{Judged, SyncError, change_of};
use tab_doors::Tables;
use tab_ids::{DocId, EntryId, ReqId, StateId};

/// What a document made, as it was judged, is dropped, or taken up: refused where its frame can't be added or removed, else applied. One row is put out, and a pass may follow. In `blame` the request is noted before a change that can take entries, under the state of each document that is there with entries.
pub fn take(
    alloc: Global,
    tables: &mut Tables,
    blame: &mut IndexMap<StateId, ReqId>,
    out: &mut Out,
    made: &Made,
    verdict: Judged,
) -> Result<(), OutOfMemory>
    ghost p: { InPass }
    requires passing { IsPassing p out.old tables.old }
    requires taking { IsForTaking p.event out.old p.hand made.now }
    requires verdict { judged_in tables.old made.now ≡ Some verdict }
    requires free { (verdict ≡ verdicts.Park) → ⊥ }
    requires open_ { IsTaking p.event tables.old.running blame.old.entries (now_of p.event out.old) }
    requires loose { IsLoose p.event out.old }
    requires arrived { ArrivedWhere tables.old.running (now_of p.event out.old) }
    ensures passing { OnOk result (IsPassing (record p { hand = without_made made.now.req p.hand }) out.new tables.new) }
    ensures open_ { OnOk result (IsTaking p.event tables.new.running blame.new.entries (now_of p.event out.new)) }
    ensures loose { OnOk result (IsLoose p.event out.new) }
    ensures cause { OnOk result (MayCause (now_of p.event out.new) (whys.Req made.now.req)) }
    ensures ended { OnOk result (EndsAlone p.event out.old out.new made.now) }
    ensures queue { OnOk result (LeavesQueue (now_of p.event out.old) (now_of p.event out.new)) }
    ensures kept { OnOk result (KeepsRun tables.old tables.new) }
{
    take_judged(alloc, tables, blame, out, made, verdict)?;
    Ok(())
}

/// The same, of what is to be taken.
fn take_judged(
    alloc: Global,
    tables: &mut Tables,
    blame: &mut IndexMap<StateId, ReqId>,
    out: &mut Out,
    made: &Made,
    verdict: Judged,
) -> Result<(), OutOfMemory>
    ghost i: { InTake }
    requires at { IsToTake i.pass out.old tables.old i.noted made.now }
    requires noted { i.noted ≡ blame.old.entries }
    requires verdict { judged_in tables.old made.now ≡ Some verdict }
    requires free { (verdict ≡ verdicts.Park) → ⊥ }
    ensures taken { OnOk result (HasTaken i.pass tables.old made.now out.old out.new tables.new blame.new.entries) }
{
    match verdict {
        Judged::Gone(by) => destroyed(tables, out, made, by),
        Judged::Stale(why) => moved(tables, out, made, why),
        Judged::Now => take_up(alloc, tables, blame, out, made),
        Judged::Park => unreachable!(),
    }
}

/// It is dropped by the request that took its navigable's last entries.
fn destroyed(tables: &mut Tables, out: &mut Out, made: &Made, by: ReqId) -> Result<(), OutOfMemory>
    ghost i: { InTake }
    requires at { IsToTake i.pass out.old tables.old i.noted made.now }
    requires verdict { judged_in tables.old made.now ≡ Some (verdicts.Gone by) }
    ensures taken { OnOk result (HasTaken i.pass tables.old made.now out.old out.new tables.new i.noted) }
{
    tables.destroy(out, made.req, by)?;
    Ok(())
}

/// It is dropped by the request that has shown its navigable a document since, or put it to sleep.
fn moved(tables: &mut Tables, out: &mut Out, made: &Made, why: Why) -> Result<(), OutOfMemory>
    ghost i: { InTake }
    requires at { IsToTake i.pass out.old tables.old i.noted made.now }
    requires verdict { judged_in tables.old made.now ≡ Some (verdicts.Stale why) }
    ensures taken { OnOk result (HasTaken i.pass tables.old made.now out.old out.new tables.new i.noted) }
{
    match why {
        Why::Req(by) => moved_by(tables, out, made, by),
        Why::Death(_) => unreachable!(),
        Why::Evict => unreachable!(),
        Why::Start => unreachable!(),
    }
}

/// It is dropped by this request.
fn moved_by(tables: &mut Tables, out: &mut Out, made: &Made, by: ReqId) -> Result<(), OutOfMemory>
    ghost i: { InTake }
    requires at { IsToTake i.pass out.old tables.old i.noted made.now }
    requires verdict { judged_in tables.old made.now ≡ Some (verdicts.Stale (whys.Req by)) }
    ensures taken { OnOk result (HasTaken i.pass tables.old made.now out.old out.new tables.new i.noted) }
{
    tables.drop_moved(out, made.req, by)?;
    Ok(())
}

/// The document state for which a document is there.
fn state_there(tree: &NavTree, doc: DocId) -> StateId
    requires { IsSome (state_of doc tree.now) }
    ensures { state_of doc tree.now ≡ Some result }
{
    match tree.state_of(doc) {
        Some(state) => state,
        None => unreachable!(),
    }
}

/// It is refused where its frame can't be added or removed, else its change is applied.
fn take_up(
    alloc: Global,
    tables: &mut Tables,
    blame: &mut IndexMap<StateId, ReqId>,
    out: &mut Out,
    made: &Made,
) -> Result<(), OutOfMemory>
    ghost i: { InTake }
    requires at { IsToTake i.pass out.old tables.old i.noted made.now }
    requires noted { i.noted ≡ blame.old.entries }
    requires verdict { judged_in tables.old made.now ≡ Some verdicts.Now }
    ensures taken { OnOk result (HasTaken i.pass tables.old made.now out.old out.new tables.new blame.new.entries) }
{
    let nav = nav_there(tables, made);
    let state = state_there(&tables.tree, made.doc);
    let entry = EntryId {
        maker: 0,
        nr: tables.entries + 1,
    };
    let fresh = StateId(tables.states + 1);
    match change_of(&tables.store, made, nav, state, entry, fresh) {
        Ok(change) => apply(alloc, tables, blame, out, made, change),
        Err(SyncError::NavTaken) => denied(tables, out, made, Denial::NavTaken),
        Err(SyncError::NoNavigable) => denied(tables, out, made, Denial::NoNavigable),
        Err(SyncError::OutOfMemory) => Err(OutOfMemory),
    }
}

/// It is refused: the new frame's number is taken, or the frame to be removed isn't the document's.
fn denied(
    tables: &mut Tables,
    out: &mut Out,
    made: &Made,
    reason: Denial,
) -> Result<(), OutOfMemory>
    ghost i: { InTake }
    requires at { IsToTake i.pass out.old tables.old i.noted made.now }
    requires due { denial_at_delivery (now_of i.pass.event out.old) made.now ≡ Some reason }
    ensures taken { OnOk result (HasTaken i.pass tables.old made.now out.old out.new tables.new i.noted) }
{
    tables.deny(out, made.req, reason)?;
    Ok(())
}
