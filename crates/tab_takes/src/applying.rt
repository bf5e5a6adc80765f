//! The change that a document made is applied.
ghost use Rattle.std.specs.Prelude.{◌≡◌, OnOk, Some};
ghost use Rattle.log_model.specs.declared.change.Change.TheVariants as changes;
ghost use Rattle.sync_core.specs.declared.judging.Judged.TheVariants as verdicts;
ghost use Rattle.tab_takes.specs.Taking.{HasTaken, InTake, IsToTake, asked_in, judged_in};

use crate::judging::nav_there;
use address::{Address, OutOfMemory, Text};
use indexmap::IndexMap;
use log_model::{Change, Made, Out};
use std::alloc::Global;
use tab_doors::Tables;
use tab_ids::{EntryId, NavId, ReqId, StateId};
use tab_rests::note_entries;

/// What a document made that is taken up now is applied, by the change that it asks.
pub(crate) fn apply(
    alloc: Global,
    tables: &mut Tables,
    blame: &mut IndexMap<StateId, ReqId>,
    out: &mut Out,
    made: &Made,
    change: Change,
) -> Result<(), OutOfMemory>
    ghost i: { InTake }
    requires at { IsToTake i.pass out.old tables.old i.noted made.now }
    requires noted { i.noted ≡ blame.old.entries }
    requires verdict { judged_in tables.old made.now ≡ Some verdicts.Now }
    requires asked { asked_in tables.old made.now ≡ Some change }
    ensures taken { OnOk result (HasTaken i.pass tables.old made.now out.old out.new tables.new blame.new.entries) }
{
    match change {
        Change::Push {
            nav,
            entry,
            state,
            address,
            memo,
        } => push(
            alloc, tables, blame, out, made, nav, entry, state, address, memo,
        ),
        Change::Replace {
            nav,
            over,
            entry,
            state,
            address,
            memo,
        } => replace(tables, out, made, nav, over, entry, state, address, memo),
        Change::AddFrame {
            owner,
            nav,
            entry,
            state,
        } => add_frame(tables, out, made, owner, nav, entry, state),
        Change::RemoveFrame { nav } => remove_frame(alloc, tables, blame, out, made, nav),
        Change::Traverse { .. } => unreachable!(),
        Change::Reload { .. } => unreachable!(),
        Change::Edit => unreachable!(),
    }
}

/// An entry is pushed, and those forward of it go. The request is noted before that.
fn push(
    alloc: Global,
    tables: &mut Tables,
    blame: &mut IndexMap<StateId, ReqId>,
    out: &mut Out,
    made: &Made,
    nav: NavId,
    entry: EntryId,
    state: StateId,
    address: Address,
    memo: Option<Text>,
) -> Result<(), OutOfMemory>
    ghost i: { InTake }
    requires at { IsToTake i.pass out.old tables.old i.noted made.now }
    requires noted { i.noted ≡ blame.old.entries }
    requires verdict { judged_in tables.old made.now ≡ Some verdicts.Now }
    requires asked { asked_in tables.old made.now ≡ Some (changes.Push nav entry state address memo) }
    ensures taken { OnOk result (HasTaken i.pass tables.old made.now out.old out.new tables.new blame.new.entries) }
{
    note_entries(tables, blame, made.req)?;
    tables.push(alloc, out, made.req, nav, entry, state, address, memo)?;
    Ok(())
}

/// An entry takes another's place.
fn replace(
    tables: &mut Tables,
    out: &mut Out,
    made: &Made,
    nav: NavId,
    over: EntryId,
    entry: EntryId,
    state: StateId,
    address: Address,
    memo: Option<Text>,
) -> Result<(), OutOfMemory>
    ghost i: { InTake }
    requires at { IsToTake i.pass out.old tables.old i.noted made.now }
    requires verdict { judged_in tables.old made.now ≡ Some verdicts.Now }
    requires asked { asked_in tables.old made.now ≡ Some (changes.Replace nav over entry state address memo) }
    ensures taken { OnOk result (HasTaken i.pass tables.old made.now out.old out.new tables.new i.noted) }
{
    tables.replace(out, made.req, nav, over, entry, state, address, memo)?;
    Ok(())
}

/// A frame is added.
fn add_frame(
    tables: &mut Tables,
    out: &mut Out,
    made: &Made,
    owner: StateId,
    nav: NavId,
    entry: EntryId,
    state: StateId,
) -> Result<(), OutOfMemory>
    ghost i: { InTake }
    requires at { IsToTake i.pass out.old tables.old i.noted made.now }
    requires verdict { judged_in tables.old made.now ≡ Some verdicts.Now }
    requires asked { asked_in tables.old made.now ≡ Some (changes.AddFrame owner nav entry state) }
    ensures taken { OnOk result (HasTaken i.pass tables.old made.now out.old out.new tables.new i.noted) }
{
    let parent = nav_there(tables, made);
    tables.add_frame(out, made.req, owner, nav, parent)?;
    Ok(())
}

/// A frame is removed, with all below it. The request is noted before that.
fn remove_frame(
    alloc: Global,
    tables: &mut Tables,
    blame: &mut IndexMap<StateId, ReqId>,
    out: &mut Out,
    made: &Made,
    nav: NavId,
) -> Result<(), OutOfMemory>
    ghost i: { InTake }
    requires at { IsToTake i.pass out.old tables.old i.noted made.now }
    requires noted { i.noted ≡ blame.old.entries }
    requires verdict { judged_in tables.old made.now ≡ Some verdicts.Now }
    requires asked { asked_in tables.old made.now ≡ Some (changes.RemoveFrame nav) }
    ensures taken { OnOk result (HasTaken i.pass tables.old made.now out.old out.new tables.new blame.new.entries) }
{
    note_entries(tables, blame, made.req)?;
    tables.remove_frame(alloc, out, made.req, nav)?;
    Ok(())
}
