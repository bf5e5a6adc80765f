//! A navigable is moved to the document that is there for its target.
ghost use Rattle.std.specs.Prelude.{◌≡◌, ◌∷◌, [], OnOk, Some};
ghost use Rattle.apply_plan.specs.declared.need.Need.TheVariants as needs;
ghost use Rattle.seen_laws.specs.InEvent.{now_of};
ghost use Rattle.tab_doors.specs.Working.{KeepsStore};
ghost use Rattle.tab_moves.specs.Leaving.{left_in};
ghost use Rattle.tab_moves.specs.Showing.{IsTurn, need_in};
ghost use Rattle.tab_moves.specs.Making.{show_why};
ghost use Rattle.tab_moves.specs.PassedOn.{IsPassing};
ghost use Rattle.tab_moves.specs.Moving.{AreLeftUnder, InPass};
ghost use Rattle.tab_walk.specs.Cutting.{MayCutFrom, OffAreLeft};
ghost use Rattle.tab_walk.specs.Moving.{HasBeenMoved, HasOnlyMoved, InMove, MayMoveFrom, MayMoveTo, in_move};
ghost use Rattle.row_facts.specs.WalkRows.Since.{AwakeSince};

use crate::cutting::cut_left;
use crate::leaving::{make_room, set_off};
use address::OutOfMemory;
use log_model::{Header, Out, Why};
use std::alloc::Global;
use tab_doors::Tables;
use tab_evicts::doc_there;
use tab_ids::{DocId, EntryId, NavId, StateId};
use tab_moves::{row_there, show_target, show_why};
use tab_passes::begin_move;

/// The navigable leaves a document, which is kept from then on, and is shown its target by another one.
fn move_from(
    alloc: Global,
    tables: &mut Tables,
    out: &mut Out,
    nav: NavId,
    doc: DocId,
    entry: EntryId,
    state: StateId,
    left: DocId,
    old: StateId,
    cause: Why,
) -> Result<(), OutOfMemory>
    ghost m: { InMove }
    requires its { in_move m.pass nav cause doc entry left old ≡ m }
    requires passing { IsPassing m.pass out.old tables.old }
    requires may { MayMoveFrom m tables.old.running tables.old.kept.keep (now_of m.pass.event out.old) state }
    requires lefts { AreLeftUnder m.pass.event out.old nav (show_why tables.old.running cause) }
    requires off { OffAreLeft m.pass.event out.old (show_why tables.old.running cause) }
    ensures passing { OnOk result (IsPassing m.pass out.new tables.new) }
    ensures turn { OnOk result (IsTurn (now_of m.pass.event out.old) (now_of m.pass.event out.new) nav) }
    ensures wakes { OnOk result (AwakeSince (now_of m.pass.event out.old) (nav ∷ []) (now_of m.pass.event out.new)) }
    ensures moved { OnOk result (HasBeenMoved m.pass.event nav out.old out.new) }
    ensures only { OnOk result (HasOnlyMoved (show_why tables.old.running cause) out.old out.new) }
    ensures off { OnOk result (OffAreLeft m.pass.event out.new (show_why tables.old.running cause)) }
    ensures kept { OnOk result (KeepsStore tables.old tables.new) }
{
    let gone = begin_move(tables, out, doc, old)?;
    let why = show_why(tables.running, cause);
    set_off(alloc, tables, out, nav, left, why)?;
    make_room(alloc, tables, out, gone, state, why)?;
    show_target(tables, out, nav, doc, entry, cause)?;
    Ok(())
}

/// What the navigable leaves for the document, and its document state: the one that it was shown last, where that is another one and is there.
fn left_by(tables: &Tables, nav: NavId, doc: DocId) -> Option<(DocId, StateId)>
    ensures { result ≡ left_in tables.now nav doc }
{
    let last = tables.last.get(&nav).copied()?;
    if last.0 == doc.0 {
        return None;
    }
    let state = tables.tree.state_of(last)?;
    Some((last, state))
}

/// The navigable leaves a document, which can't be kept, and is shown its target by another one.
fn cut_from(
    alloc: Global,
    tables: &mut Tables,
    out: &mut Out,
    nav: NavId,
    doc: DocId,
    entry: EntryId,
    left: DocId,
    old: StateId,
    cause: Why,
) -> Result<(), OutOfMemory>
    ghost m: { InMove }
    requires its { in_move m.pass nav cause doc entry left old ≡ m }
    requires passing { IsPassing m.pass out.old tables.old }
    requires may { MayCutFrom m tables.old.running tables.old.kept.keep (now_of m.pass.event out.old) }
    requires lefts { AreLeftUnder m.pass.event out.old nav (show_why tables.old.running cause) }
    requires off { OffAreLeft m.pass.event out.old (show_why tables.old.running cause) }
    ensures passing { OnOk result (IsPassing m.pass out.new tables.new) }
    ensures turn { OnOk result (IsTurn (now_of m.pass.event out.old) (now_of m.pass.event out.new) nav) }
    ensures wakes { OnOk result (AwakeSince (now_of m.pass.event out.old) (nav ∷ []) (now_of m.pass.event out.new)) }
    ensures moved { OnOk result (HasBeenMoved m.pass.event nav out.old out.new) }
    ensures only { OnOk result (HasOnlyMoved (show_why tables.old.running cause) out.old out.new) }
    ensures off { OnOk result (OffAreLeft m.pass.event out.new (show_why tables.old.running cause)) }
    ensures kept { OnOk result (KeepsStore tables.old tables.new) }
{
    let why = show_why(tables.running, cause);
    cut_left(alloc, tables, out, nav, left, old, why)?;
    show_target(tables, out, nav, doc, entry, cause)?;
    Ok(())
}

/// The navigable is moved to its target's document, which is there. What it leaves is kept, and where too many would be, the one that is kept longest is discarded; where none may be kept, what it leaves is discarded.
pub fn move_to(
    alloc: Global,
    header: &Header,
    tables: &mut Tables,
    out: &mut Out,
    nav: NavId,
    entry: EntryId,
    cause: Why,
) -> Result<(), OutOfMemory>
    ghost p: { InPass }
    requires passing { IsPassing p out.old tables.old }
    requires header { header.now ≡ p.event.header }
    requires need { need_in tables.old nav ≡ Some (needs.Move nav entry) }
    requires may { MayMoveTo p tables.old.running tables.old.kept.keep (now_of p.event out.old) nav cause }
    requires off { OffAreLeft p.event out.old (show_why tables.old.running cause) }
    ensures passing { OnOk result (IsPassing p out.new tables.new) }
    ensures turn { OnOk result (IsTurn (now_of p.event out.old) (now_of p.event out.new) nav) }
    ensures wakes { OnOk result (AwakeSince (now_of p.event out.old) (nav ∷ []) (now_of p.event out.new)) }
    ensures moved { OnOk result (HasBeenMoved p.event nav out.old out.new) }
    ensures only { OnOk result (HasOnlyMoved (show_why tables.old.running cause) out.old out.new) }
    ensures off { OnOk result (OffAreLeft p.event out.new (show_why tables.old.running cause)) }
    ensures kept { OnOk result (KeepsStore tables.old tables.new) }
{
    let state = row_there(&tables.store, entry).state;
    let doc = doc_there(&tables.tree, state);
    match left_by(tables, nav, doc) {
        Some(left) => {
            if header.keep == 0 {
                cut_from(alloc, tables, out, nav, doc, entry, left.0, left.1, cause)?;
            } else {
                move_from(
                    alloc, tables, out, nav, doc, entry, state, left.0, left.1, cause,
                )?;
            }
        }
        None => show_target(tables, out, nav, doc, entry, cause)?,
    }
    Ok(())
}
