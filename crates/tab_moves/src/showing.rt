//! A navigable is shown its target by the document that is there for it.
ghost use Rattle.std.specs.Prelude.{◌≡◌, ◌+◌, ◌<◌, ◌^◌, OnOk, IsSome, IfSome, Some, [], option_map};
ghost use Rattle.log_model.specs.History.{row_of};
ghost use Rattle.nav_tree.specs.Tree.{nav_of};
ghost use Rattle.seen_laws.specs.InEvent.{now_of};
ghost use Rattle.step_index.specs.Held.{history_held};
ghost use Rattle.tab_doors.specs.Working.{KeepsStore};
ghost use Rattle.tab_moves.specs.Showing.{InShowing, IsShownBy, IsToShow, IsTurn};
ghost use Rattle.tab_passes.specs.Causes.{show_why};
ghost use Rattle.tab_passes.specs.Leaving.{IsLeaving};
ghost use Rattle.tab_passes.specs.Passing.{IsPassing};

use address::OutOfMemory;
use entry_store::Store;
use log_model::{Out, Row, Why, copy_memo};
use nav_tree::NavTree;
use step_index::StepIndex;
use tab_doors::Tables;
use tab_ids::{DocId, EntryId, Epoch, NavId, ReqId};
use tab_passes::{aim, pair_at};

/// What the order that shows a navigable its document is for: the traversal that runs, where one does.
pub fn show_why(running: Option<ReqId>, cause: Why) -> Why
    ensures { result ≡ show_why running cause }
{
    match running {
        Some(req) => Why::Req(req),
        None => cause,
    }
}

/// The row of an entry that has one.
pub fn row_there(store: &StepIndex, entry: EntryId) -> &Row
    requires { IsSome (row_of entry (history_held store.now).rows) }
    ensures { row_of entry (history_held store.now).rows ≡ Some result.now }
{
    match store.row(entry) {
        Some(row) => row,
        None => unreachable!(),
    }
}

/// The epoch after a navigable's.
fn next_epoch(tree: &NavTree, nav: NavId) -> Epoch
    requires there { IsSome (nav_of nav tree.now) }
    requires room { IfSome (nav_of nav tree.now) (λ n. n.epoch.0 + 1 < 2 ^ 64) }
    ensures { option_map (λ n. n.epoch.0 + 1) (nav_of nav tree.now) ≡ Some result.0 }
{
    match tree.nav(nav) {
        Some(fields) => Epoch(fields.epoch.0 + 1),
        None => unreachable!(),
    }
}

/// The navigable is shown its target's entry by its document, for which nobody falls asleep. Where a move to it had begun, that ends.
pub fn show_target(
    tables: &mut Tables,
    out: &mut Out,
    nav: NavId,
    doc: DocId,
    entry: EntryId,
    cause: Why,
) -> Result<(), OutOfMemory>
    ghost m: { InShowing }
    requires leaving { IsLeaving m.pass m.move [] out.old tables.old }
    requires shows { IsToShow m.move tables.old.running tables.old.kept.keep (now_of m.pass.event out.old) nav doc entry cause }
    ensures passing { OnOk result (IsPassing m.pass out.new tables.new) }
    ensures turn { OnOk result (IsTurn (now_of m.pass.event out.old) (now_of m.pass.event out.new) nav) }
    ensures shown { OnOk result (IsShownBy (now_of m.pass.event out.old) tables.old nav doc entry (show_why tables.old.running cause) out.old out.new) }
    ensures kept { OnOk result (KeepsStore tables.old tables.new) }
{
    let (length, index) = pair_at(tables, aim(tables));
    let epoch = next_epoch(&tables.tree, nav);
    let row = row_there(&tables.store, entry);
    let state = row.state;
    let memo = copy_memo(&row.memo)?;
    let address = row.address.copy()?;
    let why = show_why(tables.running, cause);
    tables.show(
        out, nav, doc, state, why, entry, epoch, length, index, memo, address,
    )?;
    Ok(())
}
