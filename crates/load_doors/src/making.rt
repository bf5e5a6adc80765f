//! The document of a load is to be made.
ghost use Rattle.std.specs.Prelude.{◌≡◌, ◌+◌, ◌++◌, ◌∷◌, [], false, OnOk, None, map};
ghost use Rattle.std.specs.Map.{lookup};
ghost use Rattle.seen_facts.specs.Kept.Keeping.{AreKeptDocs};
ghost use Rattle.row_facts.specs.LoadRows.LoadMaking.{IsMakeOfLoadDue};
ghost use Rattle.log_model.specs.declared.job.Task.TheVariants as tasks;
ghost use Rattle.log_model.specs.declared.row_kind.RowKind.TheVariants as rows;
ghost use Rattle.log_model.specs.Seen.{desk_of};
ghost use Rattle.nav_tree.specs.Tree.{is_state};
ghost use Rattle.seen_laws.specs.InEvent.{InEvent, now_of};
ghost use Rattle.load_table.specs.Loads.{KeepsOthers};
ghost use Rattle.tab_doors.specs.Keeping.{IsUnmadeLoad};
ghost use Rattle.tab_doors.specs.Look.{sight, sight_in};
ghost use Rattle.tab_doors.specs.Orders.{next_order};
ghost use Rattle.unasked_dues.specs.Checking.{IsForOther};
ghost use Rattle.tab_doors.specs.Working.{IsAtWork, KeepsStore};

use address::{Address, OutOfMemory};
use log_model::{Out, RowKind, Task, Why};
use tab_doors::{Birth, Tables, count_order};
use tab_ids::{DocId, NavId, ProcId, StateId};

/// The document of a navigable's load is to be made, in a process.
pub fn make_load(
    tables: &mut Tables,
    out: &mut Out,
    nav: NavId,
    state: StateId,
    proc: ProcId,
    address: Address,
    why: Why,
) -> Result<(), OutOfMemory>
    ghost e: { InEvent }
    requires work { IsAtWork e out.old tables.old }
    requires for_other { IsForOther e.checking why }
    requires due { IsMakeOfLoadDue e.header (now_of e out.old) (next_order (now_of e out.old).jobs proc (record { 0 = tables.old.documents + 1 }) why (tasks.Populate nav state address false)) nav state address }
    requires known { (desk_of (now_of e out.old) proc).known ≡ 0 }
    requires unknown { sight_in (map sight (now_of e out.old).documents) (record { 0 = tables.old.documents + 1 }) ≡ None }
    requires unmade { lookup (is_state state) tables.old.making.entries ≡ None }
    requires its { IsUnmadeLoad (now_of e out.old) tables.old.loads nav state }
    requires kept_docs { AreKeptDocs (now_of e out.old) }
    ensures work { OnOk result (IsAtWork e out.new tables.new) }
    ensures out { OnOk result (out.new ≡ out.old ++ rows.Sent (next_order (now_of e out.old).jobs proc (record { 0 = tables.old.documents + 1 }) why (tasks.Populate nav state address false)) ∷ []) }
    ensures kept { OnOk result (KeepsStore tables.old tables.new) }
    ensures asking { OnOk result (tables.new.asking ≡ tables.old.asking) }
    ensures others { OnOk result (KeepsOthers nav tables.old.loads tables.new.loads) }
{
    let task = Task::Populate {
        nav,
        state,
        address,
        initial: false,
    };
    let doc = DocId(tables.documents + 1);
    let job = count_order(&mut tables.sent, proc, doc, why, task)?;
    out.push(RowKind::Sent { job })?;
    tables.making.insert(state, doc)?;
    tables.whose.insert(doc, Birth { nav, proc })?;
    tables.documents += 1;
    tables.loads.populating(nav, doc);
    Ok(())
}
