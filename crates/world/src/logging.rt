//! The rows of an event.
ghost use Rattle.std.specs.Prelude.{◌≡◌, ◌++◌, ◌∷◌, [], fold, map, take, length, OnOk, OnErr};
ghost use Rattle.world.specs.Notes.{endings_noted, row_with};
ghost use Rattle.tab_ids.specs.declared.ProcId.{ProcId};
ghost use Rattle.proc_tables.specs.Desks.{desk_at, desk_noted};

use crate::endings::note_ending;
use address::OutOfMemory;
use history_log::Log;
use log_model::{Actor, Ending, LogRow, Out, RowKind};
use proc_tables::Desks;

/// Logs what the coordinator put out, and notes it in the lists of the processes and in the table of endings.
pub(crate) fn log_work(
    log: &mut Log,
    desks: &mut Desks,
    endings: &mut Vec<Option<Ending>>,
    event: u32,
    actor: Actor,
    out: &Out,
) -> Result<(), OutOfMemory>
    ensures log { OnOk result (log.new ≡ log.old ++ map (row_with event actor) out.now) }
    ensures desks { OnOk result ((proc : ProcId) → desk_at desks.new proc ≡ fold (desk_noted proc) (desk_at desks.old proc) out.now) }
    ensures endings { OnOk result (endings.new.items ≡ fold endings_noted endings.old.items out.now) }
    ensures err { OnErr result (take (length log.old) log.new ≡ log.old) }
{
    for row in out.as_slice() {
        desks.note(row)?;
        note_ending(endings, row);
        let row = row.copy()?;
        log.push_row(LogRow { event, actor, row })?;
    }
    Ok(())
}

/// Logs a row of an event.
pub(crate) fn log_row(
    log: &mut Log,
    event: u32,
    actor: Actor,
    row: RowKind,
) -> Result<(), OutOfMemory>
    ensures ok { OnOk result (log.new ≡ log.old ++ row_with event actor row ∷ []) }
    ensures err { OnErr result (log.new ≡ log.old) }
{
    log.push_row(LogRow { event, actor, row })?;
    Ok(())
}
