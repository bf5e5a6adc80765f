//! A document that nothing needs is discarded as it is made.
ghost use Rattle.std.specs.Prelude.{◌≡◌, ◌∷◌, [], None, OnOk};
ghost use Rattle.log_model.specs.declared.job.Task.TheVariants as tasks;
ghost use Rattle.log_model.specs.declared.row_kind.RowKind.TheVariants as rows;
ghost use Rattle.row_facts.specs.Owed.Owed.{IsLoose};
ghost use Rattle.seen_laws.specs.InEvent.{now_of};
ghost use Rattle.tab_doors.specs.Orders.{order_to};
ghost use Rattle.tab_doors.specs.Working.{KeepsRun, MayDiscardIn};
ghost use Rattle.tab_facts.specs.Calm.Calm.{IsCalmYet};
ghost use Rattle.tab_stands.specs.Standing.{HasLogged, HasRoomFor, StandsFor, seen_start};
ghost use Rattle.tab_unneeded.specs.Made.{InMade, IsMadeUnneeded, IsReadyThen};

use address::OutOfMemory;
use log_model::{Out, Why};
use std::alloc::Global;
use tab_doors::Tables;
use tab_ids::{DocId, NavId, StateId};
use tab_passes::discard;

/// A document was made for a document state that has neither an entry nor an ongoing load any more, and for no request: it is noted, and discarded at once for what it was made for. A pass may follow then; while a traversal in its unload check holds the queue, one that sweeps. HTML Standard, "destroy a document".
pub fn discard_made(
    alloc: Global,
    tables: &mut Tables,
    out: &mut Out,
    doc: DocId,
    state: StateId,
    why: Why,
) -> Result<(), OutOfMemory>
    ghost m: { InMade }
    requires keep { tables.old.kept.keep ≡ m.event.header.keep }
    requires first { out.old ≡ [] }
    requires room { HasRoomFor (seen_start m.event) }
    requires stands { StandsFor m.check (seen_start m.event) tables.old m.queue m.noted }
    requires made { IsMadeUnneeded m doc state why }
    requires logged { HasLogged m.event tables.old.checks tables.old.asking }
    requires free { MayDiscardIn m.check.holds m.event }
    ensures out { OnOk result (out.new ≡ rows.Sent (order_to (now_of m.event []) doc why tasks.Discard) ∷ []) }
    ensures ready { OnOk result (IsReadyThen m out.new tables.new) }
    ensures loose { OnOk result (IsLoose m.event out.new) }
    ensures calm { OnOk result (tables.old.running ≡ None → IsCalmYet (now_of m.event out.new)) }
    ensures kept { OnOk result (KeepsRun tables.old tables.new) }
{
    // Its clause says that each navigable has one load at most.
    let _one = tables.loads.of(NavId(0));
    tables.note_made(state, doc)?;
    discard(alloc, tables, out, doc, state, why)?;
    Ok(())
}
