//! The table of checks is told of the documents that rows discarded.
ghost use Rattle.std.specs.Prelude.{◌≡◌, [], OnOk};
ghost use Rattle.checking_facts.specs.Prompts.{discarded_by, tell_row, told_all, told_by};
ghost use Rattle.log_model.specs.declared.row_kind.RowKind.TheVariants as rows;

use address::OutOfMemory;
use log_model::{Docs, Job, Out, RowKind, Task};
use std::alloc::Global;
use tab_ids::DocId;
use unload_check::UnloadCheck;

/// The document that an order discards.
fn discarded_in(job: &Job) -> Option<DocId>
    ensures { result ≡ discarded_by (rows.Sent job.now) }
{
    match job.task {
        Task::Discard => Some(job.doc),
        _ => None,
    }
}

/// The document that a row discards.
fn discarded_by(row: &RowKind) -> Option<DocId>
    ensures { result ≡ discarded_by row.now }
{
    match row {
        RowKind::Sent { job } => discarded_in(job),
        _ => None,
    }
}

/// The run of discarded documents (`run`) once one more row was put out. A row that ends it tells the table.
fn tell_row(
    alloc: Global,
    checks: &mut UnloadCheck,
    run: &mut Docs,
    row: &RowKind,
) -> Result<(), OutOfMemory>
    ensures { OnOk result (record { checks = checks.new; run = run.new } ≡ tell_row (record { checks = checks.old; run = run.old }) row.now) }
{
    match discarded_by(row) {
        Some(doc) => {
            run.push(doc)?;
            Ok(())
        }
        None => {
            checks.died(run);
            *run = Docs::new(alloc);
            Ok(())
        }
    }
}

/// Tells the table of each run of discarded documents that a row ended. `run` is the one that lasted before these rows, and then the one that lasts behind them.
pub fn tell_ended(
    alloc: Global,
    checks: &mut UnloadCheck,
    run: &mut Docs,
    out: &Out,
) -> Result<(), OutOfMemory>
    ensures { OnOk result (record { checks = checks.new; run = run.new } ≡ told_by run.old checks.old out.now) }
{
    for row in out.as_slice() {
        tell_row(alloc, checks, run, row)?;
    }
    Ok(())
}

/// Tells a table of checks, as it was before these rows, of the documents that they discarded, one run after the other; the first goes on with the one that lasted before (`run`), and the last ends here.
pub fn tell_rows(
    alloc: Global,
    checks: &mut UnloadCheck,
    run: &mut Docs,
    out: &Out,
) -> Result<(), OutOfMemory>
    ensures told { OnOk result (checks.new ≡ told_all run.old checks.old out.now) }
    ensures none { OnOk result (run.new ≡ []) }
{
    tell_ended(alloc, checks, run, out)?;
    checks.died(run);
    *run = Docs::new(alloc);
    Ok(())
}
