//! The table of checks is told of what an event discarded, and the user is asked where a document wants it.
ghost use Rattle.load_prompts.specs.Prompting.{AreToAskAbout, HasAskedAbout};
ghost use Rattle.std.specs.Prelude.{◌≡◌, [], OnOk};
ghost use Rattle.tab_prompts.specs.Asking.{BeginsAsked};
ghost use Rattle.tab_settles.specs.PassedOn.{InPass, IsPassing};

use address::OutOfMemory;
use log_model::{Docs, Out};
use std::alloc::Global;
use tab_asks::tell_rows;
use tab_doors::Tables;
use tab_ids::ReqId;
use tab_prompts::{prompt_settled, waiting_among};

/// The table of checks is told of what the event discarded, the run that lasted before (`run`) first; then the user is asked about each of these requests whose last question that settled and for which a document wants it, in their order. They are all that are under way and in their checks. Behind it no run lasts of which the table wasn't told. HTML Standard, "checking if unloading is canceled".
pub fn ask_about(
    alloc: Global,
    tables: &mut Tables,
    run: &mut Docs,
    out: &mut Out,
    reqs: &[ReqId],
) -> Result<(), OutOfMemory>
    ghost p: { InPass }
    requires run { run.old ≡ p.event.ran }
    requires passing { IsPassing p out.old tables.old }
    requires begins { BeginsAsked p.event tables.old.checks }
    requires about { AreToAskAbout p.event out.old tables.old.checks reqs.now }
    ensures asked { OnOk result (HasAskedAbout p reqs.now out.old out.new tables.old tables.new) }
    ensures none { OnOk result (run.new ≡ []) }
{
    let waited = waiting_among(alloc, &tables.checks, reqs)?;
    tell_rows(alloc, &mut tables.checks, run, out)?;
    prompt_settled(&tables.checks, out, waited.as_slice())?;
    Ok(())
}
