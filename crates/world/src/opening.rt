//! Where the first document lives, and the log with which a tab opens.
ghost use Rattle.std.specs.Prelude.{◌≡◌, ◌∷◌, [], IfOk, bytes_eq, find};
ghost use Rattle.std.specs.Option.{option_copied};
ghost use Rattle.log_model.specs.Suits.{process_of_origin};
ghost use Rattle.world.specs.Open as spec;
ghost use Rattle.world.specs.Opening.{opening_row};

use address::OutOfMemory;
use history_log::Log;
use log_model::{Actor, Header, LogRow, RowKind, Site};
use std::alloc::Global;
use tab_ids::{DocId, EntryId, ProcId, StateId};

/// The process of the first document.
#[tactic(auto, unfolding(crate::specs::Open::opening_process))]
pub(crate) fn opening_process(header: &Header) -> ProcId
    ensures { result ≡ spec.opening_process header.now }
{
    if header.first.base() == b"about:blank".as_slice() {
        return ProcId(1);
    }
    process_of_origin(header, header.first.origin())
}

/// The process of an origin: that of its site.
fn process_of_origin(header: &Header, origin: &[u8]) -> ProcId
    ensures { result ≡ process_of_origin header.now origin.now }
{
    match site_of(header.sites.as_slice(), origin) {
        Some(site) => site.proc,
        None => ProcId(1),
    }
}

/// The site of an origin.
fn site_of<'a>(sites: &'a [Site], origin: &[u8]) -> Option<&'a Site>
    ensures { option_copied result ≡ find (λ site. bytes_eq site.origin origin.now) sites.now }
{
    sites.iter().find(|site| site.origin.bytes() == origin)
}

/// The log of a tab that was just opened, with its document in a process.
pub(crate) fn opening_log(alloc: Global, header: &Header, proc: ProcId) -> Result<Log, OutOfMemory>
    ensures { IfOk result (λ log. log ≡ opening_row header.now.first proc ∷ []) }
{
    let address = header.first.copy()?;
    Log::fresh(
        alloc,
        LogRow {
            event: 0,
            actor: Actor::Start,
            row: RowKind::Opened {
                entry: EntryId { maker: 0, nr: 1 },
                state: StateId(1),
                doc: DocId(1),
                proc,
                slot: None,
                address,
            },
        },
    )
}
