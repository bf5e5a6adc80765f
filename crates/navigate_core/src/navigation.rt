//! Whether a navigation goes to a fragment, and the change of one whose document is there.
ghost use Rattle.std.specs.Prelude.{◌≡◌, IfOk};
ghost use Rattle.log_model.specs.Places.{is_fragment_navigation};
ghost use Rattle.navigate_core.specs.Navigations.{change_for};

use address::{Address, OutOfMemory, same_base};
use load_table::Load;
use log_model::Change;
use tab_ids::EntryId;

/// Whether a navigation from a document at an address to another address stays with the document: the addresses are the same, their fragments aside, and the other one has a fragment. It takes no memory. HTML Standard, "navigate to a fragment".
pub fn is_fragment(from: &Address, to: &Address) -> bool
    ensures { result ≡ is_fragment_navigation from.now to.now }
{
    same_base(from, to) && to.fragment().is_some()
}

/// The change that a load makes: `entry` is its new entry's number, and `over` the entry that a replace takes the place of. A push doesn't read `over`. HTML Standard, "finalize a cross-document navigation".
pub fn finalise(load: &Load, over: EntryId, entry: EntryId) -> Result<Change, OutOfMemory>
    ensures { IfOk result (λ change. change ≡ change_for load.now over entry) }
{
    let address = load.address.copy()?;
    if load.replace {
        return Ok(Change::Replace {
            nav: load.nav,
            over,
            entry,
            state: load.state,
            address,
            memo: None,
        });
    }
    Ok(Change::Push {
        nav: load.nav,
        entry,
        state: load.state,
        address,
        memo: None,
    })
}
