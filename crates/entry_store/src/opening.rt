//! The lists with which a tab opens.
ghost use Rattle.std.specs.Prelude.{◌≡◌, IfOk};
ghost use Rattle.log_model.specs.Opening.{opening_history};
ghost use Rattle.entry_store.specs.Kept.{history_in, IsKept};

use crate::nest::Nest;
use crate::nested::Nested;
use address::{Address, OutOfMemory};
use indexmap::IndexSet;
use log_model::Row;
use std::alloc::Global;
use std::collections::BTreeSet;
use tab_ids::{EntryId, NavId, StateId, Step};

/// One list with one entry: the top's first, at step 0, in the document state 1.
pub fn fresh_lists(alloc: Global, first: &Address) -> Result<Nested, OutOfMemory>
    ensures history { IfOk result (λ lists. history_in lists ≡ opening_history record { maker = 0; nr = 1 } record { 0 = 1 } first.now) }
    ensures kept { IfOk result (λ lists. IsKept (history_in lists) lists.used.keys) }
{
    let address = first.copy()?;
    let row = Row {
        owner: None,
        nav: NavId(0),
        entry: EntryId { maker: 0, nr: 1 },
        step: Step(0),
        state: StateId(1),
        address,
        memo: None,
    };
    let mut rows = Vec::new(alloc);
    rows.push(row)?;
    let mut nests = Vec::new(alloc);
    nests.push(Nest { rows })?;
    let mut used = BTreeSet::new(alloc);
    used.insert(0)?;
    Ok(Nested {
        nests,
        current: Step(0),
        added: IndexSet::new(alloc),
        used,
    })
}
