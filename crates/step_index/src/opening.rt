//! The history with which a tab opens.
ghost use Rattle.std.specs.Prelude.{◌≡◌, ◌∷◌, [], None, Some, IfOk};
ghost use Rattle.log_model.specs.Opening.{opening_history};
ghost use Rattle.entry_store.specs.Kept.{IsKept};
ghost use Rattle.step_index.specs.Groups.{AreCounted, CountsRow};
ghost use Rattle.step_index.specs.Noted.{place_of, AreNoted};
ghost use Rattle.step_index.specs.Starts.{AreStarted};
ghost use Rattle.step_index.specs.Tracks.{rows_of, AreTracks};
ghost use Rattle.step_index.specs.Parts.{history_in};

use crate::groups::{Group, take_row};
use crate::noted::{Place, note_place};
use crate::parts::Parts;
use crate::track::Track;
use address::{Address, OutOfMemory};
use indexmap::{IndexMap, IndexSet};
use log_model::Row;
use std::alloc::Global;
use tab_ids::{EntryId, NavId, StateId, Step};

/// One navigable with one entry: the top's first, at step 0, in the document state 1.
pub fn fresh_parts(alloc: Global, first: &Address) -> Result<Parts, OutOfMemory>
    ensures history { IfOk result (λ parts. history_in parts ≡ opening_history record { maker = 0; nr = 1 } record { 0 = 1 } first.now) }
    ensures kept { IfOk result (λ parts. IsKept (history_in parts) parts.used.items) }
    ensures tracks { IfOk result (λ parts. AreTracks parts.tracks.items) }
    ensures noted { IfOk result (λ parts. AreNoted parts.noted.entries (rows_of parts.tracks.items)) }
    ensures counted { IfOk result (λ parts. AreCounted parts.counts.entries (rows_of parts.tracks.items)) }
    ensures started { IfOk result (λ parts. AreStarted parts.starts.entries (rows_of parts.tracks.items)) }
{
    let address = first.copy()?;
    let row = Row {
        owner: None,
        nav: NavId(0),
        entry: EntryId { maker: 0, nr: 1 },
        step: Step(0),
        state: StateId(1),
        address,
        memo: None,
    };
    let noted = first_noted(alloc)?;
    let starts = first_starts(alloc)?;
    let counts = first_counts(alloc)?;
    let mut rows = Vec::new(alloc);
    rows.push(row)?;
    let mut tracks = Vec::new(alloc);
    tracks.push(Track {
        nav: NavId(0),
        rows,
    })?;
    let mut used = Vec::new(alloc);
    used.push(0)?;
    Ok(Parts {
        tracks,
        gaps: 0,
        noted,
        starts,
        counts,
        used,
        current: Step(0),
        added: IndexSet::new(alloc),
    })
}

// Where the top's first entry stands.
fn first_noted(alloc: Global) -> Result<IndexMap<EntryId, Place>, OutOfMemory>
    ensures { IfOk result (λ noted. place_of record { maker = 0; nr = 1 } noted.entries ≡ Some (record { nav = record { 0 = 0 }; step = record { 0 = 0 } })) }
{
    let mut noted = IndexMap::new(alloc);
    note_place(
        &mut noted,
        EntryId { maker: 0, nr: 1 },
        Place {
            nav: NavId(0),
            step: Step(0),
        },
    )?;
    Ok(noted)
}

// Where its document state starts.
fn first_starts(alloc: Global) -> Result<IndexMap<StateId, Step>, OutOfMemory>
    ensures { IfOk result (λ starts. starts.entries ≡ (record { 0 = 1 }, record { 0 = 0 }) ∷ []) }
{
    let mut starts = IndexMap::new(alloc);
    starts.insert(StateId(1), Step(0))?;
    Ok(starts)
}

// How many rows stand at its step, and how many hang on each document state.
fn first_counts(alloc: Global) -> Result<IndexMap<Group, usize>, OutOfMemory>
    ensures { IfOk result (λ counts. CountsRow [] (record { 0 = 0 }) None counts.entries) }
{
    let mut counts = IndexMap::new(alloc);
    take_row(&mut counts, Step(0), None)?;
    Ok(counts)
}
