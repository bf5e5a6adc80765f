//! Where each entry is looked for. What is noted of an entry that has no row any more does no harm: the row that is found is asked for its entry.
ghost use Rattle.std.specs.Prelude.{◌≡◌, ◌<◌, ◌≤◌, None, Some, IsOk, OnOk, OnErr};
ghost use Rattle.indexmap.specs.IndexMap.{spare};
ghost use Rattle.step_index.specs.Noted.{place_of, NotesOne};

use address::OutOfMemory;
use indexmap::IndexMap;
use tab_ids::{EntryId, NavId, Step};

/// A navigable and a step.
#[derive(Clone, Copy)]
pub struct Place {
    pub nav: NavId,
    pub step: Step,
}

/// Where an entry is looked for.
pub fn place_of(noted: &IndexMap<EntryId, Place>, entry: EntryId) -> Option<Place>
    ensures { result ≡ place_of entry noted.now.entries }
{
    noted.get(&entry).copied()
}

/// Notes where an entry stands; without memory all is as it was.
pub fn note_place(
    noted: &mut IndexMap<EntryId, Place>,
    entry: EntryId,
    place: Place,
) -> Result<(), OutOfMemory>
    ensures ok { OnOk result (NotesOne noted.old.entries entry (Some place) noted.new.entries) }
    ensures err { OnErr result (noted.new.entries ≡ noted.old.entries) }
    ensures succeeds { 0 < spare noted.old → IsOk result }
{
    noted.insert(entry, place)?;
    Ok(())
}

/// The same, where there is room for it.
pub fn note_in_room(noted: &mut IndexMap<EntryId, Place>, entry: EntryId, place: Place)
    requires room { 0 < spare noted.old }
    ensures { NotesOne noted.old.entries entry (Some place) noted.new.entries }
{
    match note_place(noted, entry, place) {
        Ok(()) => {}
        Err(_) => unreachable!(),
    }
}

/// Forgets where an entry stood.
pub fn forget_place(noted: &mut IndexMap<EntryId, Place>, entry: EntryId)
    ensures one { NotesOne noted.old.entries entry None noted.new.entries }
    ensures room { spare noted.old ≤ spare noted.new }
{
    noted.swap_remove(&entry);
}
