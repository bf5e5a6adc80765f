//! Room for one entry more, made before anything is changed.
ghost use Rattle.std.specs.Prelude.{◌≡◌, ◌<◌, ◌≤◌, vec_len, vec_capacity, OnOk};
ghost use Rattle.indexmap.specs.IndexMap.{spare};
ghost use Rattle.step_index.specs.Cut.{HasRowRoom};
ghost use Rattle.step_index.specs.Groups.{AreBelow};
ghost use Rattle.step_index.specs.Tracks.{rows_of, AreTracks, IsTrackAt};
ghost use Rattle.step_index.specs.Parts.{history_in, IsIndex, HasRoom};

use crate::groups::reserve_counts;
use crate::noted::Place;
use crate::parts::Parts;
use crate::track::Track;
use address::OutOfMemory;
use indexmap::IndexMap;
use tab_ids::{EntryId, NavId, StateId, Step};

/// Makes room for one entry more of the navigable at the place, at the step, which hangs on the owner.
pub fn make_room(
    parts: &mut Parts,
    nav: NavId,
    at: usize,
    step: Step,
    owner: Option<StateId>,
) -> Result<(), OutOfMemory>
    requires index { IsIndex parts.old }
    requires place { IsTrackAt parts.old.tracks.items nav at }
    ensures index { IsIndex parts.new }
    ensures same { history_in parts.new ≡ history_in parts.old }
    ensures used { parts.new.used.items ≡ parts.old.used.items }
    ensures room { OnOk result (HasRoom parts.new nav) }
    ensures count_room { OnOk result (2 ≤ spare parts.new.counts) }
    ensures below { OnOk result (AreBelow parts.new.counts.entries step owner) }
{
    reserve_lists(&mut parts.noted, &mut parts.starts, &mut parts.used)?;
    reserve_counts(&mut parts.counts, step, owner)?;
    reserve_row(&mut parts.tracks, nav, at)?;
    Ok(())
}

// Room in what is kept beside the tracks.
fn reserve_lists(
    noted: &mut IndexMap<EntryId, Place>,
    starts: &mut IndexMap<StateId, Step>,
    used: &mut Vec<u32>,
) -> Result<(), OutOfMemory>
    ensures noted { noted.new.entries ≡ noted.old.entries }
    ensures starts { starts.new.entries ≡ starts.old.entries }
    ensures used { used.new.items ≡ used.old.items }
    ensures note_room { OnOk result (0 < spare noted.new) }
    ensures start_room { OnOk result (0 < spare starts.new) }
    ensures used_room { OnOk result (vec_len used.new < vec_capacity used.new) }
{
    reserve_notes(noted, starts)?;
    used.reserve(1)?;
    Ok(())
}

/// Room for what is noted of an entry.
pub fn reserve_notes(
    noted: &mut IndexMap<EntryId, Place>,
    starts: &mut IndexMap<StateId, Step>,
) -> Result<(), OutOfMemory>
    ensures noted { noted.new.entries ≡ noted.old.entries }
    ensures starts { starts.new.entries ≡ starts.old.entries }
    ensures note_room { OnOk result (0 < spare noted.new) }
    ensures start_room { OnOk result (0 < spare starts.new) }
{
    noted.reserve(1)?;
    starts.reserve(1)?;
    Ok(())
}

// Room in the navigable's track.
fn reserve_row(tracks: &mut Vec<Track>, nav: NavId, at: usize) -> Result<(), OutOfMemory>
    requires tracks { AreTracks tracks.old.items }
    requires place { IsTrackAt tracks.old.items nav at }
    ensures tracks { AreTracks tracks.new.items }
    ensures rows { rows_of tracks.new.items ≡ rows_of tracks.old.items }
    ensures room { OnOk result (HasRowRoom nav tracks.new.items) }
{
    let track = &mut tracks[at];
    track.rows.reserve(1)?;
    Ok(())
}
