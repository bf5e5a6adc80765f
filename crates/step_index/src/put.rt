//! A row put where there is room for it.
ghost use Rattle.std.specs.Prelude.{◌≡◌, ◌<◌, ◌≤◌, true, false, nat_le};
ghost use Rattle.std.specs.List.{list_any};
ghost use Rattle.tab_ids.specs.declared.NavId.{NavId};
ghost use Rattle.log_model.specs.History.{has_row, used_steps, with_step};
ghost use Rattle.log_model.specs.Soundness.{is_entry};
ghost use Rattle.indexmap.specs.IndexMap.{spare};
ghost use Rattle.entry_store.specs.Kept.{IsKept, PutsRow};
ghost use Rattle.step_index.specs.Groups.{AreCounted, CountsLess, AreBelow};
ghost use Rattle.step_index.specs.Tracks.{rows_of, AreTracks, IsTrackAt, is_from};
ghost use Rattle.step_index.specs.Cut.{rows_upto, rows_past, HasRowRoom};
ghost use Rattle.step_index.specs.Parts.{history_in, IsIndex, IsFiled, HasRoom};

use crate::cut::{cut_tracks, cut_used};
use crate::groups::count_row;
use crate::noted::{Place, note_in_room};
use crate::parts::Parts;
use crate::places::find_nav;
use crate::push::greatest_step_in;
use crate::starts::start_in_room;
use crate::track::Track;
use log_model::Row;

/// Clears the forward session history, where nothing up to the current step hangs on it, and puts a row past that step.
pub fn put_cleared(parts: &mut Parts, row: Row)
    requires index { IsIndex parts.old }
    requires room { HasRoom parts.old row.nav }
    requires count_room { 2 ≤ spare parts.old.counts }
    requires below { AreBelow parts.old.counts.entries row.step row.owner }
    requires left { has_row row.nav (rows_upto parts.old.current.0 (rows_of parts.old.tracks.items)) ≡ true }
    requires new { list_any (is_entry row.entry) (rows_of parts.old.tracks.items) ≡ false }
    requires past { parts.old.current.0 < row.step.0 }
    ensures filed { IsFiled parts.new }
    ensures counted { AreCounted parts.new.counts.entries (rows_of parts.new.tracks.items) }
    ensures rows { PutsRow (rows_upto parts.old.current.0 (rows_of parts.old.tracks.items)) row (rows_of parts.new.tracks.items) }
    ensures used { parts.new.used.items ≡ with_step row.step.0 (used_steps (rows_upto parts.old.current.0 (rows_of parts.old.tracks.items))) }
    ensures current { parts.new.current ≡ parts.old.current }
    ensures added { parts.new.added.keys ≡ parts.old.added.keys }
{
    count_row(&mut parts.counts, row.step, row.owner);
    clear_forward(parts);
    put_row(parts, row);
}

// Takes out the entries past the current step.
fn clear_forward(parts: &mut Parts)
    requires kept { IsKept (history_in parts.old) parts.old.used.items }
    requires filed { IsFiled parts.old }
    ensures filed { IsFiled parts.new }
    ensures rows { rows_of parts.new.tracks.items ≡ rows_upto parts.old.current.0 (rows_of parts.old.tracks.items) }
    ensures used { parts.new.used.items ≡ used_steps (rows_upto parts.old.current.0 (rows_of parts.old.tracks.items)) }
    ensures counts { CountsLess parts.old.counts.entries (rows_past parts.old.current.0 (rows_of parts.old.tracks.items)) parts.new.counts.entries }
    ensures room { (nav : NavId) → HasRoom parts.old nav → HasRoom parts.new nav }
    ensures current { parts.new.current ≡ parts.old.current }
    ensures added { parts.new.added.keys ≡ parts.old.added.keys }
{
    if greatest_step_in(parts) <= parts.current {
        return;
    }
    cut_tracks(
        &mut parts.tracks,
        &mut parts.noted,
        &mut parts.starts,
        &mut parts.counts,
        parts.current,
    );
    cut_used(&mut parts.used, parts.current);
}

// Puts a row behind the others of its navigable, at a step past the used ones.
fn put_row(parts: &mut Parts, row: Row)
    requires filed { IsFiled parts.old }
    requires room { HasRoom parts.old row.nav }
    requires there { has_row row.nav (rows_of parts.old.tracks.items) ≡ true }
    requires new { list_any (is_entry row.entry) (rows_of parts.old.tracks.items) ≡ false }
    requires last { list_any (is_from row.nav row.step.0) (rows_of parts.old.tracks.items) ≡ false }
    requires beyond { list_any (λ step. nat_le row.step.0 step) parts.old.used.items ≡ false }
    ensures filed { IsFiled parts.new }
    ensures rows { PutsRow (rows_of parts.old.tracks.items) row (rows_of parts.new.tracks.items) }
    ensures counts { parts.new.counts.entries ≡ parts.old.counts.entries }
    ensures used { parts.new.used.items ≡ with_step row.step.0 parts.old.used.items }
    ensures current { parts.new.current ≡ parts.old.current }
    ensures added { parts.new.added.keys ≡ parts.old.added.keys }
{
    let place = Place {
        nav: row.nav,
        step: row.step,
    };
    note_in_room(&mut parts.noted, row.entry, place);
    start_in_room(&mut parts.starts, row.state, row.step);
    parts.used.push_reserved(row.step.0);
    put_in_track(&mut parts.tracks, row);
}

// Puts a row behind the others of its navigable.
fn put_in_track(tracks: &mut Vec<Track>, row: Row)
    requires tracks { AreTracks tracks.old.items }
    requires room { HasRowRoom row.nav tracks.old.items }
    requires there { has_row row.nav (rows_of tracks.old.items) ≡ true }
    requires last { list_any (is_from row.nav row.step.0) (rows_of tracks.old.items) ≡ false }
    ensures tracks { AreTracks tracks.new.items }
    ensures rows { PutsRow (rows_of tracks.old.items) row (rows_of tracks.new.items) }
{
    match find_nav(tracks, row.nav) {
        Ok(at) => put_at(tracks, at, row),
        Err(_) => unreachable!(),
    }
}

// The same, in the navigable's track.
fn put_at(tracks: &mut Vec<Track>, at: usize, row: Row)
    requires tracks { AreTracks tracks.old.items }
    requires place { IsTrackAt tracks.old.items row.nav at }
    requires room { HasRowRoom row.nav tracks.old.items }
    requires last { list_any (is_from row.nav row.step.0) (rows_of tracks.old.items) ≡ false }
    ensures tracks { AreTracks tracks.new.items }
    ensures rows { PutsRow (rows_of tracks.old.items) row (rows_of tracks.new.items) }
{
    let track = &mut tracks[at];
    track.rows.push_reserved(row);
}
