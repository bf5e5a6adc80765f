//! Where a navigable's entries stand, and a new entry put behind them.
ghost use Rattle.std.specs.Prelude.{◌≡◌, false, IfOk, IfErr, OnOk, OnErr};
ghost use Rattle.std.specs.List.{list_any};
ghost use Rattle.entry_store.specs.Kept.{PutsRow};
ghost use Rattle.step_index.specs.Tracks.{rows_of, AreTracks, IsTrackAt, IsGap, is_from};

use crate::search::uncounted_upto;
use crate::track::Track;
use address::OutOfMemory;
use log_model::Row;
use tab_ids::NavId;

/// The place of a navigable's entries, or else the one where they would stand.
pub fn find_nav(tracks: &[Track], nav: NavId) -> Result<usize, usize>
    requires tracks { AreTracks tracks.now }
    ensures here { IfOk result (λ at. IsTrackAt tracks.now nav at) }
    ensures gap { IfErr result (λ at. IsGap tracks.now nav at) }
{
    let upto = uncounted_upto(tracks, nav.0);
    if upto > 0 && tracks[upto - 1].nav == nav {
        Ok(upto - 1)
    } else {
        Err(upto)
    }
}

/// Puts a row behind the others of its navigable; without memory the tracks stay.
pub fn put_last(tracks: &mut Vec<Track>, row: Row) -> Result<(), OutOfMemory>
    requires tracks { AreTracks tracks.old.items }
    requires last { list_any (is_from row.nav row.step.0) (rows_of tracks.old.items) ≡ false }
    ensures tracks { AreTracks tracks.new.items }
    ensures ok { OnOk result (PutsRow (rows_of tracks.old.items) row (rows_of tracks.new.items)) }
    ensures err { OnErr result (rows_of tracks.new.items ≡ rows_of tracks.old.items) }
{
    match find_nav(tracks, row.nav) {
        Ok(at) => put_behind(tracks, at, row),
        Err(at) => put_track(tracks, at, row),
    }
}

// Puts a row at the end of a navigable's.
fn put_behind(tracks: &mut Vec<Track>, at: usize, row: Row) -> Result<(), OutOfMemory>
    requires tracks { AreTracks tracks.old.items }
    requires place { IsTrackAt tracks.old.items row.nav at }
    requires last { list_any (is_from row.nav row.step.0) (rows_of tracks.old.items) ≡ false }
    ensures tracks { AreTracks tracks.new.items }
    ensures ok { OnOk result (PutsRow (rows_of tracks.old.items) row (rows_of tracks.new.items)) }
    ensures err { OnErr result (rows_of tracks.new.items ≡ rows_of tracks.old.items) }
{
    let track = &mut tracks[at];
    track.rows.push(row)?;
    Ok(())
}

// Puts a navigable's first row where its rows would stand.
fn put_track(tracks: &mut Vec<Track>, at: usize, row: Row) -> Result<(), OutOfMemory>
    requires tracks { AreTracks tracks.old.items }
    requires gap { IsGap tracks.old.items row.nav at }
    ensures tracks { AreTracks tracks.new.items }
    ensures ok { OnOk result (PutsRow (rows_of tracks.old.items) row (rows_of tracks.new.items)) }
    ensures err { OnErr result (rows_of tracks.new.items ≡ rows_of tracks.old.items) }
{
    let nav = row.nav;
    let mut rows = Vec::new(*tracks.allocator());
    rows.push(row)?;
    tracks.insert(at, Track { nav, rows })?;
    Ok(())
}
