//! A traversal, and the look-ups for a caller that counts nothing.
ghost use Rattle.std.specs.Prelude.{◌≡◌, ◌≤◌};
ghost use Rattle.std.specs.Option.{option_map};
ghost use Rattle.log_model.specs.History.{Fits, applied, greatest_step, target_entry, used_step_at};
ghost use Rattle.log_model.specs.Order.{SameHistory};
ghost use Rattle.log_model.specs.declared.change.Change.TheVariants.{Traverse};
ghost use Rattle.step_index.specs.Tracks.{rows_of, AreTracks};
ghost use Rattle.step_index.specs.Parts.{history_in, IsIndex};

use crate::groups::{Group, has_any};
use crate::parts::Parts;
use crate::readers::{target_in, used_step_in};
use crate::ticks::Steps;
use crate::track::Track;
use std::marker::Brand;
use std::sync::ledger::{Blank, Ledger};
use tab_ids::{EntryId, NavId, Step};

/// Makes the used step of the goal current.
#[tactic(auto, using(entry_store::proofs::MoveLaw::moved_laws))]
pub fn move_in(parts: &mut Parts, goal: Step)
    requires index { IsIndex parts.old }
    requires may { goal.0 ≤ greatest_step (history_in parts.old).rows }
    ensures index { IsIndex parts.new }
    ensures fits { Fits (history_in parts.old) (Traverse goal) }
    ensures ok { SameHistory (history_in parts.new) (applied (history_in parts.old) (Traverse goal)) }
{
    parts.current = used_step(parts, goal);
}

/// The used step for a step, for a caller that counts nothing: the step itself where an entry stands at it.
pub fn used_step(parts: &Parts, s: Step) -> Step
    requires index { IsIndex parts.now }
    ensures { result.0 ≡ used_step_at (history_in parts.now).rows s.0 }
{
    if has_any(&parts.counts, Group::At(s)) {
        return s;
    }
    blank_step::<Brand>(parts, s, Blank::new(1))
}

// The same with a ledger of its own.
fn blank_step<L: Ledger>(parts: &Parts, s: Step, blank: Blank) -> Step
    requires index { IsIndex parts.now }
    requires name { blank.name ≡ L.name }
    requires parts { blank.parts ≡ L.parts }
    requires one { L.parts ≡ 1 }
    ensures { result.0 ≡ used_step_at (history_in parts.now).rows s.0 }
{
    let mut steps = Steps::<L>::new(blank);
    used_step_in(parts, s, &mut steps)
}

/// The navigable's target entry at a step, for a caller that counts nothing.
pub fn target(tracks: &[Track], nav: NavId, s: Step) -> Option<EntryId>
    requires tracks { AreTracks tracks.now }
    ensures { result ≡ option_map (λ row. row.entry) (target_entry (rows_of tracks.now) nav s.0) }
{
    blank_target::<Brand>(tracks, nav, s, Blank::new(1))
}

// The same with a ledger of its own.
fn blank_target<L: Ledger>(tracks: &[Track], nav: NavId, s: Step, blank: Blank) -> Option<EntryId>
    requires tracks { AreTracks tracks.now }
    requires name { blank.name ≡ L.name }
    requires parts { blank.parts ≡ L.parts }
    requires one { L.parts ≡ 1 }
    ensures { result ≡ option_map (λ row. row.entry) (target_entry (rows_of tracks.now) nav s.0) }
{
    let mut steps = Steps::<L>::new(blank);
    target_in(tracks, nav, s, &mut steps)
}
