//! `Seat`, which a contract sees as what it has seen of the history, its own turns, and those of the seats that were joined into it.
ghost use Rattle.std.specs.Prelude.{◌≡◌, length};
ghost use Rattle.turn_table.specs.Steps.{IsResting};

use crate::board::Place;
use crate::stepped::Stepped;

/// The right to take turns, for one thread at a time.
#[derive(Drop)]
pub struct Seat<V: Stepped> {
    pub(crate) place: Place<V>,
    pub(crate) turns: u64,
    pub(crate) mine: u64,
    ghost rests: { IsResting V.for_first place.me },
    ghost counts: { (turns ≡ length place.me.0.seen) × (mine ≡ length place.me.0.own) },
}

/// How many turns a seat has seen, and how many of them are its own.
#[derive(Clone, Copy)]
pub struct Seen {
    pub turns: u64,
    pub mine: u64,
}
