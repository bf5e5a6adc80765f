//! `Turn`, a value and the one history of its turns.
ghost use Rattle.std.specs.Prelude.{◌≡◌, ◌≢◌, [], length, IfOk};
ghost use Rattle.turn_table.specs.Steps.{IsSound};
ghost use Rattle.turn_table.specs.Seats.{view_of, IsNew, IsTurn, IsSplit, IsUnchanged, IsJoined};

use crate::board::{Board, Held};
use crate::plays::{Cut, Glue, Meet};
use crate::seat::{Seat, Seen};
use crate::serving::{draw, serve, wait};
use crate::stepped::Stepped;
use address::OutOfMemory;
use atomic_table::Table;
use std::alloc::Global;
use std::snapshot::Snapshot;
use std::sync::Wait;

/// A value that the holders of its seats step, one after the other.
#[derive(Drop)]
pub struct Turn<V: Stepped> {
    pub(crate) board: Board<V>,
    ghost sized: { board.shared.table_id.words ≡ 2 },
}

impl<V: Stepped> Turn<V> {
    /// A table of turns on this value, and the first seat. Without memory the value is dropped.
    pub fn new(alloc: Global, value: V) -> Result<(Turn<V>, Seat<V>), OutOfMemory>
        ensures ok { IfOk result (λ t. (t.1.place.table_id ≡ t.0.board.shared.table_id) × IsNew value (view_of t.1.place)) }
    {
        let about = Snapshot::of(&value);
        let mut slots = Vec::with_capacity(alloc, 1)?;
        slots.push(Some(Held {
            value,
            event: None,
            reply: None,
        }))?;
        match Table::new(alloc, &[0, 0], slots, &about) {
            Ok((board, place)) => Ok((
                Turn { board },
                Seat {
                    place,
                    turns: 0,
                    mine: 0,
                },
            )),
            Err(_) => Err(OutOfMemory),
        }
    }

    /// Makes one turn: waits for the value, steps it, and lets the next one in.
    pub fn turn<R: Wait>(&self, rt: &R, seat: &mut Seat<V>, event: V::Event) -> V::Reply
        requires seat { seat.old.place.table_id ≡ self.now.board.shared.table_id }
        requires first { V.for_first event → (view_of seat.old.place).name ≡ [] }
        ensures turn { IsTurn V.goes (view_of seat.old.place) event result (view_of seat.new.place) }
        ensures sound { IsSound V.for_first (view_of seat.new.place) }
        ensures seat { seat.new.place.table_id ≡ seat.old.place.table_id }
    {
        let top = &self.board.shared;
        let ticket = draw(rt, top, &mut seat.place);
        wait(rt, top, &mut seat.place, ticket);
        let reply = serve(top, &mut seat.place, event);
        seat.turns = ticket + 1;
        seat.mine += 1;
        reply
    }

    /// How many turns the seat has seen, and how many of them are its own.
    pub fn look(&self, seat: &Seat<V>) -> Seen
        requires seat { seat.now.place.table_id ≡ self.now.board.shared.table_id }
        ensures counts { (result.turns ≡ length (view_of seat.now.place).seen) × (result.mine ≡ length (view_of seat.now.place).own) }
        ensures sound { IsSound V.for_first (view_of seat.now.place) }
    {
        Seen {
            turns: seat.turns,
            mine: seat.mine,
        }
    }

    /// A seat beside this one, which has seen the same. It is not the first seat.
    pub fn split(&self, seat: &mut Seat<V>) -> Seat<V>
        requires seat { seat.old.place.table_id ≡ self.now.board.shared.table_id }
        ensures new { IsSplit (view_of seat.old.place) (view_of result.place) }
        ensures same { IsUnchanged (view_of seat.old.place) (view_of seat.new.place) }
        ensures sound { IsSound V.for_first (view_of seat.new.place) × IsSound V.for_first (view_of result.place) }
        ensures seats { (seat.new.place.table_id ≡ seat.old.place.table_id) × (result.place.table_id ≡ seat.old.place.table_id) }
    {
        let top = &self.board.shared;
        let mut place = top.split_seat::<Cut>(&mut seat.place);
        top.load::<Meet<V>>(&mut place, 0);
        Seat {
            place,
            turns: seat.turns,
            mine: 0,
        }
    }

    /// Takes in another seat, which is not the first. Its turns stay known beside the seat's own.
    pub fn join(&self, seat: &mut Seat<V>, other: Seat<V>)
        requires seats { (seat.old.place.table_id ≡ self.now.board.shared.table_id) × (other.place.table_id ≡ self.now.board.shared.table_id) }
        requires other { (view_of other.place).name ≢ [] }
        ensures joined { IsJoined (view_of seat.old.place) (view_of other.place) (view_of seat.new.place) }
        ensures sound { IsSound V.for_first (view_of seat.new.place) }
        ensures seat { seat.new.place.table_id ≡ seat.old.place.table_id }
    {
        let top = &self.board.shared;
        let Seat {
            place,
            turns,
            mine: _,
        } = other;
        top.join_seat::<Glue>(&mut seat.place, place);
        top.load::<Meet<V>>(&mut seat.place, 0);
        if seat.turns < turns {
            seat.turns = turns;
        }
    }
}

/// A `Turn` and a `Seat` may be sent to another thread and shared between threads: the check proves it here.
#[allow(dead_code)]
fn cross_threads<V: Stepped + Send + Sync>(turn: &Turn<V>, seat: &Seat<V>)
where
    V::Event: Sync,
    V::Reply: Sync,
{
    needs_send_and_sync(turn);
    needs_send_and_sync(seat);
}

/// Takes what may be sent and shared.
fn needs_send_and_sync<T: Send + Sync>(_value: &T) {}
