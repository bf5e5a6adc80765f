ghost use Rattle.std.specs.Prelude.{◌≡◌, ◌≢◌, ◌<◌, ◌≤◌, IfOk, IsErr};
ghost use Rattle.std.specs.Thread.{IsSync};

use std::alloc::{AllocError, Global};
use std::sync::Wait;
use std::test::Fail;
use std::thread::{Threads, join};
use turn_table::{Seat, Stepped, Turn};

const TURNS: u64 = 10_000;

/// A count and a list of what was put. The event 0 takes the list out.
#[derive(Drop)]
struct Rows {
    count: u64,
    rows: Vec<u64>,
    alloc: Global,
}

#[derive(Drop)]
enum Told {
    Put,
    NoMemory,
    Gave(Vec<u64>),
}

impl Stepped for Rows {
    type Event = u64;

    type Reply = Told;

    ghost goes = { λ old event reply new. event ≢ 0 → old.count ≤ new.count };

    ghost for_first = { λ event. event ≡ 0 };

    fn step(&mut self, event: u64) -> Told {
        if event == 0 {
            let rows = std::mem::replace(&mut self.rows, Vec::new(self.alloc));
            return Told::Gave(rows);
        }
        self.count = self.count.saturating_add(1);
        match self.rows.push(event) {
            Ok(()) => Told::Put,
            Err(_) => Told::NoMemory,
        }
    }
}

fn empty_rows(alloc: Global) -> Rows {
    Rows {
        count: 0,
        rows: Vec::new(alloc),
        alloc,
    }
}

fn given(told: Told, alloc: Global) -> Vec<u64> {
    match told {
        Told::Gave(rows) => rows,
        Told::Put | Told::NoMemory => Vec::new(alloc),
    }
}

#[test]
fn two_turns_and_one_of_a_seat_split_off(rt: HostRuntime) -> Result<(), Fail> {
    let (turn, mut first) = Turn::new(rt.alloc(), empty_rows(rt.alloc()))?;
    turn.turn(&rt, &mut first, 7);
    let mut other = turn.split(&mut first);
    turn.turn(&rt, &mut other, 8);
    turn.turn(&rt, &mut first, 9);
    let seen = turn.look(&other);
    assert_eq!(rt; [seen.turns, seen.mine], [2, 1]);
    turn.join(&mut first, other);
    let seen = turn.look(&first);
    assert_eq!(rt; [seen.turns, seen.mine], [3, 2]);
    let rows = given(turn.turn(&rt, &mut first, 0), rt.alloc());
    assert_eq!(rt; rows.as_slice(), [7, 8, 9].as_slice());
    Ok(())
}

/// Makes the turns of one seat: its events are the numbers from `from` on.
fn take_turns<R: Wait>(rt: &R, turn: &Turn<Rows>, mut seat: Seat<Rows>, from: u64) -> Seat<Rows>
    requires { (seat.place.table_id ≡ turn.now.board.shared.table_id) × (0 < from) × (from < 1000000) }
    ensures { (result.place.table_id ≡ seat.place.table_id) × (result.place.me.0.name ≡ seat.place.me.0.name) }
{
    for number in 0..TURNS {
        turn.turn(rt, &mut seat, from + number);
    }
    seat
}

/// Two seats in two threads.
fn pair<R: Threads + Wait + Sync>(
    rt: &R,
    turn: &Turn<Rows>,
    one: Seat<Rows>,
    other: Seat<Rows>,
    from: u64,
) -> (Seat<Rows>, Seat<Rows>)
    requires { (one.place.table_id ≡ turn.now.board.shared.table_id) × (other.place.table_id ≡ turn.now.board.shared.table_id) × (0 < from) × (from < 500000) }
    ensures one { (result.0.place.table_id ≡ one.place.table_id) × (result.0.place.me.0.name ≡ one.place.me.0.name) }
    ensures other { (result.1.place.table_id ≡ other.place.table_id) × (result.1.place.me.0.name ≡ other.place.me.0.name) }
{
    join(
        rt,
        move || -> Seat<Rows>
            requires { (one.place.table_id ≡ turn.now.board.shared.table_id) × (0 < from) × (from < 500000) }
            ensures { (result.place.table_id ≡ one.place.table_id) × (result.place.me.0.name ≡ one.place.me.0.name) }
        { take_turns(rt, turn, one, from) },
        move || take_turns(rt, turn, other, from + 100_000),
    )
}

/// Two pairs in two threads.
fn two_pairs<R: Threads + Wait + Sync>(
    rt: &R,
    turn: &Turn<Rows>,
    one: Seat<Rows>,
    two: Seat<Rows>,
    three: Seat<Rows>,
    four: Seat<Rows>,
) -> ((Seat<Rows>, Seat<Rows>), (Seat<Rows>, Seat<Rows>))
    requires ones { (one.place.table_id ≡ turn.now.board.shared.table_id) × (two.place.table_id ≡ turn.now.board.shared.table_id) }
    requires others { (three.place.table_id ≡ turn.now.board.shared.table_id) × (four.place.table_id ≡ turn.now.board.shared.table_id) }
    ensures one { (result.0.0.place.table_id ≡ one.place.table_id) × (result.0.0.place.me.0.name ≡ one.place.me.0.name) }
    ensures two { (result.0.1.place.table_id ≡ two.place.table_id) × (result.0.1.place.me.0.name ≡ two.place.me.0.name) }
    ensures three { (result.1.0.place.table_id ≡ three.place.table_id) × (result.1.0.place.me.0.name ≡ three.place.me.0.name) }
    ensures four { (result.1.1.place.table_id ≡ four.place.table_id) × (result.1.1.place.me.0.name ≡ four.place.me.0.name) }
{
    join(
        rt,
        move || -> (Seat<Rows>, Seat<Rows>)
            requires { IsSync R.row × (one.place.table_id ≡ turn.now.board.shared.table_id) × (two.place.table_id ≡ turn.now.board.shared.table_id) }
            ensures one { (result.0.place.table_id ≡ one.place.table_id) × (result.0.place.me.0.name ≡ one.place.me.0.name) }
            ensures other { (result.1.place.table_id ≡ two.place.table_id) × (result.1.place.me.0.name ≡ two.place.me.0.name) }
        { pair(rt, turn, one, two, 100_000) },
        move || -> (Seat<Rows>, Seat<Rows>)
            requires { IsSync R.row × (three.place.table_id ≡ turn.now.board.shared.table_id) × (four.place.table_id ≡ turn.now.board.shared.table_id) }
            ensures one { (result.0.place.table_id ≡ three.place.table_id) × (result.0.place.me.0.name ≡ three.place.me.0.name) }
            ensures other { (result.1.place.table_id ≡ four.place.table_id) × (result.1.place.me.0.name ≡ four.place.me.0.name) }
        { pair(rt, turn, three, four, 300_000) },
    )
}

/// In a list of events each seat's own are in order, each once, and all are there.
fn is_interleaving(rows: &[u64]) -> bool {
    let mut next = [0, 0, 0, 0];
    for row in rows {
        let seat = (*row / 100_000) as usize;
        if seat < 1 || seat > 4 || *row % 100_000 != next[seat - 1] {
            return false;
        }
        next[seat - 1] = *row % 100_000 + 1;
    }
    next == [TURNS, TURNS, TURNS, TURNS]
}

#[test]
fn four_seats_in_four_threads(rt: HostRuntime) -> Result<(), Fail> {
    let (turn, mut first) = Turn::new(rt.alloc(), empty_rows(rt.alloc()))?;
    let (one, two) = (turn.split(&mut first), turn.split(&mut first));
    let (three, four) = (turn.split(&mut first), turn.split(&mut first));
    let ((one, two), (three, four)) = two_pairs(&rt, &turn, one, two, three, four);
    turn.join(&mut first, one);
    turn.join(&mut first, two);
    turn.join(&mut first, three);
    turn.join(&mut first, four);
    let seen = turn.look(&first);
    assert_eq!(rt; [seen.turns, seen.mine], [4 * TURNS, 0]);
    let rows = given(turn.turn(&rt, &mut first, 0), rt.alloc());
    assert!(rt; is_interleaving(rows.as_slice()));
    Ok(())
}

/// A count that has room for so many steps, and answers that it finds no memory after those.
#[derive(Drop)]
struct Cramped {
    count: u64,
    room: u64,
}

impl Stepped for Cramped {
    type Event = ();

    type Reply = Result<u64, AllocError>;

    ghost goes = { λ old event reply new. (IsErr reply → new.count ≡ old.count) × IfOk reply (λ count. count ≡ new.count) };

    ghost for_first = { λ event. ⊥ };

    fn step(&mut self, _event: ()) -> Result<u64, AllocError> {
        if self.count >= self.room {
            return Err(AllocError);
        }
        self.count += 1;
        Ok(self.count)
    }
}

#[test]
fn a_step_without_memory_is_a_turn_like_another(rt: HostRuntime) -> Result<(), Fail> {
    let (turn, mut first) = Turn::new(rt.alloc(), Cramped { count: 0, room: 1 })?;
    assert_eq!(rt; turn.turn(&rt, &mut first, ()).ok(), Some(1));
    assert!(rt; turn.turn(&rt, &mut first, ()).is_err());
    assert!(rt; turn.turn(&rt, &mut first, ()).is_err());
    let seen = turn.look(&first);
    assert_eq!(rt; [seen.turns, seen.mine], [3, 3]);
    Ok(())
}
