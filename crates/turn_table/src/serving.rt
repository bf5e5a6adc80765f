//! The steps of one turn: draw a ticket, wait for it, step the value, and let the next one in.
ghost use Rattle.std.specs.Prelude.{◌≡◌, ◌<◌, []};
ghost use Rattle.turn_table.specs.Steps.{IsServed, IsReady, IsTurnMade, drawn};

use crate::board::{Held, Place, Top};
use crate::plays::{Come, Draw, End, Read};
use crate::stepped::Stepped;
use std::snapshot::Snapshot;
use std::sync::Wait;
use std::thread;

/// Draws the next ticket. Where there is none it waits for ever.
pub(crate) fn draw<V: Stepped, R: Wait>(rt: &R, top: &Top<V>, place: &mut Place<V>) -> u64
    requires table { (place.old.table_id ≡ top.now.table_id) × (top.now.table_id.words ≡ 2) }
    requires free { place.old.me.0.stage ≡ 1 }
    ensures ticket { (place.new.me ≡ (drawn place.old.me.0 result, place.old.me.1)) × (result < 18446744073709551615) }
    ensures table { place.new.table_id ≡ place.old.table_id }
{
    for _ in rt.forever() {
        let next = top.load::<Read>(place, 1);
        if next < u64::MAX && top.compare_exchange::<Draw>(place, 1, next, next + 1) == next {
            return next;
        }
    }
    unreachable!()
}

/// Waits until the ticket is served. The load that finds it takes the value.
pub(crate) fn wait<V: Stepped, R: Wait>(rt: &R, top: &Top<V>, place: &mut Place<V>, ticket: u64)
    requires table { (place.old.table_id ≡ top.now.table_id) × (top.now.table_id.words ≡ 2) }
    requires waits { (place.old.me.0.stage ≡ 2) × (place.old.me.1 ≡ []) × (place.old.me.0.met ≡ []) × (place.old.me.0.ticket ≡ ticket) }
    ensures served { IsServed V.goes place.old.me ticket place.new.me }
    ensures table { place.new.table_id ≡ place.old.table_id }
{
    for _ in rt.forever() {
        if top.load::<Come<V>>(place, 0) == ticket {
            return;
        }
        thread::yield_now();
    }
    unreachable!()
}

/// Steps the value, and gives it back with the turn.
pub(crate) fn serve<V: Stepped>(top: &Top<V>, place: &mut Place<V>, event: V::Event) -> V::Reply
    requires table { (place.old.table_id ≡ top.now.table_id) × (top.now.table_id.words ≡ 2) }
    requires served { IsReady V.goes place.old.me }
    requires first { V.for_first event → place.old.me.0.name ≡ [] }
    ensures turn { IsTurnMade V.goes V.for_first place.old.me.0 event result place.new.me }
    ensures table { place.new.table_id ≡ place.old.table_id }
{
    let held = top.exchange(place, 0, None);
    let Some(
        Held {
            mut value,
            event: _,
            reply: _,
        },
    ) = held
    else {
        unreachable!()
    };
    let said = Snapshot::of(&event);
    let reply = value.step(event);
    let told = Snapshot::of(&reply);
    let stepped = Held {
        value,
        event: Some(said),
        reply: Some(told),
    };
    top.exchange(place, 0, Some(stepped));
    top.fetch_add::<End<V>>(place, 0, 1);
    reply
}
