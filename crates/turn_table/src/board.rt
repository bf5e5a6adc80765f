//! The table that all seats share: word 0 is the ticket that is served, word 1 the next ticket, and slot 0 has the value.
use crate::stepped::Stepped;
use crate::view::View;
use atomic_table::{Seat, Shared, Table, TableRule};
use std::alloc::Global;
use std::marker::PhantomData;
use std::snapshot::Snapshot;

/// The value, and what the step that was made last took and gave. An event and a reply are for the proof alone.
#[derive(Drop)]
pub struct Held<V: Stepped> {
    pub value: V,
    pub event: Option<Snapshot<V::Event>>,
    pub reply: Option<Snapshot<V::Reply>>,
}

/// The rule of one history.
pub struct OneHistory<V: Stepped> {
    value: PhantomData<V>,
}

pub type Knows<V> = View<V, <V as Stepped>::Event, <V as Stepped>::Reply>;

impl<V: Stepped> TableRule<Option<Held<V>>, Knows<V>, Snapshot<V>> for OneHistory<V> {
    ghost use Rattle.turn_table.specs.Rule.{IsKept, first_view};

    ghost holds = { λ key. IsKept V.goes V.for_first key.value };

    ghost first = { λ key. first_view key.value };
}

pub type Board<V> = Table<Option<Held<V>>, Knows<V>, Snapshot<V>, OneHistory<V>, Global>;

pub type Top<V> = Shared<Option<Held<V>>, Knows<V>, Snapshot<V>, OneHistory<V>>;

pub type Place<V> = Seat<Option<Held<V>>, Knows<V>>;
