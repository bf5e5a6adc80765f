//! What a seat knows, as the rule of the table reads it. No value of these types is made.
use std::collections::LinkedList;

/// A turn of the history: the name of the seat that made it, its event and its reply.
pub struct Row<E, R> {
    /// A clause reads an array as a list, of any length.
    pub seat: [u64; 0],
    pub event: E,
    pub reply: R,
}

/// A name and its own turns.
pub struct Named<E, R> {
    pub name: [u64; 0],
    pub own: LinkedList<Row<E, R>>,
}

/// What one seat knows.
pub struct View<V, E, R> {
    /// 0 where it is spent, 1 with no ticket, 2 with a ticket, 3 where it is served.
    pub stage: u64,
    pub ticket: u64,
    /// The numbers of the splits that led to it, the first seat's none.
    pub name: [u64; 0],
    /// How often it was split.
    pub splits: u64,
    /// The value that the history began with.
    pub opening: Option<V>,
    /// The turns that it has seen.
    pub seen: LinkedList<Row<E, R>>,
    /// What the seat that was joined last had seen, until both have met.
    pub met: LinkedList<Row<E, R>>,
    /// Its own turns.
    pub own: LinkedList<Row<E, R>>,
    /// The names and turns of the seats that were joined into it, or into one that it took in.
    pub kept: LinkedList<Named<E, R>>,
}
