//! What each step on the table tells its caller.
ghost use Rattle.turn_table.specs.Steps.{stayed, drew, came, ended, met, left, right, both, spent};

use crate::board::{Held, Knows};
use crate::stepped::Stepped;
use crate::view::View;
use atomic_table::{Join, Play, Split};
use std::marker::PhantomData;

pub struct Read;

impl<V: Stepped> Play<Option<Held<V>>, Knows<V>> for Read {
    ghost then = { stayed };
}

pub struct Draw;

impl<V: Stepped> Play<Option<Held<V>>, Knows<V>> for Draw {
    ghost then = { drew };
}

pub struct Come<V> {
    value: PhantomData<V>,
}

impl<V: Stepped> Play<Option<Held<V>>, Knows<V>> for Come<V> {
    ghost then = { came V.goes };
}

pub struct End<V> {
    value: PhantomData<V>,
}

impl<V: Stepped> Play<Option<Held<V>>, Knows<V>> for End<V> {
    ghost then = { ended V.for_first };
}

pub struct Meet<V> {
    value: PhantomData<V>,
}

impl<V: Stepped> Play<Option<Held<V>>, Knows<V>> for Meet<V> {
    ghost then = { met V.for_first };
}

pub struct Cut;

impl<V, E, R> Split<View<V, E, R>> for Cut {
    ghost left = { left };

    ghost right = { right };
}

pub struct Glue;

impl<V, E, R> Join<View<V, E, R>> for Glue {
    ghost both = { both };

    ghost spent = { spent };
}
