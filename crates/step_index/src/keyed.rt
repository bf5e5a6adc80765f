//! `Keyed`, what is sorted by a number.
ghost use Rattle.std.specs.Prelude.{◌≡◌, ℕ};
ghost use Rattle.step_index.specs.Tracks.{nav_of, step_of};

use crate::track::Track;
use log_model::Row;

/// An item that a list is sorted by.
pub trait Keyed {
    ghost key: { Self → ℕ };

    /// Its number.
    fn key(&self) -> u32
        ensures { result ≡ key self.now };
}

impl Keyed for u32 {
    ghost key = { λ n. n };

    fn key(&self) -> u32 {
        *self
    }
}

impl Keyed for Row {
    ghost key = { step_of };

    fn key(&self) -> u32 {
        self.step.0
    }
}

impl Keyed for Track {
    ghost key = { nav_of };

    fn key(&self) -> u32 {
        self.nav.0
    }
}
