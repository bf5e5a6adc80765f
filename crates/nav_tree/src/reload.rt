//! `ReloadPhase`, how far a reload has come.

/// How far a reload of a navigable has come: none is pending, its new document isn't live yet, or it is.
#[derive(Clone, Copy, PartialEq, Eq, Debug)]
pub enum ReloadPhase {
    Idle,
    Due,
    Ready,
}
