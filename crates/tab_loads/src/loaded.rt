//! `Loaded`, what became of a load as the user asked for it.

/// What became of a load as the user asked for it.
#[derive(Clone, Copy, PartialEq, Eq, Debug)]
pub enum Loaded {
    /// There was a reason against it.
    Refused,
    /// Its navigable, or one above it, isn't shown or doesn't stand: it was dropped.
    CutOff,
    /// Its navigable's document was sent to a fragment.
    ToFragment,
    /// It is to begin, and asks somebody before: a document that it leaves has an unload handler. Nothing was done for it yet.
    Asks,
    /// It has begun, and its document is to be made.
    Begun,
}
