//! `ActError`, why a document made nothing of an action.
ghost use Rattle.std.specs.Prelude.{◌≡◌};
ghost use Rattle.doc_view.specs.Refusals.{refusal_of};

use address::{AddressError, OutOfMemory, Overflowed};
use thiserror::Error;

/// Why an action was refused; the earlier variant is answered where both of the first two fit.
#[derive(Clone, Copy, PartialEq, Eq, Debug, Error)]
pub enum ActError {
    /// The document doesn't run.
    #[error("the document doesn't run")]
    NotRunning,
    /// The reference gives no address, or one that the document can't be rewritten to.
    #[error("no address that the document can be rewritten to")]
    NotRewritable,
    /// The URL is too large for the crate `url`.
    #[error("too large for a URL")]
    UrlOverflow(Overflowed),
    /// The allocator had no memory.
    #[error("out of memory")]
    OutOfMemory,
}

impl From<OutOfMemory> for ActError {
    ghost use Rattle.std.specs.Prelude.{◌≡◌};
    ghost use Rattle.doc_view.specs.declared.error.ActError.TheVariants as errors;

    ghost from_gives = { λ _ e. e ≡ errors.OutOfMemory };

    fn from(_: OutOfMemory) -> ActError {
        ActError::OutOfMemory
    }
}

impl ActError {
    /// The refusal where a reference or a fragment gives no address.
    pub(crate) fn of_address(error: AddressError) -> ActError
        ensures { result ≡ refusal_of error }
    {
        match error {
            AddressError::TooLong
            | AddressError::NotUrl
            | AddressError::BadScheme
            | AddressError::HasUser => ActError::NotRewritable,
            AddressError::UrlOverflow(mark) => ActError::UrlOverflow(mark),
            AddressError::OutOfMemory => ActError::OutOfMemory,
        }
    }
}
