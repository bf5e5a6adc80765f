//! What may go wrong with an address, and the one error that any call may answer: want of memory.
ghost use Rattle.address.specs.Refusals.{IsRefusal};

use std::alloc::{AllocError, AllocFailed};
use thiserror::Error;
use url::ParseError;

/// The allocator had no memory.
#[derive(Clone, Copy, PartialEq, Eq, Debug, Error)]
#[error("out of memory")]
pub struct OutOfMemory;

impl From<AllocError> for OutOfMemory {
    fn from(_: AllocError) -> OutOfMemory {
        OutOfMemory
    }
}

impl<T: Drop> From<AllocFailed<T>> for OutOfMemory {
    fn from(_: AllocFailed<T>) -> OutOfMemory {
        OutOfMemory
    }
}

/// That the crate `url` found a URL too large for its offsets.
///
/// Only the lines of this crate around a call of `url` make one.
#[derive(Clone, Copy, PartialEq, Eq, Debug)]
pub struct Overflowed {
    mark: (),
}

/// Why a text gave no address; the earlier variant is answered where several fit.
#[derive(Clone, Copy, PartialEq, Eq, Debug, Error)]
pub enum AddressError {
    /// The text, or the URL as it is written, has more than 2,048 bytes.
    #[error("more than 2,048 bytes")]
    TooLong,
    /// The text isn't UTF-8, or no URL can be read from it.
    #[error("no URL")]
    NotUrl,
    /// The scheme isn't http or https, and the URL without its fragment isn't about:blank.
    #[error("a scheme other than http, https and about:blank")]
    BadScheme,
    /// The URL has a user name or a password.
    #[error("a user name or a password")]
    HasUser,
    /// The URL is too large for the crate `url`.
    #[error("too large for a URL")]
    UrlOverflow(Overflowed),
    /// The allocator had no memory.
    #[error("out of memory")]
    OutOfMemory,
}

impl AddressError {
    /// The error for what `url` refused.
    pub(crate) fn of_url(error: ParseError) -> AddressError
        ensures { IsRefusal error result }
    {
        match error {
            ParseError::OutOfMemory => AddressError::OutOfMemory,
            ParseError::Overflow => AddressError::UrlOverflow(Overflowed { mark: () }),
            ParseError::EmptyHost
            | ParseError::IdnaError
            | ParseError::InvalidPort
            | ParseError::InvalidIpv4Address
            | ParseError::InvalidIpv6Address
            | ParseError::InvalidDomainCharacter
            | ParseError::RelativeUrlWithoutBase
            | ParseError::RelativeUrlWithCannotBeABaseBase
            | ParseError::SetHostOnCannotBeABaseUrl
            | ParseError::CannotSet => AddressError::NotUrl,
        }
    }
}

impl From<OutOfMemory> for AddressError {
    ghost use Rattle.std.specs.Prelude.{◌≡◌};
    ghost use Rattle.address.specs.declared.error.AddressError.TheVariants as errors;

    ghost from_gives = { λ _ e. e ≡ errors.OutOfMemory };

    fn from(_: OutOfMemory) -> AddressError {
        AddressError::OutOfMemory
    }
}

impl From<AllocError> for AddressError {
    ghost use Rattle.std.specs.Prelude.{◌≡◌};
    ghost use Rattle.address.specs.declared.error.AddressError.TheVariants as errors;

    ghost from_gives = { λ _ e. e ≡ errors.OutOfMemory };

    fn from(_: AllocError) -> AddressError {
        AddressError::OutOfMemory
    }
}
