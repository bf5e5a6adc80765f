//! What the crate `url` reads, and what of it decides whether a URL may be an address.
ghost use Rattle.std.specs.Prelude.{◌≡◌, ◌≢◌, ◌≤◌, true, false, length, Option, OnOk, MatchOption, MatchResult};
ghost use Rattle.std.specs.Option.{option_copied};
ghost use Rattle.std.specs.Str.{is_utf8};
ghost use Rattle.url.specs.Parser.{Gives, parse_url};
ghost use Rattle.url.specs.Parts.{IsValid, Parts, has_credentials, serialize};
ghost use Rattle.url.specs.Setters.{set_fragment};
ghost use Rattle.address.specs.Addresses as spec;
ghost use Rattle.address.specs.Addresses.{IsFault, IsFragmentError, judged_parse, read_against};

use crate::error::AddressError;
use std::alloc::Global;
use std::str;
use url::{ParseResult, Position, Url};

/// The bytes as a text, where they are UTF-8.
#[tactic(auto, using(crate::proofs::Bytes::utf8_tests))]
pub(crate) fn as_text(bytes: &[u8]) -> Option<&str>
    ensures { MatchOption result
        (is_utf8 bytes.now ≡ false)
        (λ text. (text.now ≡ bytes.now) × (is_utf8 bytes.now ≡ true)) }
{
    match str::from_utf8(bytes) {
        Ok(text) => Some(text),
        Err(_) => None,
    }
}

/// The bytes as a text, where they are few enough and UTF-8.
#[tactic(auto, unfolding(crate::specs::Addresses::read_against))]
pub(crate) fn readable(bytes: &[u8]) -> Result<&str, AddressError>
    ensures { MatchResult result
        (λ text. (text.now ≡ bytes.now)
        × ((base : Option Parts) →
        read_against base bytes.now ≡ judged_parse (parse_url base bytes.now)))
        (λ error. (base : Option Parts) → IsFault error (read_against base bytes.now)) }
{
    if bytes.len() > 2048 {
        return Err(AddressError::TooLong);
    }
    match as_text(bytes) {
        Some(text) => Ok(text),
        None => Err(AddressError::NotUrl),
    }
}

/// The URL that a text spells, against a base where there is one.
pub(crate) fn parse(alloc: Global, base: Option<&Url>, text: &str) -> ParseResult<Url>
    ensures { Gives result (parse_url (option_copied base.entry) text.now) }
{
    match base {
        Some(base) => base.join(text),
        None => Url::parse(alloc, text),
    }
}

/// Whether the URL's scheme is http or https.
#[tactic(auto, unfolding(crate::specs::Addresses::is_web))]
pub(crate) fn is_web(url: &Url) -> bool
    ensures { result ≡ spec.is_web url.now }
{
    let scheme = url.scheme();
    scheme == "http" || scheme == "https"
}

/// Whether the URL, its fragment aside, is about:blank.
#[tactic(auto, unfolding(crate::specs::Addresses::is_blank_url))]
pub(crate) fn is_blank(url: &Url) -> bool
    ensures { result ≡ spec.is_blank_url url.now }
{
    url.slice(Position::BeforeScheme, Position::AfterQuery) == "about:blank"
}

/// Whether the URL has a user name or a password.
pub(crate) fn has_user(url: &Url) -> bool
    ensures { result ≡ has_credentials url.now }
{
    !url.username().is_empty() || url.password().is_some()
}

/// Whether the URL may be an address, or the first test that it fails.
#[tactic(auto, unfolding(crate::specs::Addresses::judged))]
pub(crate) fn judge(url: &Url) -> Result<(), AddressError>
    ensures judged { MatchResult result
        (λ _. spec.judged url.now ≡ Ok (serialize url.now))
        (λ error. IsFault error (spec.judged url.now)) }
    ensures valid { OnOk result (IsValid url.now) }
{
    if !is_web(url) && !is_blank(url) {
        return Err(AddressError::BadScheme);
    }
    if has_user(url) {
        return Err(AddressError::HasUser);
    }
    if url.as_str().len() > 2048 {
        return Err(AddressError::TooLong);
    }
    Ok(())
}

/// The URL's scheme, host and port as they are written; empty for another scheme than http and https.
#[tactic(auto, unfolding(crate::specs::Addresses::origin_text))]
pub(crate) fn origin(url: &Url) -> &[u8]
    ensures { result.now ≡ spec.origin_text url.now }
{
    if is_web(url) {
        url.slice(Position::BeforeScheme, Position::AfterPort)
            .as_bytes()
    } else {
        &[]
    }
}

/// The URL with another fragment.
pub(crate) fn with_fragment(url: &Url, text: &str) -> Result<Url, AddressError>
    ensures { MatchResult result
        (λ new. new ≡ set_fragment url.now (Some text.now))
        (λ error. IsFragmentError error × (error ≢ AddressError.NotUrl)
        × (error ≢ AddressError.TooLong)) }
{
    let mut new = url.clone()?;
    match new.set_fragment(Some(text)) {
        Ok(()) => Ok(new),
        Err(error) => Err(AddressError::of_url(error)),
    }
}
