//! `Address`, which a contract sees as its written text.
ghost use Rattle.std.specs.Prelude.{◌≡◌, ◌≢◌, ◌↔◌, ◌≤◌, [], length, true, false, IfErr, IfOk, IfSome};
ghost use Rattle.std.specs.Option.{option_copied};
ghost use Rattle.std.specs.Str.{is_utf8};
ghost use Rattle.url.specs.Canonical.{IsCanonical};
ghost use Rattle.url.specs.Parts.{IsValid, serialize};
ghost use Rattle.url.specs.Setters.{set_fragment};
ghost use Rattle.address.specs.Addresses.{IsAddress, IsAddressUrl, IsFragmentError, Reads, address_of, base_of, base_text, blank_text, fragment_of, origin_of, origin_text, resolved};
ghost use Rattle.address.specs.Addresses as spec;

use crate::error::{AddressError, OutOfMemory};
use crate::reading::{as_text, judge, origin, parse, readable, with_fragment};
use std::alloc::Global;
use std::marker::Model;
use std::sync::Arc;
use url::{Position, Url};

/// A URL of http or https with no user name and no password, or about:blank; at most 2,048 bytes.
///
/// A copy shares the allocation of its source.
#[derive(Drop)]
pub struct Address {
    alloc: Global,
    url: Arc<Url>,
}

impl Model for Address {
    ghost use Rattle.std.specs.Prelude.{List, ℕ};
    ghost use Rattle.url.specs.Parts.{serialize};
    ghost use Rattle.std.specs.Arc.{arc_value};
    ghost use Rattle.address.specs.Addresses.{IsAddressUrl};

    ghost Value = { List ℕ };

    ghost view = { λ a. serialize (arc_value a.url) };

    ghost invariant = { λ a. IsAddressUrl (arc_value a.url) };
}

impl Address {
    /// about:blank.
    ///
    /// An overflow of the crate `url` is told as want of memory, since there is no other error.
    pub fn blank(alloc: Global) -> Result<Address, OutOfMemory>
        ensures text { IfOk result (λ address. address ≡ blank_text) }
        ensures base { IfOk result (λ address. base_of address ≡ blank_text) }
        ensures fragment { IfOk result (λ address. fragment_of address ≡ None) }
        ensures origin { IfOk result (λ address. origin_of address ≡ []) }
    {
        match Address::read(alloc, b"about:blank") {
            Ok(address) => Ok(address),
            // No fault is found in this text, so it is want of memory or an overflow.
            Err(_) => Err(OutOfMemory),
        }
    }

    /// The address that a text spells.
    #[tactic(auto, unfolding(crate::specs::Addresses::address_of))]
    pub fn read(alloc: Global, text: &[u8]) -> Result<Address, AddressError>
        ensures { Reads result (address_of text.now) }
    {
        Address::read_against(alloc, None, text)
    }

    /// The address that a reference spells, read against this one.
    #[tactic(auto, using(crate::proofs::Urls::of_url), unfolding(crate::specs::Addresses::resolved))]
    pub fn resolve(&self, reference: &[u8]) -> Result<Address, AddressError>
        ensures { Reads result (resolved self.now reference.now) }
    {
        Address::read_against(self.alloc, Some(&self.url), reference)
    }

    /// This address with another fragment. The rest of the text stays.
    ///
    /// Tabs and line ends in the text are left out, and what a fragment may not hold is escaped.
    #[tactic(auto, using(crate::proofs::Fragments::of_text), unfolding(crate::specs::Addresses::with_fragment))]
    pub fn with_fragment(&self, text: &[u8]) -> Result<Address, AddressError>
        ensures value { Reads result (spec.with_fragment self.now text.now) }
        ensures not_url { (result ≡ Err AddressError.NotUrl) ↔ (is_utf8 text.now ≡ false) }
        ensures others { IfErr result IsFragmentError }

        ensures same_base { IfOk result (λ address. base_of address ≡ base_of self.now) }
        ensures same_origin { IfOk result (λ address. origin_of address ≡ origin_of self.now) }
    {
        match as_text(text) {
            Some(text) => {
                let address = Address::fragmented(self.alloc, &self.url, text)?;
                Ok(address)
            }
            None => Err(AddressError::NotUrl),
        }
    }

    // The address that bytes spell, against the URL of an address where there is one.
    #[tactic(auto, using(crate::proofs::Urls::parsed), unfolding(crate::specs::Addresses::judged_parse))]
    fn read_against(
        alloc: Global,
        base: Option<&Url>,
        bytes: &[u8],
    ) -> Result<Address, AddressError>
        requires { IfSome (option_copied base) IsAddressUrl }
        ensures { Reads result (spec.read_against (option_copied base.entry) bytes.now) }
    {
        let text = readable(bytes)?;
        match parse(alloc, base, text) {
            Ok(url) => Address::judged(alloc, url),
            Err(error) => Err(AddressError::of_url(error)),
        }
    }

    // The address with a URL that the parser wrote.
    #[tactic(auto, using(crate::proofs::Urls::kept))]
    fn judged(alloc: Global, url: Url) -> Result<Address, AddressError>
        requires { IsValid url → IsCanonical url }
        ensures { Reads result (spec.judged url) }
    {
        judge(&url)?;
        let address = Address::of_url(alloc, url)?;
        Ok(address)
    }

    // The address with the URL of another and a fragment: only the length is judged again.
    #[tactic(auto, using(crate::proofs::Fragments::short))]
    fn fragmented(alloc: Global, url: &Url, text: &str) -> Result<Address, AddressError>
        requires { IsAddressUrl url.now }
        ensures value { Reads result (spec.judged (set_fragment url.now (Some text.now))) }
        ensures others { IfErr result IsFragmentError }
        ensures is_url { result ≢ Err AddressError.NotUrl }
        ensures base { IfOk result (λ address. base_of address ≡ base_text url.now) }
        ensures origin { IfOk result (λ address. origin_of address ≡ origin_text url.now) }
    {
        let url = with_fragment(url, text)?;
        if url.as_str().len() > 2048 {
            return Err(AddressError::TooLong);
        }
        let address = Address::of_url(alloc, url)?;
        Ok(address)
    }

    // The address with a URL that may be one.
    fn of_url(alloc: Global, url: Url) -> Result<Address, OutOfMemory>
        requires { IsAddressUrl url }
        ensures { IfOk result (λ address. address ≡ serialize url) }
    {
        let url = Arc::new(alloc, url)?;
        Ok(Address { alloc, url })
    }

    /// The written text.
    #[tactic(auto, using(crate::proofs::Roots::texts))]
    pub fn text(&self) -> &[u8]
        ensures value { result.now ≡ self.now }
        ensures short { length self.now ≤ 2048 }
        ensures reads { IsAddress self.now }
    {
        self.url.as_str().as_bytes()
    }

    /// The written text without `#` and fragment.
    #[tactic(auto, using(crate::proofs::Urls::readers))]
    pub fn base(&self) -> &[u8]
        ensures { result.now ≡ base_of self.now }
    {
        self.url
            .slice(Position::BeforeScheme, Position::AfterQuery)
            .as_bytes()
    }

    /// What follows the `#`, where there is one.
    #[tactic(auto, using(crate::proofs::Urls::readers))]
    pub fn fragment(&self) -> Option<&[u8]>
        ensures { option_copied result ≡ fragment_of self.now }
    {
        Some(self.url.fragment()?.as_bytes())
    }

    /// Scheme, host and port as they are written; empty for about:blank.
    #[tactic(auto, using(crate::proofs::Urls::readers))]
    pub fn origin(&self) -> &[u8]
        ensures { result.now ≡ origin_of self.now }
    {
        origin(&self.url)
    }

    /// The same address; no byte is copied.
    pub fn copy(&self) -> Result<Address, OutOfMemory>
        ensures { IfOk result (λ address. address ≡ self.now) }
    {
        let url = self.url.clone()?;
        Ok(Address {
            alloc: self.alloc,
            url,
        })
    }
}
