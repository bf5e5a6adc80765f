//! The texts of lines.
ghost use Rattle.std.specs.Prelude.{◌≡◌, ◌<◌, IfOk, Ok};
ghost use Rattle.scenario_make.specs.Turns as spec;
ghost use Rattle.address.specs.Addresses.{address_of};

use crate::error::MakeError;
use address::{Address, AddressError, OutOfMemory, Text};
use std::alloc::Global;

/// The address that is spelled as it is written.
pub fn address(alloc: Global, text: &[u8]) -> Result<Address, MakeError>
    requires { address_of text.now ≡ Ok text.now }
    ensures { IfOk result (λ address. address ≡ text.now) }
{
    match Address::read(alloc, text) {
        Ok(address) => Ok(address),
        Err(AddressError::UrlOverflow(mark)) => Err(MakeError::UrlOverflow(mark)),
        Err(AddressError::OutOfMemory) => Err(MakeError::OutOfMemory),
        Err(AddressError::TooLong) => unreachable!(),
        Err(AddressError::NotUrl) => unreachable!(),
        Err(AddressError::BadScheme) => unreachable!(),
        Err(AddressError::HasUser) => unreachable!(),
    }
}

/// The letter of a host.
fn host_text(host: u32) -> &'static str
    ensures { result.now ≡ spec.host_text host }
{
    match host {
        0 => "a",
        1 => "b",
        _ => "c",
    }
}

/// The address of a page of a host.
pub fn page_address(alloc: Global, host: u32, page: u32) -> Result<Address, MakeError>
    requires host { host < 3 }
    requires page { page < 4 }
    ensures { IfOk result (λ address. address ≡ spec.page_address host page) }
{
    let host = host_text(host);
    let text = format!(in alloc; "http://{host}.test/p{page}")?;
    let address = address(alloc, text.as_bytes())?;
    Ok(address)
}

/// The path of a page, as a reference.
pub fn page_path(alloc: Global, page: u32) -> Result<Text, OutOfMemory>
    ensures { IfOk result (λ text. text ≡ spec.page_path page) }
{
    let text = format!(in alloc; "/p{page}")?;
    let text = Text::of(alloc, text.as_bytes())?;
    Ok(text)
}

/// The text of a fragment.
pub fn fragment_text(alloc: Global, page: u32) -> Result<Text, OutOfMemory>
    ensures { IfOk result (λ text. text ≡ spec.fragment_text page) }
{
    let text = format!(in alloc; "f{page}")?;
    let text = Text::of(alloc, text.as_bytes())?;
    Ok(text)
}
