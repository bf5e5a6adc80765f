//! The fields of a line, each read from a word.
ghost use Rattle.std.specs.Prelude.{◌≡◌, ◌++◌, codes, bytes_eq, IfOk};
ghost use Rattle.address.specs.Addresses.{IsAddress};
ghost use Rattle.scenario_text.specs.Readings as spec;
ghost use Rattle.scenario_text.specs.Written.{IsWrittenOrigin, IsWrittenBase};
ghost use Rattle.scenario_text.specs.Gives.{GivesLine};
ghost use Rattle.scenario_text.specs.Standing.{IsStanding, Stands};

use crate::fault::LineError;
use crate::number::number_of;
use crate::reason::Reason;
use crate::share::{StandingLine, shared};
use crate::word::is_word;
use address::{Address, AddressError, OutOfMemory, Text};
use log_model::Mode;
use std::alloc::Global;
use tab_ids::{NavId, ProcId, ReqId};

/// The number of a navigable.
pub fn nav_of(bytes: &[u8]) -> Result<NavId, LineError>
    ensures { GivesLine result (spec.nav_of bytes.now) }
{
    let number = number_of(bytes, 0, 4_095)?;
    Ok(NavId(number))
}

/// The number of a child navigable.
pub fn child_of(bytes: &[u8]) -> Result<NavId, LineError>
    ensures { GivesLine result (spec.child_of bytes.now) }
{
    let number = number_of(bytes, 1, 4_095)?;
    Ok(NavId(number))
}

/// The number of a process.
pub fn proc_of(bytes: &[u8]) -> Result<ProcId, LineError>
    ensures { GivesLine result (spec.proc_of bytes.now) }
{
    let number = number_of(bytes, 1, 16)?;
    Ok(ProcId(number))
}

/// The number of a request.
pub fn request_of(bytes: &[u8]) -> Result<ReqId, LineError>
    ensures { GivesLine result (spec.request_of bytes.now) }
{
    let number = number_of(bytes, 1, 65_535)?;
    Ok(ReqId(number))
}

/// How many documents are kept.
pub fn keep_of(bytes: &[u8]) -> Result<u32, LineError>
    ensures { GivesLine result (spec.keep_of bytes.now) }
{
    let number = number_of(bytes, 0, 64)?;
    Ok(number)
}

/// The place of a handler.
pub fn slot_of(bytes: &[u8]) -> Result<u8, LineError>
    ensures { GivesLine result (spec.slot_of bytes.now) }
{
    let number = number_of(bytes, 0, 63)?;
    Ok(number as u8)
}

/// How a load is handled.
pub fn mode_of(bytes: &[u8]) -> Result<Mode, LineError>
    ensures { GivesLine result (spec.mode_of bytes.now) }
{
    if bytes == b"auto".as_slice() {
        Ok(Mode::Auto)
    } else if bytes == b"push".as_slice() {
        Ok(Mode::Push)
    } else if bytes == b"replace".as_slice() {
        Ok(Mode::Replace)
    } else {
        Err(LineError::Faulty(Reason::Mode))
    }
}

/// Whether the user stays.
pub fn stay_of(bytes: &[u8]) -> Result<bool, LineError>
    ensures { GivesLine result (spec.stay_of bytes.now) }
{
    if bytes == b"stay".as_slice() {
        Ok(true)
    } else if bytes == b"leave".as_slice() {
        Ok(false)
    } else {
        Err(LineError::Faulty(Reason::Mode))
    }
}

/// A memo, after which so many bytes of the line follow; `-` is none.
pub fn memo_of(
    line: StandingLine<'_>,
    bytes: &[u8],
    after: usize,
) -> Result<Option<Text>, LineError>
    requires line { IsStanding line }
    requires word { Stands line.bytes.now bytes.now after }
    ensures { GivesLine result (spec.memo_of bytes.now) }
{
    if is_word(bytes, b"-".as_slice()) {
        return Ok(None);
    }
    if bytes.is_empty() || bytes.len() > 64 {
        return Err(LineError::Faulty(Reason::Memo));
    }
    let memo = shared(line, bytes, after)?;
    Ok(Some(memo))
}

/// A reference or the text of a fragment, the last word of the line, which is read once a document acts on it.
pub fn text_of(line: StandingLine<'_>, bytes: &[u8]) -> Result<Text, LineError>
    requires line { IsStanding line }
    requires word { Stands line.bytes.now bytes.now 0 }
    ensures { GivesLine result (spec.text_of bytes.now) }
{
    if bytes.is_empty() || bytes.len() > 2_048 {
        return Err(LineError::Faulty(Reason::UrlLength));
    }
    let text = shared(line, bytes, 0)?;
    Ok(text)
}

/// An address.
pub fn address_of(alloc: Global, bytes: &[u8]) -> Result<Address, LineError>
    ensures read { GivesLine result (spec.address_field bytes.now) }
    ensures kept { IfOk result (λ address. IsAddress address) }
{
    match Address::read(alloc, bytes) {
        Ok(address) => {
            let _text = address.text();
            Ok(address)
        }
        Err(AddressError::TooLong) => Err(LineError::Faulty(Reason::UrlLength)),
        Err(AddressError::NotUrl) => Err(LineError::Faulty(Reason::NotUrl)),
        Err(AddressError::BadScheme) => Err(LineError::Faulty(Reason::Scheme)),
        Err(AddressError::HasUser) => Err(LineError::Faulty(Reason::User)),
        Err(AddressError::UrlOverflow(mark)) => Err(LineError::UrlOverflow(mark)),
        Err(AddressError::OutOfMemory) => Err(LineError::OutOfMemory),
    }
}

/// Whether a text is this origin with the path `/`.
fn is_with_root(alloc: Global, text: &[u8], origin: &[u8]) -> Result<bool, OutOfMemory>
    ensures { IfOk result (λ it. it ≡ bytes_eq text.now (origin.now ++ codes "/")) }
{
    let mut root = Vec::from_slice(alloc, origin)?;
    root.push(b'/')?;
    Ok(text == root.as_slice())
}

/// The origin of a `site`.
#[tactic(auto, using(crate::proofs::WrittenLaws::addresses), unfolding(crate::specs::Readings::origin_field))]
pub fn origin_of(alloc: Global, bytes: &[u8]) -> Result<Text, LineError>
    ensures read { GivesLine result (spec.origin_field bytes.now) }
    ensures written { IfOk result (λ origin. IsWrittenOrigin origin) }
{
    let address = address_of(alloc, bytes)?;
    let is_root = is_with_root(alloc, address.text(), address.origin())?;
    if is_root {
        let origin = Text::of(alloc, address.origin())?;
        Ok(origin)
    } else {
        Err(LineError::Faulty(Reason::Origin))
    }
}

/// The address of a `page`.
#[tactic(auto, using(crate::proofs::WrittenLaws::addresses), unfolding(crate::specs::Readings::base_field))]
pub fn base_of(alloc: Global, bytes: &[u8]) -> Result<Text, LineError>
    ensures read { GivesLine result (spec.base_field bytes.now) }
    ensures written { IfOk result (λ base. IsWrittenBase base) }
{
    let address = address_of(alloc, bytes)?;
    if address.fragment().is_some() {
        return Err(LineError::Faulty(Reason::Fragment));
    }
    let base = Text::of(alloc, address.text())?;
    Ok(base)
}
