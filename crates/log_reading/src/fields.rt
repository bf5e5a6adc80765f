//! Texts and addresses, and fields that may be missing.
ghost use Rattle.std.specs.Prelude.{◌≡◌, ◌&&◌, ◌==◌, not, length, IfOk};
ghost use Rattle.std.specs.List.{list_all};
ghost use Rattle.address.specs.Addresses.{IsAddress};
ghost use Rattle.log_reading.specs.Fields as spec;
ghost use Rattle.log_reading.specs.Gives.{Gives};
ghost use Rattle.log_reading.specs.Readable.{is_word_byte, IsWord, IsMemo, IsReference, IsSlot, IsPoked, IsGoal};

use crate::fault::Fault;
use crate::naming::{doc_of, step_of};
use crate::number::small_of;
use address::{Address, AddressError, Text};
use std::alloc::Global;
use tab_ids::{DocId, Step};

/// Whether a word may have each byte of a text.
fn has_word_bytes(text: &[u8]) -> bool
    ensures { result ≡ list_all is_word_byte text.now }
{
    text.iter().all(|b| 32 < *b && *b <= 126)
}

/// Whether a text has one byte or more, each of which a word may have.
fn is_word(text: &[u8]) -> bool
    ensures { result ≡ (not (length text.now == 0) && list_all is_word_byte text.now) }
{
    !text.is_empty() && has_word_bytes(text)
}

/// A text.
#[tactic(auto, unfolding(crate::specs::Fields::text_of))]
pub fn text_of(alloc: Global, word: &[u8]) -> Result<Text, Fault>
    ensures read { Gives result (spec.text_of word.now) }
    ensures fits { IfOk result (λ text. IsWord text) }
    ensures same { IfOk result (λ text. text ≡ word.now) }
{
    if !is_word(word) {
        return Err(Fault::NoRow);
    }
    let text = Text::of(alloc, word)?;
    Ok(text)
}

/// A memo; a dash is none.
#[tactic(auto, unfolding(crate::specs::Fields::memo_of))]
pub fn memo_of(alloc: Global, word: &[u8]) -> Result<Option<Text>, Fault>
    ensures read { Gives result (spec.memo_of word.now) }
    ensures fits { IfOk result (λ memo. IsMemo memo) }
{
    if word != b"-".as_slice() {
        let memo = text_of(alloc, word)?;
        return Ok(Some(memo));
    }
    Ok(None)
}

/// A reference, where there is a word.
#[tactic(auto, unfolding(crate::specs::Fields::reference_of))]
pub fn reference_of(alloc: Global, word: &[u8]) -> Result<Option<Text>, Fault>
    ensures read { Gives result (spec.reference_of word.now) }
    ensures fits { IfOk result (λ reference. IsReference reference) }
{
    if word.is_empty() {
        return Ok(None);
    }
    let reference = text_of(alloc, word)?;
    Ok(Some(reference))
}

/// An address.
pub fn address_of(alloc: Global, word: &[u8]) -> Result<Address, Fault>
    ensures read { Gives result (spec.written_of word.now) }
    ensures fits { IfOk result (λ address. IsAddress address) }
{
    match Address::read(alloc, word) {
        Ok(address) => {
            let _text = address.text();
            Ok(address)
        }
        Err(AddressError::TooLong) => Err(Fault::NoRow),
        Err(AddressError::NotUrl) => Err(Fault::NoRow),
        Err(AddressError::BadScheme) => Err(Fault::NoRow),
        Err(AddressError::HasUser) => Err(Fault::NoRow),
        Err(AddressError::UrlOverflow(mark)) => Err(Fault::UrlOverflow(mark)),
        Err(AddressError::OutOfMemory) => Err(Fault::OutOfMemory),
    }
}

/// The handler slot of a document; a dash is none.
#[tactic(auto, unfolding(crate::specs::Fields::slot_of))]
pub fn slot_of(word: &[u8]) -> Result<Option<u8>, Fault>
    ensures read { Gives result (spec.slot_of word.now) }
    ensures fits { IfOk result (λ slot. IsSlot slot) }
{
    if word == b"-".as_slice() {
        return Ok(None);
    }
    let slot = small_of(word)?;
    Ok(Some(slot))
}

/// The document that is poked; a dash is none.
#[tactic(auto, unfolding(crate::specs::Fields::poked_of))]
pub fn poked_of(word: &[u8]) -> Result<Option<DocId>, Fault>
    ensures read { Gives result (spec.poked_of word.now) }
    ensures fits { IfOk result (λ doc. IsPoked doc) }
{
    if word == b"-".as_slice() {
        return Ok(None);
    }
    let doc = doc_of(word)?;
    Ok(Some(doc))
}

/// A traversal's goal, where there is a word.
#[tactic(auto, unfolding(crate::specs::Fields::goal_of))]
pub fn goal_of(word: &[u8]) -> Result<Option<Step>, Fault>
    ensures read { Gives result (spec.goal_of word.now) }
    ensures fits { IfOk result (λ goal. IsGoal goal) }
{
    if word.is_empty() {
        return Ok(None);
    }
    let goal = step_of(word)?;
    Ok(Some(goal))
}
