//! Decimal numbers.
ghost use Rattle.std.specs.Prelude.{◌≡◌, ◌≤◌, IfOk};
ghost use Rattle.log_reading.specs.Fields as spec;
ghost use Rattle.log_reading.specs.Gives.{Gives};
ghost use Rattle.log_reading.specs.Readable.{IsDelta};

use crate::fault::Fault;

/// The number that digits write, up to the greatest.
pub fn number_of(word: &[u8], greatest: u64) -> Result<u64, Fault>
    ensures read { Gives result (spec.number_of greatest word.now) }
    ensures within { IfOk result (λ number. number ≤ greatest) }
{
    let mut number: u64 = 0;
    for b in word {
        if !b.is_ascii_digit() {
            return Err(Fault::NoRow);
        }
        let next = u128::from(number) * 10 + u128::from(*b - b'0');
        if next > u128::from(greatest) {
            return Err(Fault::NoRow);
        }
        number = next as u64;
    }
    Ok(number)
}

/// A number of one byte.
pub fn small_of(word: &[u8]) -> Result<u8, Fault>
    ensures { Gives result (spec.small_of word.now) }
{
    let number = number_of(word, 255)?;
    Ok(number as u8)
}

/// A number of four bytes.
pub fn plain_of(word: &[u8]) -> Result<u32, Fault>
    ensures { Gives result (spec.plain_of word.now) }
{
    let number = number_of(word, 4_294_967_295)?;
    Ok(number as u32)
}

/// A number of eight bytes.
pub fn large_of(word: &[u8]) -> Result<u64, Fault>
    ensures { Gives result (spec.large_of word.now) }
{
    number_of(word, 18_446_744_073_709_551_615)
}

/// A number of at most four bytes, after a letter.
pub fn named_of(word: &[u8], letter: u8) -> Result<u32, Fault>
    ensures { Gives result (spec.named_of letter 4294967295 word.now) }
{
    let [first, digits @ ..] = word else {
        return Err(Fault::NoRow);
    };
    if *first == letter {
        plain_of(digits)
    } else {
        Err(Fault::NoRow)
    }
}

/// A number of at most eight bytes, after a letter.
pub fn large_named_of(word: &[u8], letter: u8) -> Result<u64, Fault>
    ensures { Gives result (spec.named_of letter 18446744073709551615 word.now) }
{
    let [first, digits @ ..] = word else {
        return Err(Fault::NoRow);
    };
    if *first == letter {
        large_of(digits)
    } else {
        Err(Fault::NoRow)
    }
}

/// How far a traversal goes, after `-` back.
#[tactic(auto, unfolding(crate::specs::Fields::delta_of))]
pub fn delta_of(word: &[u8]) -> Result<i32, Fault>
    ensures read { Gives result (spec.delta_of word.now) }
    ensures fits { IfOk result (λ delta. IsDelta delta) }
{
    let [first, digits @ ..] = word else {
        return Err(Fault::NoRow);
    };
    if *first == b'-' {
        let number = number_of(digits, 2_147_483_648)?;
        return Ok((-(number as i64)) as i32);
    }
    let number = number_of(word, 2_147_483_647)?;
    Ok(number as i32)
}
