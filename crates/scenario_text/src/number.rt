//! Decimal numbers.
ghost use Rattle.std.specs.Prelude.{◌≡◌, ◌≤◌, ◌&&◌, nat_le, Some, None, IfOk, if◌then◌else◌};
ghost use Rattle.std.specs.Str.Parse.{digits_value};
ghost use Rattle.scenario_text.specs.Numbers as spec;
ghost use Rattle.scenario_text.specs.Gives.{GivesLine};

use crate::fault::LineError;
use crate::reason::Reason;

/// The number that digits write, up to more than any number of a scenario.
fn digits(bytes: &[u8]) -> Option<u32>
    ensures { result ≡ (if spec.are_digits bytes.now && nat_le (digits_value 10 bytes.now) 999999 then Some (digits_value 10 bytes.now) else None) }
{
    let mut number: u32 = 0;
    for b in bytes {
        if !b.is_ascii_digit() {
            return None;
        }
        if number > 99_999 {
            return None;
        }
        number = number * 10 + u32::from(*b - b'0');
    }
    Some(number)
}

/// Whether there is a digit, and no 0 before others.
fn has_no_zero_in_front(bytes: &[u8]) -> bool
    ensures { result ≡ spec.has_no_zero_in_front bytes.now }
{
    match bytes {
        [] => false,
        [_] => true,
        [first, _, ..] => *first != b'0',
    }
}

/// The number from `low` to `high` that a word writes.
#[tactic(auto, unfolding(crate::specs::Numbers::number_of))]
pub fn number_of(bytes: &[u8], low: u32, high: u32) -> Result<u32, LineError>
    requires { high ≤ 999999 }
    ensures number { GivesLine result (spec.number_of low high bytes.now) }
    ensures within { IfOk result (λ number. number ≤ high) }
{
    let Some(number) = digits(bytes) else {
        return Err(LineError::Faulty(Reason::Number));
    };
    if has_no_zero_in_front(bytes) && low <= number && number <= high {
        Ok(number)
    } else {
        Err(LineError::Faulty(Reason::Number))
    }
}

/// How far a traversal goes: 1 to 999 steps, after `-` back.
#[tactic(auto, unfolding(crate::specs::Numbers::delta_of))]
pub fn delta_of(bytes: &[u8]) -> Result<i32, LineError>
    ensures { GivesLine result (spec.delta_of bytes.now) }
{
    let [first, rest @ ..] = bytes else {
        return Err(LineError::Faulty(Reason::Number));
    };
    if *first == b'-' {
        let number = number_of(rest, 1, 999)?;
        return Ok(-(number as i32));
    }
    let number = number_of(bytes, 1, 999)?;
    Ok(number as i32)
}
