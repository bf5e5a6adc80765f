//! The words of a printed line, each added to what is written so far.
ghost use Rattle.std.specs.Prelude.{◌≡◌, ◌++◌, OnOk, codes, decimal};
ghost use Rattle.std.specs.Fmt.{signed_decimal};
ghost use Rattle.scenario_text.specs.Printed as spec;

use address::{OutOfMemory, Text};
use log_model::Mode;
use std::alloc::Global;

/// Bytes as they are.
pub fn put(out: &mut Vec<u8>, text: &[u8]) -> Result<(), OutOfMemory>
    ensures { OnOk result (out.new.items ≡ out.old.items ++ text.now) }
{
    out.extend_from_slice(text)?;
    Ok(())
}

/// The end of a line.
pub fn put_end(out: &mut Vec<u8>) -> Result<(), OutOfMemory>
    ensures { OnOk result (out.new.items ≡ out.old.items ++ spec.line_end) }
{
    put(out, b"\n")
}

/// A number after a space.
pub fn put_number(alloc: Global, out: &mut Vec<u8>, number: u32) -> Result<(), OutOfMemory>
    ensures { OnOk result (out.new.items ≡ out.old.items ++ spec.number_word number) }
{
    let text = number.to_string(alloc)?;
    put(out, b" ")?;
    put(out, text.as_bytes())?;
    Ok(())
}

/// How far a traversal goes, after a space.
pub fn put_delta(alloc: Global, out: &mut Vec<u8>, delta: i32) -> Result<(), OutOfMemory>
    ensures { OnOk result (out.new.items ≡ out.old.items ++ spec.text_word (signed_decimal delta)) }
{
    let text = delta.to_string(alloc)?;
    put(out, b" ")?;
    put(out, text.as_bytes())?;
    Ok(())
}

/// A text after a space.
pub fn put_text(out: &mut Vec<u8>, text: &[u8]) -> Result<(), OutOfMemory>
    ensures { OnOk result (out.new.items ≡ out.old.items ++ spec.text_word text.now) }
{
    put(out, b" ")?;
    put(out, text)?;
    Ok(())
}

/// A memo after a space; `-` is none.
pub fn put_memo(out: &mut Vec<u8>, memo: &Option<Text>) -> Result<(), OutOfMemory>
    ensures { OnOk result (out.new.items ≡ out.old.items ++ spec.memo_word memo.now) }
{
    match memo {
        Some(memo) => {
            put_text(out, memo.bytes())?;
            Ok(())
        }
        None => {
            put(out, b" -")?;
            Ok(())
        }
    }
}

/// A reference after a space, where there is one.
pub fn put_reference(out: &mut Vec<u8>, reference: &Option<Text>) -> Result<(), OutOfMemory>
    ensures { OnOk result (out.new.items ≡ out.old.items ++ spec.reference_word reference.now) }
{
    match reference {
        Some(reference) => {
            put_text(out, reference.bytes())?;
            Ok(())
        }
        None => Ok(()),
    }
}

/// A navigation's history handling, after a space.
pub fn put_mode(out: &mut Vec<u8>, mode: Mode) -> Result<(), OutOfMemory>
    ensures { OnOk result (out.new.items ≡ out.old.items ++ spec.mode_word mode) }
{
    match mode {
        Mode::Auto => put(out, b" auto"),
        Mode::Push => put(out, b" push"),
        Mode::Replace => put(out, b" replace"),
    }
}

/// The user's answer, after a space.
pub fn put_stay(out: &mut Vec<u8>, stay: bool) -> Result<(), OutOfMemory>
    ensures { OnOk result (out.new.items ≡ out.old.items ++ spec.stay_word stay) }
{
    if stay {
        put(out, b" stay")?;
    } else {
        put(out, b" leave")?;
    }
    Ok(())
}
