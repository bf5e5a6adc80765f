//! `Line`, which a contract sees as its room and its text, and the line of a row as a new text.
ghost use Rattle.std.specs.Prelude.{◌≡◌, ◌++◌, ◌≤◌, ◌<◌, ◌+◌, [], decimal, fold, length, All, IfOk};
ghost use Rattle.log_text.specs.Room.{with_byte};
ghost use Rattle.log_text.specs.Lines.{line_of_row};

use crate::digits::{digit_count, write_before};
use crate::length::{count_line, room_for_all};
use crate::out::Out;
use crate::rows::put_row;
use address::{OutOfMemory, Text};
use itoa::Buffer;
use log_model::LogRow;
use std::alloc::Global;
use std::marker::Model;

/// The line of a row of a log.
pub fn row_line(alloc: Global, row: &LogRow) -> Result<Text, OutOfMemory>
    ensures { IfOk result (λ text. text ≡ line_of_row row.now) }
{
    let mut line = Line::with_room(alloc, count_line(row).most())?;
    line.set(row);
    Ok(Text::of(alloc, line.bytes())?)
}

/// Room for the lines of rows, one at a time, which are written without memory.
#[derive(Drop)]
pub struct Line {
    bytes: Vec<u8>,
    end: usize,
}

impl Model for Line {
    ghost use Rattle.std.specs.Prelude.{◌≤◌, length, take};
    ghost use Rattle.log_text.specs.Room.{Held};

    ghost Value = { Held };

    ghost view = { λ l. record { room = length l.bytes.items; text = take l.end l.bytes.items } };

    ghost invariant = { λ l. l.end ≤ length l.bytes.items };
}

impl Line {
    /// Room for lines of at most `length` bytes, and no line yet.
    pub fn of(alloc: Global, length: u32) -> Result<Line, OutOfMemory>
        ensures { IfOk result (λ line. line ≡ record { room = length; text = [] }) }
    {
        Line::with_room(alloc, length as usize)
    }

    /// Room for lines of at most `room` bytes, and no line yet.
    fn with_room(alloc: Global, room: usize) -> Result<Line, OutOfMemory>
        ensures line { IfOk result (λ line. line ≡ record { room = room; text = [] }) }
        ensures short { IfOk result (λ line. line.room < 18446744073709551615) }
    {
        let bytes = vec![in alloc; 0; room]?;
        Ok(Line { bytes, end: 0 })
    }

    /// Room for the line of each of these rows, and no line yet.
    pub fn for_rows(alloc: Global, rows: &[LogRow]) -> Result<Line, OutOfMemory>
        ensures fits { IfOk result (λ line. All (λ row. length (line_of_row row) ≤ line.room) rows.now) }
        ensures text { IfOk result (λ line. line.text ≡ []) }
    {
        Line::with_room(alloc, room_for_all(rows))
    }

    /// How many more bytes there is room for.
    #[inline(always)]
    fn left(&self) -> usize
        ensures { result + length self.now.text ≡ self.now.room }
    {
        self.bytes.len() - self.end
    }

    /// Adds bytes, for which there is room.
    #[inline(always)]
    fn add(&mut self, text: &[u8])
        requires { length self.old.text + length text.now ≤ self.old.room }
        ensures { self.new ≡ record self.old { text = self.old.text ++ text.now } }
    {
        let end = self.end + text.len();
        self.bytes[self.end..end].copy_from_slice(text);
        self.end = end;
    }

    /// Adds a number of so many digits, for which there is room.
    #[inline(always)]
    fn add_number(&mut self, number: u64, count: usize)
        requires count { count ≡ length (decimal number) }
        requires room { length self.old.text + count ≤ self.old.room }
        ensures { self.new ≡ record self.old { text = self.old.text ++ decimal number } }
    {
        let end = self.end + count;
        write_before(number, &mut self.bytes, end);
        self.end = end;
    }

    /// Adds as many of these bytes as there is room for.
    #[cold]
    #[inline(never)]
    #[tactic(auto, using(crate::proofs::ByteLaws::filled))]
    fn fill(&mut self, text: &[u8])
        ensures { self.new ≡ fold with_byte self.old text.now }
    {
        let count = self.left().min(text.len());
        self.add(&text[..count]);
    }

    /// Adds as many of these bytes, and then of a number's digits, as there is room for.
    #[cold]
    #[inline(never)]
    fn fill_number(&mut self, front: &[u8], number: u64)
        ensures { self.new ≡ fold with_byte self.old (front.now ++ decimal number) }
    {
        let mut buffer = Buffer::new();
        self.fill(front);
        self.fill(buffer.format(number).as_bytes());
    }

    /// Puts the line of a row in the place of what was there. It takes no memory.
    pub fn set(&mut self, row: &LogRow)
        requires fits { length (line_of_row row.now) ≤ self.old.room }
        ensures { self.new ≡ record self.old { text = line_of_row row.now } }
    {
        self.end = 0;
        put_row(self, row);
    }

    /// The line that was put last; nothing where none was.
    pub fn bytes(&self) -> &[u8]
        ensures { result.now ≡ self.now.text }
    {
        &self.bytes[..self.end]
    }
}

/// What comes when the room is full is left out.
impl Out for Line {
    ghost use Rattle.log_text.specs.Room.{with_byte};

    ghost after = { with_byte };

    #[inline(always)]
    #[tactic(auto, using(crate::proofs::ByteLaws::fitting))]
    fn put(&mut self, text: &[u8]) {
        if text.len() <= self.left() {
            self.add(text);
        } else {
            self.fill(text);
        }
    }

    #[inline(always)]
    #[tactic(auto, using(crate::proofs::ByteLaws::fitting_both))]
    fn put_number(&mut self, front: &[u8], number: u64) {
        let count = digit_count(number);
        if front.len() + count <= self.left() {
            self.add(front);
            self.add_number(number, count);
        } else {
            self.fill_number(front, number);
        }
    }
}
