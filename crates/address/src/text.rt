//! `Text`, which a contract sees as the list of its bytes.
ghost use Rattle.std.specs.Prelude.{◌≡◌, ◌≤◌, ◌-◌, drop, length, take, IfOk};

use crate::error::OutOfMemory;
use std::alloc::Global;
use std::marker::Model;
use std::sync::ArcSlice;

/// Bytes that never change. A copy and a part share the allocation of their source.
#[derive(Drop)]
pub struct Text {
    bytes: ArcSlice<u8>,
    from: u32,
    to: u32,
}

impl Model for Text {
    ghost use Rattle.std.specs.Prelude.{List, ℕ, ◌-◌, ◌≤◌, ◌<◌, ◌^◌, drop, length, take};
    ghost use Rattle.std.specs.Arc.{arc_slice_items};

    ghost Value = { List ℕ };

    ghost view = { λ t. take (t.to - t.from) (drop t.from (arc_slice_items t.bytes)) };

    ghost invariant = { λ t. (t.from ≤ t.to) × (t.to ≤ length (arc_slice_items t.bytes)) × (t.to < 2 ^ 32) };
}

impl Text {
    /// A text of these bytes. More than 4 GiB are told as want of memory.
    pub fn of(alloc: Global, bytes: &[u8]) -> Result<Text, OutOfMemory>
        ensures { IfOk result (λ text. text ≡ bytes.now) }
    {
        let Ok(to) = u32::try_from(bytes.len()) else {
            return Err(OutOfMemory);
        };
        let bytes = ArcSlice::from_slice(alloc, bytes)?;
        Ok(Text { bytes, from: 0, to })
    }

    /// The same of a list of bytes, none of which is copied.
    pub fn from_vec(bytes: Vec<u8>) -> Result<Text, OutOfMemory>
        ensures { IfOk result (λ text. text ≡ bytes.items) }
    {
        let Ok(to) = u32::try_from(bytes.len()) else {
            return Err(OutOfMemory);
        };
        let bytes = ArcSlice::from_vec(bytes)?;
        Ok(Text { bytes, from: 0, to })
    }

    /// The same text; no byte is copied.
    pub fn copy(&self) -> Result<Text, OutOfMemory>
        ensures { IfOk result (λ text. text ≡ self.now) }
    {
        let bytes = self.bytes.clone()?;
        let (from, to) = (self.from, self.to);
        Ok(Text { bytes, from, to })
    }

    /// The bytes from one place to another, as a text; no byte is copied.
    ///
    /// The allocation stays as long as a part of it is used.
    pub fn part(&self, from: usize, to: usize) -> Result<Text, OutOfMemory>
        requires order { from ≤ to }
        requires within { to ≤ length self.now }
        ensures { IfOk result (λ text. text ≡ take (to - from) (drop from self.now)) }
    {
        let bytes = self.bytes.clone()?;
        let start = self.from;
        let (from, to) = (start + from as u32, start + to as u32);
        Ok(Text { bytes, from, to })
    }

    /// Its bytes.
    pub fn bytes(&self) -> &[u8]
        ensures { result.now ≡ self.now }
    {
        &self.bytes.as_slice()[self.from as usize..self.to as usize]
    }
}
