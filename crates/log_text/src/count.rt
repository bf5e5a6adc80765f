//! `Count`, which counts the bytes of a line, and which a contract sees as their number.
ghost use Rattle.std.specs.Prelude.{◌≡◌, ◌≤◌, decimal, fold};
ghost use Rattle.log_text.specs.Counting.{with_one};

use crate::digits::digit_count;
use crate::out::Out;
use std::marker::Model;

/// How many bytes a line has, up to 18,446,744,073,709,551,615.
///
/// A caller reads one of the two, and the compiler leaves the other out: for `most` no number of a row is looked at.
#[derive(Drop)]
pub struct Count {
    bytes: usize,
    /// With 20 digits for each number.
    most: usize,
}

impl Model for Count {
    ghost use Rattle.std.specs.Prelude.{◌≤◌, ℕ};
    ghost use Rattle.std.specs.Coded.{coded_ℕ};

    ghost Value = { ℕ };

    ghost coded = { coded_ℕ };

    ghost view = { λ c. c.bytes };

    ghost invariant = { λ c. c.bytes ≤ c.most };
}

impl Count {
    /// Nothing yet.
    #[inline(always)]
    pub fn new() -> Count
        ensures { result ≡ 0 }
    {
        Count { bytes: 0, most: 0 }
    }

    /// How many bytes there are.
    #[inline(always)]
    pub fn bytes(&self) -> usize
        ensures { result ≡ self.now }
    {
        self.bytes
    }

    /// At least as many as there are, which is told faster.
    #[inline(always)]
    pub fn most(&self) -> usize
        ensures { self.now ≤ result }
    {
        self.most
    }

    /// Counts the digits of a number.
    #[inline(always)]
    #[tactic(auto, using(crate::proofs::ByteLaws::counted))]
    fn add_digits(&mut self, number: u64)
        ensures { self.new ≡ fold with_one self.old (decimal number) }
    {
        self.bytes = self.bytes.saturating_add(digit_count(number));
        self.most = self.most.saturating_add(20);
    }
}

impl Out for Count {
    ghost use Rattle.log_text.specs.Counting.{with_one};

    ghost after = { with_one };

    #[inline(always)]
    #[tactic(auto, using(crate::proofs::ByteLaws::counted))]
    fn put(&mut self, text: &[u8]) {
        self.bytes = self.bytes.saturating_add(text.len());
        self.most = self.most.saturating_add(text.len());
    }

    #[inline(always)]
    fn put_number(&mut self, front: &[u8], number: u64) {
        self.put(front);
        self.add_digits(number);
    }
}
