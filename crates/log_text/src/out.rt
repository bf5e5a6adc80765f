//! `Out`, where the bytes of a line go, which a contract sees as what it is after each byte.
ghost use Rattle.std.specs.Prelude.{◌≡◌, ◌++◌, ℕ, decimal, fold};

/// Where the bytes of a line go: a `Line`, or a `Count` of them.
pub trait Out {
    /// What it is after one byte more.
    ghost after: { Self → ℕ → Self };

    /// Puts bytes as they are.
    fn put(&mut self, text: &[u8])
        ensures { self.new ≡ fold after self.old text.now };

    /// Puts bytes, and a number after them.
    fn put_number(&mut self, front: &[u8], number: u64)
        ensures { self.new ≡ fold after self.old (front.now ++ decimal number) };
}
