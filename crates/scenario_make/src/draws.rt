//! `Draws`, the numbers that the generator draws: each follows from the number that is kept.
ghost use Rattle.std.specs.Prelude.{◌≡◌, ◌<◌};
ghost use Rattle.scenario_make.specs.Draws.{after_draw, drawn};

/// Draws from a number that is kept: a linear congruence, of whose numbers the 16 lowest bits are left out.
#[derive(Drop)]
pub struct Draws {
    pub kept: u32,
}

impl Draws {
    /// One draw more, of a number below the bound.
    pub fn below(&mut self, bound: u32) -> u32
        requires { 0 < bound }
        ensures kept { self.new.kept ≡ after_draw self.old.kept }
        ensures drawn { result ≡ drawn bound (after_draw self.old.kept) }
        ensures below { result < bound }
    {
        let next = (u64::from(self.kept) * 1_103_515_245 + 12_345) % 2_147_483_648;
        self.kept = next as u32;
        self.kept / 65_536 % bound
    }
}
