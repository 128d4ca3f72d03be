//! Numbers that look random, and are the same in each run.

ghost use Rattle.std.specs.Prelude.{◌<◌};

/// A row of such numbers.
#[derive(Drop)]
pub struct Dice {
    state: u64,
}

impl Dice {
    /// The row that begins with this seed, which is not 0.
    pub fn new(seed: u64) -> Self {
        Dice { state: seed }
    }

    /// The next number of the row, below `end`.
    pub fn below(&mut self, end: u32) -> u32
        requires { 0 < end }
        ensures { result < end }
    {
        self.state ^= self.state << 13;
        self.state ^= self.state >> 7;
        self.state ^= self.state << 17;
        ((self.state >> 11) % u64::from(end)) as u32
    }
}
