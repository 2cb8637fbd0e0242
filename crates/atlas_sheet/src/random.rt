//! A row of numbers that look random, the same on every machine.
ghost use Rattle.std.specs.Prelude.{◌≡◌, ◌<◌};

/// A row of numbers that look random: each follows from the one before it by a product and a sum.
#[derive(Clone, Copy, Debug, PartialEq, Eq)]
pub struct Random {
    state: u64,
}

impl Random {
    /// The row that begins at this seed.
    pub fn new(seed: u64) -> Random
        ensures { result ≡ record { state = seed } }
    {
        Random { state: seed }
    }

    /// The next number, below a bound.
    pub fn below(&mut self, bound: usize) -> usize
        requires { 0 < bound }
        ensures { result < bound }
    {
        self.state = self
            .state
            .wrapping_mul(6364136223846793005)
            .wrapping_add(1442695040888963407);
        (self.state >> 33) as usize % bound
    }
}
