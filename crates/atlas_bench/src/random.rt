//! The generator of the workloads.
ghost use Rattle.std.specs.Prelude.{◌≡◌, ◌<◌, ◌≤◌, ◌+◌, ◌-◌};
ghost use Rattle.atlas_bench.specs.SplitMix.{mixed, next_state, number_below, number_between, size_between};

use guillotiere::{Size, size2};
use std::marker::Model;

/// The generator splitmix64.
#[derive(Drop)]
pub struct Random {
    state: u64,
}

impl Model for Random {
    ghost use Rattle.std.specs.Prelude.{ℕ};

    ghost Value = { ℕ };

    ghost view = { λ r. r.state };
}

impl Random {
    /// The generator whose state is this seed.
    pub fn new(seed: u64) -> Self
        ensures { result ≡ seed }
    {
        Random { state: seed }
    }

    // The next word.
    fn next(&mut self) -> u64
        ensures word { result ≡ mixed (next_state self.old) }
        ensures state { self.new ≡ next_state self.old }
    {
        self.state = self.state.wrapping_add(0x9e37_79b9_7f4a_7c15);
        let mut z = self.state;
        z = (z ^ (z >> 30)).wrapping_mul(0xbf58_476d_1ce4_e5b9);
        z = (z ^ (z >> 27)).wrapping_mul(0x94d0_49bb_1331_11eb);
        z ^ (z >> 31)
    }

    /// A number from 0 on that is below the bound.
    pub fn below(&mut self, bound: u64) -> u64
        requires { 0 < bound }
        ensures number { result ≡ number_below self.old bound }
        ensures below { result < bound }
        ensures state { self.new ≡ next_state self.old }
    {
        (self.next() >> 33) % bound
    }

    // A number from `low` to `high`, both included.
    fn between(&mut self, low: u16, high: u16) -> u16
        requires { low ≤ high }
        ensures number { result ≡ number_between self.old low high }
        ensures state { self.new ≡ next_state self.old }
    {
        low + self.below(u64::from(high - low) + 1) as u16
    }

    /// A size whose sides are from `low` to `high` pixels, both included.
    pub fn size_between(&mut self, low: u16, high: u16) -> Size
        requires { low ≤ high }
        ensures size { result ≡ size_between self.old low high }
        ensures state { self.new ≡ next_state (next_state self.old) }
    {
        let width = self.between(low, high);
        let height = self.between(low, high);
        size2(i32::from(width), i32::from(height))
    }
}
