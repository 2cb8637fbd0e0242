//! Sets of numbers below 64, a bit for each.
ghost use Rattle.std.specs.Prelude.{◌≡◌, ◌<◌, ◌≤◌, ◌≢◌, ◌==◌, ◌&&◌, ◌||◌, ℕ, not, true, false, nat_le, nat_lt, IfSome};
ghost use Rattle.std.specs.Prelude.{None};

/// A set of numbers below 64.
#[derive(Clone, Copy, Debug, PartialEq, Eq)]
pub struct Mask {
    pub bits: u64,
}

impl Mask {
    ghost use Rattle.atlas_search.specs.Masks.{IsMarked, has};

    /// The set of no number.
    pub fn none() -> Mask
        ensures none { (k : ℕ) → has result k ≡ false }
        ensures bits { result.bits ≡ 0 }
    {
        Mask { bits: 0 }
    }

    /// Whether there is no number in the set.
    pub fn is_empty(self) -> bool
        ensures empty { result ≡ true → (k : ℕ) → has self k ≡ false }
        ensures some { result ≡ false → (k : ℕ) × IsMarked self k }
    {
        self.bits == 0
    }

    /// The set with a number.
    pub fn with(self, k: usize) -> Mask
        requires { k < 64 }
        ensures this { has result k ≡ true }
        ensures others { (j : ℕ) → j ≢ k → has result j ≡ has self j }
    {
        Mask {
            bits: self.bits | 1 << k,
        }
    }

    /// The set without a number.
    pub fn without(self, k: usize) -> Mask
        requires { k < 64 }
        ensures this { has result k ≡ false }
        ensures others { (j : ℕ) → j ≢ k → has result j ≡ has self j }
    {
        Mask {
            bits: self.bits & !(1 << k),
        }
    }

    /// The numbers of the set from one on.
    pub fn from(self, k: usize) -> Mask
        requires { k < 64 }
        ensures { (j : ℕ) → has result j ≡ (has self j && nat_le k j) }
    {
        Mask {
            bits: self.bits >> k << k,
        }
    }

    /// The numbers of the set below one.
    pub fn below(self, k: usize) -> Mask
        requires { k < 64 }
        ensures { (j : ℕ) → has result j ≡ (has self j && nat_lt j k) }
    {
        Mask {
            bits: self.bits & ((1 << k) - 1),
        }
    }

    /// The numbers of one of two sets.
    pub fn or(self, other: Mask) -> Mask
        ensures { (j : ℕ) → has result j ≡ (has self j || has other j) }
    {
        Mask {
            bits: self.bits | other.bits,
        }
    }

    /// The least number of the set, and 64 if there is none.
    pub fn first(self) -> usize
        ensures least { (k : ℕ) → IsMarked self k → result ≤ k }
        ensures some { result < 64 → IsMarked self result }
    {
        self.bits.trailing_zeros() as usize
    }

    /// Takes the least number out of the set; None if there is none.
    pub fn take_first(&mut self) -> Option<usize>
        ensures none { result ≡ None → (k : ℕ) → has self.old k ≡ false }
        ensures first { IfSome result (λ k. IsMarked self.old k × ((j : ℕ) → IsMarked self.old j → k ≤ j)) }
        ensures rest { IfSome result (λ k. (j : ℕ) → has self.new j ≡ (has self.old j && not (j == k))) }
        ensures fewer { IfSome result (λ k. self.new.bits < self.old.bits) }
    {
        if self.bits == 0 {
            return None;
        }
        let first = self.bits.trailing_zeros();
        self.bits &= self.bits - 1;
        Some(first as usize)
    }
}
