//! Bytes in a fixed buffer, and numbers in decimal among them, without leading zeros.
ghost use Rattle.std.specs.Prelude.{◌≡◌, ◌≤◌, ◌<◌, ◌+◌, ◌-◌, ◌++◌, ◌∷◌, [], length, drop, decimal};
ghost use Rattle.std.specs.Fmt.{signed_decimal};

use std::marker::Model;

/// At most `N` bytes, in order.
#[derive(Drop)]
pub struct FixedBytes<const N: usize> {
    entries: [u8; N],
    used: usize,
}

impl<const N: usize> Model for FixedBytes<N> {
    ghost use Rattle.std.specs.Prelude.{ℕ, List, ◌≤◌, take};

    ghost Value = { List ℕ };

    ghost view = { λ b. take b.used b.entries };

    ghost invariant = { λ b. b.used ≤ N };
}

impl<const N: usize> FixedBytes<N> {
    /// No bytes.
    pub fn new() -> Self
        ensures { result ≡ [] }
    {
        FixedBytes {
            entries: [0; N],
            used: 0,
        }
    }

    /// The bytes.
    pub fn as_slice(&self) -> &[u8]
        ensures bytes { result.now ≡ self.now }
        ensures short { length self.now ≤ N }
    {
        &self.entries[..self.used]
    }

    /// How many bytes there are.
    pub fn len(&self) -> usize
        ensures len { result ≡ length self.now }
        ensures short { length self.now ≤ N }
    {
        self.used
    }

    /// Adds a byte at the end.
    pub fn push(&mut self, byte: u8)
        requires { length self.old < N }
        ensures { self.new ≡ self.old ++ byte ∷ [] }
    {
        self.entries[self.used] = byte;
        self.used += 1;
    }

    /// Adds bytes at the end.
    pub fn push_all(&mut self, bytes: &[u8])
        requires { length self.old + length bytes.now ≤ N }
        ensures { self.new ≡ self.old ++ bytes.now }
    {
        for byte in bytes {
            self.push(*byte);
        }
    }

    /// Takes all bytes out.
    pub fn clear(&mut self)
        ensures { self.new ≡ [] }
    {
        self.used = 0;
    }
}

// Writes the digits so that they end at the end, and returns where they start.
fn write_digits(n: u64, digits: &mut [u8; 20]) -> usize
    ensures start { result ≤ 20 }
    ensures written { drop result digits.new ≡ decimal n }
{
    let mut start = 20;
    let mut left = n;
    while left >= 10 {
        start -= 1;
        digits[start] = b'0' + (left % 10) as u8;
        left /= 10;
    }
    start -= 1;
    digits[start] = b'0' + left as u8;
    start
}

/// Adds the digits of a number at the end.
pub fn push_unsigned<const N: usize>(text: &mut FixedBytes<N>, n: u64)
    requires { length text.old + 20 ≤ N }
    ensures text { text.new ≡ text.old ++ decimal n }
    ensures length { length text.new ≤ length text.old + 20 }
{
    let mut digits = [0u8; 20];
    let start = write_digits(n, &mut digits);
    text.push_all(&digits[start..]);
}

/// Adds a number at the end, with a `-` first if it is negative.
pub fn push_signed<const N: usize>(text: &mut FixedBytes<N>, n: i32)
    requires { length text.old + 21 ≤ N }
    ensures text { text.new ≡ text.old ++ signed_decimal n }
    ensures length { length text.new ≤ length text.old + 21 }
{
    if n < 0 {
        text.push(b'-');
    }
    push_unsigned(text, u64::from(n.unsigned_abs()));
}
