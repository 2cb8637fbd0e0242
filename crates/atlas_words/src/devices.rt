//! What the tool reads from and writes to.
ghost use Rattle.std.specs.Prelude.{◌≡◌, Bool, List, ℕ, Option, None, true, false, not};
ghost use Rattle.std.specs.Io.KnownBytes.{Appends};
ghost use Rattle.atlas_words.specs.Devices.{Reads, Writes, WritesBeginning, has_failed_read, has_failed_write};

/// What gives bytes.
pub trait ToolInput {
    // The bytes that reads will give from here on, where the device tells them.
    ghost remaining: { Self → Option (List ℕ) } = { λ _. None };

    // A read has failed.
    ghost has_failed: { Self → Bool };

    /// How many bytes were put at the start of `buffer`: 0 only at the end of the input or where `buffer` is empty.
    /// `None` for an error; then none was put there.
    fn read(&mut self, buffer: &mut [u8]) -> Option<usize>
        ensures bytes { Reads (remaining self.old) (remaining self.new) result buffer.new }
        ensures failed { has_failed self.new ≡ has_failed_read (has_failed self.old) result };

    /// Whether a read has failed.
    fn failed(&self) -> bool
        ensures { result ≡ has_failed self.now };
}

/// What takes bytes.
pub trait ToolOutput {
    // The bytes that the device holds, where it tells them.
    ghost contents: { Self → Option (List ℕ) } = { λ _. None };

    // A write has failed, or has taken none of some bytes.
    ghost has_failed: { Self → Bool };

    /// How many bytes at the start of `bytes` were written, or `None` for an error; then none was.
    fn write(&mut self, bytes: &[u8]) -> Option<usize>
        ensures bytes { Writes (contents self.old) (contents self.new) result bytes.now }
        ensures failed { has_failed self.new ≡ has_failed_write (has_failed self.old) result bytes.now };

    /// Whether a write has failed, or has taken none of some bytes.
    fn failed(&self) -> bool
        ensures { result ≡ has_failed self.now };
}

/// Writes all of `bytes`, in as few calls as the device takes them. `false` where the device failed.
pub fn write_all<W: ToolOutput>(output: &mut W, bytes: &[u8]) -> bool
    requires { W.has_failed output.old ≡ false }
    ensures written { result ≡ true → Appends (W.contents output.old) (W.contents output.new) bytes.now }
    ensures failed { W.has_failed output.new ≡ not result }
    ensures beginning { result ≡ false → WritesBeginning (W.contents output.old) (W.contents output.new) bytes.now }
{
    let mut rest = bytes;
    while !rest.is_empty() {
        match output.write(rest) {
            Some(0) | None => return false,
            Some(n) => rest = &rest[n..],
        }
    }
    true
}
