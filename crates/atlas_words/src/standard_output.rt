//! Any writer of std as a device.
ghost use Rattle.std.specs.Prelude.{◌≡◌, None, false, if◌then◌else◌};

use crate::devices::ToolOutput;
use std::io::Write;

/// Any writer as a device. It reports the bytes that the writer reports, and none after a failure.
#[derive(Drop)]
pub struct StdOutput<W> {
    inner: W,
    failed: bool,
}

impl<W: Write> StdOutput<W> {
    /// A device that hasn't failed. It holds the bytes that the writer holds, where the writer reports them.
    pub fn new(inner: W) -> StdOutput<W>
        ensures failed { ⟦<StdOutput<W> as ToolOutput>⟧.has_failed result ≡ false }
        ensures contents { ⟦<StdOutput<W> as ToolOutput>⟧.contents result ≡ W.contents inner }
    {
        StdOutput {
            inner,
            failed: false,
        }
    }
}

impl<W: Write> ToolOutput for StdOutput<W> {
    ghost contents = { λ d. if d.failed then None else W.contents d.inner };

    ghost has_failed = { λ d. d.failed };

    fn write(&mut self, bytes: &[u8]) -> Option<usize> {
        match self.inner.write(bytes) {
            Ok(n) => {
                if n == 0 && !bytes.is_empty() {
                    self.failed = true;
                }
                Some(n)
            }
            Err(_) => {
                self.failed = true;
                None
            }
        }
    }

    fn failed(&self) -> bool {
        self.failed
    }
}
