//! Any reader of std as a device.
ghost use Rattle.std.specs.Prelude.{◌≡◌, None, false, if◌then◌else◌};

use crate::devices::ToolInput;
use std::io::Read;

/// Any reader as a device. It reports the bytes that the reader reports, and none after a failure.
#[derive(Drop)]
pub struct StdInput<R> {
    inner: R,
    failed: bool,
}

impl<R: Read> StdInput<R> {
    /// A device that hasn't failed. It will give the bytes that the reader will give, where the reader reports them.
    pub fn new(inner: R) -> StdInput<R>
        ensures failed { ⟦<StdInput<R> as ToolInput>⟧.has_failed result ≡ false }
        ensures remaining { ⟦<StdInput<R> as ToolInput>⟧.remaining result ≡ R.remaining inner }
    {
        StdInput {
            inner,
            failed: false,
        }
    }
}

impl<R: Read> ToolInput for StdInput<R> {
    ghost remaining = { λ d. if d.failed then None else R.remaining d.inner };

    ghost has_failed = { λ d. d.failed };

    fn read(&mut self, buffer: &mut [u8]) -> Option<usize> {
        match self.inner.read(buffer) {
            Ok(n) => Some(n),
            Err(_) => {
                self.failed = true;
                None
            }
        }
    }

    fn failed(&self) -> bool {
        self.failed
    }
}
