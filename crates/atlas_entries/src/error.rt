//! Why a cache refuses a call.
ghost use Rattle.std.specs.Prelude.{◌≡◌};
ghost use Rattle.atlas_entries.specs.declared.error.CacheError.TheVariants.{Memory};

use std::alloc::{AllocError, AllocFailed};
use thiserror::Error;

/// Why a call was refused.
#[derive(Clone, Copy, Debug, PartialEq, Eq, Error)]
pub enum CacheError {
    /// A request for memory was refused.
    #[error("no memory")]
    Memory,
    /// All 4,294,967,295 numbers of entries are in use.
    #[error("no number left for an entry")]
    Numbers,
    /// The slots of a page's atlas don't suffice. No entry is evicted for it, in no later frame either, and another page with
    /// room isn't tried: `remove`, `trim` and `clear` help.
    #[error("no slot left on a page")]
    Slots,
    /// The key is held with another size.
    #[error("the key is held with another size")]
    OtherSize,
}

impl From<AllocError> for CacheError {
    ghost from_gives = { λ _ e. e ≡ Memory };

    /// `Memory`, whatever was asked for.
    fn from(_error: AllocError) -> CacheError {
        CacheError::Memory
    }
}

impl<T: Drop> From<AllocFailed<T>> for CacheError {
    ghost from_gives = { λ _ e. e ≡ Memory };

    /// `Memory`, whatever was asked for.
    fn from(_failed: AllocFailed<T>) -> CacheError {
        CacheError::Memory
    }
}
