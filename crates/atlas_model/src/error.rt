//! What an allocator refuses.
ghost use Rattle.std.specs.Prelude.{◌≡◌};
ghost use Rattle.atlas_model.specs.declared.error.AtlasError.TheVariants.{Memory};

use std::alloc::{AllocError, AllocFailed};
use thiserror::Error;

/// Why a call of an allocator was refused. After a refusal all that a caller can see is as before the call
/// (docs/MODEL.md, "Steps").
#[derive(Clone, Copy, Debug, PartialEq, Eq, Error)]
pub enum AtlasError {
    /// A request for memory was refused.
    #[error("no memory")]
    Memory,
    /// More slots would be used than the atlas's limit allows.
    #[error("no slot left")]
    Slots,
    /// The id is not that of a box that is allocated now.
    #[error("id is not live")]
    NotLive,
}

impl From<AllocError> for AtlasError {
    ghost from_gives = { λ _ e. e ≡ Memory };

    /// `Memory`, whatever was asked for.
    fn from(_error: AllocError) -> AtlasError {
        AtlasError::Memory
    }
}

impl<T: Drop> From<AllocFailed<T>> for AtlasError {
    ghost from_gives = { λ _ e. e ≡ Memory };

    /// `Memory`; what couldn't be stored is dropped.
    fn from(_error: AllocFailed<T>) -> AtlasError {
        AtlasError::Memory
    }
}
