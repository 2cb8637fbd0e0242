//! What stops a sheet from being made.
ghost use Rattle.std.specs.Prelude.{◌≡◌};
ghost use Rattle.atlas_sheet.specs.declared.error.SheetError.TheVariants.{Memory};

use guillotiere::AtlasError;
use std::alloc::{AllocError, AllocFailed};
use thiserror::Error;

/// Why there is no sheet.
#[derive(Clone, Copy, Debug, PartialEq, Eq, Error)]
pub enum SheetError {
    /// A request for memory was refused.
    #[error("no memory")]
    Memory,
    /// A side of the sheet, or the least that is allowed, is below 1.
    #[error("a side of the sheet is below 1")]
    EmptySheet,
    /// No sheet is allowed: the greatest side is below the least.
    #[error("the greatest side is below the least")]
    EmptyRange,
    /// A side of the alignment is below 1.
    #[error("a side of the alignment is below 1")]
    EmptyAlignment,
    /// The sprite with this number, counted from 0, has a side below 1.
    #[error("sprite {0} has a side below 1")]
    EmptySprite(usize),
    /// A side of the sprite with this number, counted from 0, exceeds 2147483647 pixels with the padding at both its ends.
    #[error("sprite {0} is too large")]
    GreatSprite(usize),
}

impl From<AtlasError> for SheetError {
    ghost from_gives = { λ _ e. e ≡ Memory };

    /// `Memory`, which is all that a simple allocator refuses.
    fn from(_error: AtlasError) -> SheetError {
        SheetError::Memory
    }
}

impl From<AllocError> for SheetError {
    ghost from_gives = { λ _ e. e ≡ Memory };

    /// `Memory`, whatever was asked for.
    fn from(_error: AllocError) -> SheetError {
        SheetError::Memory
    }
}

impl<T: Drop> From<AllocFailed<T>> for SheetError {
    ghost from_gives = { λ _ e. e ≡ Memory };

    /// `Memory`; what couldn't be stored is dropped.
    fn from(_error: AllocFailed<T>) -> SheetError {
        SheetError::Memory
    }
}
