//! Why there is no sheet.
ghost use Rattle.std.specs.Prelude.{◌≡◌};
ghost use Rattle.atlas_pack.specs.declared.error.PackError.TheVariants.{Device, Memory};

use std::alloc::{AllocError, AllocFailed};
use std::io;
use thiserror::Error;

/// Why there is no sheet. Lines are counted from 1.
#[derive(Debug, Drop, Error)]
pub enum PackError {
    /// The words after `sheet` on the first line are no settings.
    #[error("line 1: not a setting, or not its numbers")]
    BadSettings,
    /// `pages` is given with `fill`, `dense` or `json`.
    #[error("line 1: pages can't be combined with fill, dense or json")]
    NotTogether,
    /// `group` is given without `pages`.
    #[error("line 1: group needs pages")]
    NoPages,
    /// This line is no sprite.
    #[error("line {0}: not a sprite, which is NAME WIDTH HEIGHT")]
    BadLine(usize),
    /// The name on this line is on an earlier one.
    #[error("line {0}: this name is already used on an earlier line")]
    Twice(usize),
    /// The sprite on this line has a side below 1.
    #[error("line {0}: a side is below 1")]
    EmptySprite(usize),
    /// A side of the sprite on this line, with the padding at both its ends, exceeds 2147483647 pixels.
    #[error("line {0}: the sprite is too large")]
    GreatSprite(usize),
    /// A side of the sheet, or the least that is allowed, is below 1.
    #[error("line 1: a side of the sheet is below 1")]
    EmptySheet,
    /// No sheet is allowed: the greatest side is below the least.
    #[error("line 1: the greatest side is below the least")]
    EmptyRange,
    /// A side of the alignment is below 1.
    #[error("line 1: a side of the alignment is below 1")]
    EmptyAlignment,
    /// No sheet that is allowed takes all sprites.
    #[error("no sheet that is allowed takes all sprites")]
    NoSheet,
    /// More sheets would be needed than `pages` allows.
    #[error("more sheets are needed than pages allows")]
    MorePages,
    /// A request for memory was refused.
    #[error("no memory")]
    Memory,
    /// A device failed.
    #[error("{0}")]
    Device(io::Error),
}

impl From<io::Error> for PackError {
    ghost from_gives = { λ error e. e ≡ Device error };

    /// `Device` with this error.
    fn from(error: io::Error) -> PackError {
        PackError::Device(error)
    }
}

impl From<AllocError> for PackError {
    ghost from_gives = { λ _ e. e ≡ Memory };

    /// `Memory`, whatever was asked for.
    fn from(_error: AllocError) -> PackError {
        PackError::Memory
    }
}

impl<T: Drop> From<AllocFailed<T>> for PackError {
    ghost from_gives = { λ _ e. e ≡ Memory };

    /// `Memory`; what couldn't be stored is dropped.
    fn from(_error: AllocFailed<T>) -> PackError {
        PackError::Memory
    }
}
