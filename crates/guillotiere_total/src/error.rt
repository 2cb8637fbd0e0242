//! Why a call can't be made, or was refused.
ghost use Rattle.std.specs.Prelude.{◌≡◌};
ghost use Rattle.guillotiere_total.specs.declared.error.CallError.TheVariants.{Refused};

use guillotiere::AtlasError;
use thiserror::Error;

/// Which condition of a call fails, or why the call was refused.
#[derive(Clone, Copy, Debug, PartialEq, Eq, Error)]
pub enum CallError {
    /// A side of the size is below 1.
    #[error("a side of the size is below 1")]
    EmptySize,
    /// A side of the alignment is below 1.
    #[error("a side of the alignment is below 1")]
    Alignment,
    /// The small threshold is above the large one.
    #[error("the small threshold is above the large one")]
    Thresholds,
    /// The limit on slots is 0 or above 16777216.
    #[error("the limit on slots is not from 1 to 16777216")]
    SlotLimit,
    /// A side of the new size is less than the present one.
    #[error("a side of the new size is less than the present one")]
    Shrinks,
    /// There is no page of this number.
    #[error("there is no such page")]
    NoPage,
    /// The width or the height of the rectangle fits no `i32`.
    #[error("the width or the height of the rectangle fits no i32")]
    Unmeasurable,
    /// Each condition holds, and the call was refused.
    #[error("{0}")]
    Refused(AtlasError),
}

impl From<AtlasError> for CallError {
    ghost from_gives = { λ error e. e ≡ Refused error };

    /// `Refused`
    fn from(error: AtlasError) -> CallError {
        CallError::Refused(error)
    }
}
