//! Why a call of a `PagedAtlas` can't be made, or was refused.
ghost use Rattle.std.specs.Prelude.{◌≡◌};
ghost use Rattle.atlas_pages.specs.declared.error.PagesError.TheVariants.{Refused};

use guillotiere::AtlasError;
use thiserror::Error;

/// Which condition of a call fails, or why the call was refused. After an error all is as before.
#[derive(Clone, Copy, Debug, PartialEq, Eq, Error)]
pub enum PagesError {
    /// A side of the size of pages is below 1.
    #[error("a side of the size is below 1")]
    EmptySize,
    /// A side of the alignment is below 1.
    #[error("a side of the alignment is below 1")]
    Alignment,
    /// The small threshold is above the large one.
    #[error("the small threshold is above the large one")]
    Thresholds,
    /// There is no page of this number.
    #[error("there is no such page")]
    NoPage,
    /// A side of the new size is less than the present one.
    #[error("a side of the new size is less than the present one")]
    Shrinks,
    /// Each condition holds, and the atlas of a page refused the call.
    #[error("{0}")]
    Refused(AtlasError),
}

impl From<AtlasError> for PagesError {
    ghost from_gives = { λ error e. e ≡ Refused error };

    /// `Refused`
    fn from(error: AtlasError) -> PagesError {
        PagesError::Refused(error)
    }
}
