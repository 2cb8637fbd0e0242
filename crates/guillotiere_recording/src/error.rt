//! What a recording allocator refuses.
ghost use Rattle.std.specs.Prelude.{◌≡◌};
ghost use Rattle.guillotiere_recording.specs.declared.error.RecordingError.TheVariants.{Memory};
ghost use Rattle.guillotiere_recording.specs.Errors.{recording_error};

use guillotiere::AtlasError;
use std::alloc::{AllocError, AllocFailed};
use thiserror::Error;

/// Why a call of a recording allocator was refused. After a refusal atlas, names and events are as before, and nothing
/// was recorded.
#[derive(Clone, Copy, Debug, PartialEq, Eq, Error)]
pub enum RecordingError {
    /// A request for memory was refused.
    #[error("no memory")]
    Memory,
    /// More slots would be used than an atlas may use.
    #[error("no slot left")]
    Slots,
    /// The id is not the name of a box that is allocated now.
    #[error("id is not live")]
    NotLive,
    /// All names have been given out.
    #[error("no name left")]
    Names,
}

impl From<AtlasError> for RecordingError {
    ghost from_gives = { λ error e. e ≡ recording_error error };

    fn from(error: AtlasError) -> RecordingError {
        match error {
            AtlasError::Memory => RecordingError::Memory,
            AtlasError::Slots => RecordingError::Slots,
            AtlasError::NotLive => RecordingError::NotLive,
        }
    }
}

impl From<AllocError> for RecordingError {
    ghost from_gives = { λ _ e. e ≡ Memory };

    fn from(_error: AllocError) -> RecordingError {
        RecordingError::Memory
    }
}

impl<T: Drop> From<AllocFailed<T>> for RecordingError {
    ghost from_gives = { λ _ e. e ≡ Memory };

    fn from(_error: AllocFailed<T>) -> RecordingError {
        RecordingError::Memory
    }
}
