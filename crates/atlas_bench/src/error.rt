//! Why the program ends before its last line.
use atlas_cache::{CacheError, OptionsError};
use guillotiere::AtlasError;
use guillotiere_recording::RecordingError;
use std::alloc::AllocError;
use std::io;
use thiserror::Error;

/// Why the program ends before its last line.
#[derive(Debug, Drop, Error)]
pub enum BenchError {
    /// The line with this number, counted from 1, names no workload with a size.
    #[error("bad line {0}")]
    BadLine(u64),
    /// The atlas refused a call.
    #[error("refused: {0}")]
    Refused(#[from] AtlasError),
    /// The recording allocator refused a call.
    #[error("refused: {0}")]
    Unrecorded(#[from] RecordingError),
    /// The cache refused a call.
    #[error("refused: {0}")]
    Uncached(#[from] CacheError),
    /// The cache refused its options.
    #[error("refused: {0}")]
    Options(#[from] OptionsError),
    /// The atlas gave an answer that the workload rules out.
    #[error("wrong answer")]
    WrongAnswer,
    /// A request for memory was refused.
    #[error("no memory")]
    Memory(#[from(alloc)] AllocError),
    /// A device failed.
    #[error("{0}")]
    Device(#[from] io::Error),
}
