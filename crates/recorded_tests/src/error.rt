//! Why the program ends before its last session.
use guillotiere::AtlasError;
use std::alloc::AllocError;
use std::io;
use thiserror::Error;

/// Why the program ends before its last session.
#[derive(Debug, Drop, Error)]
pub enum PlayError {
    /// The line with this number, counted from 1, is none that these sessions have.
    #[error("bad line {0}")]
    BadLine(u64),
    /// The session that ends at the line with this number is answered differently.
    #[error("the session that ends at line {0} got other answers")]
    Otherwise(u64),
    /// The atlas refused a call.
    #[error("refused: {0}")]
    Refused(#[from] AtlasError),
    /// A request for memory was refused.
    #[error("no memory")]
    Memory(#[from(alloc)] AllocError),
    /// A device failed.
    #[error("{0}")]
    Device(#[from] io::Error),
}
