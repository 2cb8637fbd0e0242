//! What the allocators of `guillotiere` mean: points, sizes, rectangles, options, ids and errors, the model of an atlas
//! as a tree of cuts (docs/MODEL.md), and the laws that hold of it. `guillotiere` re-exports all of it.
#![tactic(auto)]

mod allocation;
mod change;
mod error;
mod geometry;
pub mod laws;
mod options;

pub use allocation::{AllocId, Allocation, MOST_SLOTS, SlotCount};
pub use change::{Change, ChangeList};
pub use error::AtlasError;
pub use geometry::{Point, Rectangle, Size, point2, size2};
pub use options::{AllocatorOptions, DEFAULT_OPTIONS};
