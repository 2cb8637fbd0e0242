//! A dynamic allocator of rectangles inside one large texture: a port of the Rust crate `guillotiere` 0.7.0.
//!
//! Two limits, which the Rust crate has too. Free boxes are joined within one container of the tree of cuts, and not
//! across containers. And grids of equal cells are served better by other packers.
#![tactic(auto)]

pub mod pages;
pub mod session;
mod simple;

pub use atlas_allocator::{AtlasAllocator, AtlasImage, FreeIter, LiveIter};
pub use atlas_model::{
    AllocId, Allocation, AllocatorOptions, AtlasError, Change, ChangeList, DEFAULT_OPTIONS,
    MOST_SLOTS, Point, Rectangle, Size, SlotCount, laws, point2, size2,
};
pub use atlas_store::slots::NodeKind;
pub use simple::SimpleAtlasAllocator;
pub use simple::image::SimpleImage;
