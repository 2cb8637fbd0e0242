//! The atlas allocator, which `guillotiere` re-exports, over the tree of slots of `atlas_tree`.
#![tactic(auto)]

mod atlas;

pub use atlas::image::AtlasImage;
pub use atlas::iter::{FreeIter, LiveIter};
pub use atlas::{AtlasAllocator, store_of};
