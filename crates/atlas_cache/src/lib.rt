//! The parts of a cache of rectangles in a texture array, over `guillotiere`.
#![tactic(auto)]

mod cache;
mod changes;
mod counts;
mod error;
mod inserted;
mod options;
mod places;
pub mod rooms;

pub use atlas_entries::error::CacheError;
pub use atlas_entries::{entries, recency};
pub use cache::{Iter, TextureCache};
pub use changes::{CacheChange, Changes};
pub use counts::Counts;
pub use error::OptionsError;
pub use inserted::Inserted;
pub use options::CacheOptions;
pub use places::Place;
