//! Boxes on the pages of a texture array, without keys: pages that come where no other has room, and go where nothing is on them.
#![tactic(auto)]

mod error;
mod paged;

pub use error::PagesError;
pub use paged::{PageAllocation, PagedAtlas};
