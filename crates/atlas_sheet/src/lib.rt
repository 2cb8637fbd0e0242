//! Sheets for sprites that are known beforehand: all of them in the smallest sheet, or as many as one sheet takes.
#![tactic(auto)]

mod allowed;
mod arrangement;
mod cells;
mod changes;
mod choosing;
mod climbing;
mod dense;
mod error;
mod filling;
mod groups;
mod options;
mod orders;
mod packing;
mod paging;
mod picking;
mod placed;
mod places;
mod random;
mod search;
mod sheets;
mod slots;
mod trials;
mod turnings;
mod ways;

pub use allowed::Allowed;
pub use dense::pack_dense;
pub use error::SheetError;
pub use groups::pack_groups;
pub use options::{SheetOptions, Spacing};
pub use orders::Key;
pub use paging::{OnPage, Pages, pack_pages};
pub use placed::Placed;
pub use sheets::{Filled, Sheet, fill, pack, pack_telling};
pub use turnings::Turning;
pub use ways::{Choice, WAYS, Way, prove_ways, ways_tried};
