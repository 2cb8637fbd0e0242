//! A test of the slots that a stranger says an atlas has, for `atlas_allocator` alone: whether their nodes stand for a tree of cuts
//! (docs/SLOTS.md). Each check looks at one slot and its neighbours; that links don't go in circles is shown by ranks.
#![tactic(auto)]

pub mod image;
pub mod members;
pub mod order;
pub mod settled;
pub mod unused;
