//! How an atlas is stored, for the library's crates alone: slots that represent a tree of cuts, the lists that run through
//! them, and the store that changes both together (docs/SLOTS.md). A caller depends on `guillotiere`, which re-exports none
//! of these functions.
#![tactic(auto)]

pub mod slots;
pub mod store;
