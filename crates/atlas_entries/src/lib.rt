//! Entries of a cache under their keys, in the order of their use: the layer below `atlas_cache` that knows no pages.
#![tactic(auto)]

pub mod entries;
pub mod error;
pub mod recency;
