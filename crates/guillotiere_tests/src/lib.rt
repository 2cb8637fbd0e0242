//! Rows of calls of an atlas and of sessions, in addition to those of `recorded_tests`, and what an atlas gives back.
//! Expected values are worked by hand from the rules, or recorded from the Rust crate `guillotiere` 0.7.0; none is an
//! answer of the code under test. For other tests: an allocator that refuses memory, and how tables write sizes.
#![tactic(auto)]

#[cfg(test)]
mod atlas_calls;
#[cfg(test)]
mod atlas_freeing;
#[cfg(test)]
mod atlas_grants;
#[cfg(test)]
mod atlas_growth;
#[cfg(test)]
mod atlas_rearranging;
#[cfg(test)]
mod atlas_starts;
#[cfg(test)]
mod memory;
#[cfg(test)]
mod node_kinds;
#[cfg(test)]
mod playing;
pub mod refusing;
#[cfg(test)]
mod rehearsing;
#[cfg(test)]
mod rows;
#[cfg(test)]
mod session_rows;
pub mod tables;
#[cfg(test)]
mod walk;
