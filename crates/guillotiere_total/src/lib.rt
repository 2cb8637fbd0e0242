//! The calls of `guillotiere` that ask something of their caller, for callers who prove nothing: each tests what is
//! asked, and an error says which condition fails. Conditions are tested in the order in which the call's
//! documentation names them, and after an error all is as before.
#![tactic(auto)]

pub mod atlas;
mod conditions;
mod error;
pub mod pages;
pub mod recording;
pub mod rectangles;
pub mod simple;

pub use error::CallError;
