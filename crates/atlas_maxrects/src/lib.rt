//! Boxes placed in a sheet one after another, each as high up as it can lie, and there as far left.
#![tactic(auto)]

mod corners;
mod free;
mod packer;

pub use packer::TopmostPacker;
