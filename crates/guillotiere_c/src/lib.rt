//! The allocators of `guillotiere` for C, and for every language that can call C (bindings/README.md).
//!
//! An allocator is held by a handle of one pointer, which its caller keeps and which is all zero while it holds
//! nothing. Each call is total: it tests its own conditions, answers a status (`plain`), and writes what it gives back
//! where its arguments point. A call that isn't `DONE` changes nothing; but a cache counts a miss, an insert that is
//! refused may have made changes, which it reports, and a refused reserve of slots keeps those of the pages before.
#![tactic(auto)]

mod atlas;
mod atlas_handle;
mod atlas_lists;
mod cache;
mod cache_copy;
mod cache_figures;
mod cache_handle;
mod cache_order;
mod dense;
mod filled;
mod followed;
mod groups;
mod held;
mod lifetimes;
mod paged;
mod paged_handle;
mod pages;
mod plain;
mod plain_cache;
mod plain_paged;
mod plain_sheet;
mod sheet;
mod simple;
mod simple_handle;
mod version;
mod writing;
