//! What a cache reports about itself: how it was made, how it was used, and the areas of its pages.
ghost use Rattle.std.specs.Prelude.{◌≡◌, ◌≤◌, length, slice_get, IfOk, IsOkUnless, None, Ok};
ghost use Rattle.atlas_cache.specs.Asking.{AreUsable};
ghost use Rattle.atlas_cache.specs.Repacking.{free_by_page, live_by_page};
ghost use Rattle.atlas_cache.specs.Usable.{unusable_by_page};

use crate::cache::TextureCache;
use crate::counts::Counts;
use crate::options::CacheOptions;
use atlas_entries::error::CacheError;
use guillotiere::Size;
use std::alloc::Allocator;
use std::hash::{BuildHasher, Hash};

impl<K: Copy + Eq + Hash, S: BuildHasher, A: Allocator + Copy> TextureCache<K, S, A> {
    /// How the cache was made.
    pub fn options(&self) -> CacheOptions
        ensures options { result ≡ self.now.options }
        ensures usable { AreUsable result }
    {
        self.rooms.options()
    }

    /// How often `get` or `insert` found a key held, how often `get` didn't, and how many entries were evicted, since the
    /// cache was made. So hits by hits and misses together is the hit rate of a loop that calls `insert` where `get` finds
    /// nothing. In one that calls `insert` alone there are no misses: the hit rate is hits by calls.
    pub fn statistics(&self) -> Counts
        ensures { result ≡ self.now.counts }
    {
        self.counts
    }

    /// How many numbers entries have had since the cache was made or cleared: each number is below this. There are at most as
    /// many as there ever were entries at once.
    pub fn numbers(&self) -> u32
        ensures { result ≡ self.now.numbers }
    {
        self.entries.made()
    }

    /// The area of all entries of a page together, with their padding and what alignment added, in pixels; None if
    /// there is no such page. Takes no memory, and no walk.
    pub fn live_area(&self, page: u32) -> Option<u64>
        ensures { result ≡ slice_get (live_by_page self.now.pages) page }
    {
        if page < self.rooms.len() {
            Some(self.rooms.live_area(page))
        } else {
            None
        }
    }

    /// The area of a page that no entry takes, in pixels; None if there is no such page. Takes no memory, and no walk.
    pub fn free_area(&self, page: u32) -> Option<u64>
        ensures { result ≡ slice_get (free_by_page self.now.pages) page }
    {
        if page < self.rooms.len() {
            Some(self.rooms.free_area(page))
        } else {
            None
        }
    }

    /// The area of a page, in pixels, that is free in rectangles which have no room for an entry of this size, with its
    /// padding and rounded up to the alignment; None if there is no such page. A side below 0 counts as 0. The answer
    /// says how much of the free area (`free_area`) is of no use for entries of the usual size: where that is a lot, it
    /// is time to repack the page. Takes memory for a list of the page's free rectangles: `Memory` if that is refused.
    pub fn unusable_area(&self, page: u32, size: Size) -> Result<Option<u64>, CacheError>
        ensures area { IfOk result (λ lost. lost
            ≡ slice_get (unusable_by_page self.now.options size self.now.pages) page) }
        ensures absent { length self.now.pages ≤ page → result ≡ Ok None }
        ensures unless { IsOkUnless result CacheError.Memory }
    {
        if page < self.rooms.len() {
            Ok(Some(self.rooms.unusable_area(page, size)?))
        } else {
            Ok(None)
        }
    }
}
