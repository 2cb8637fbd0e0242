//! A second cache like a first one.
ghost use Rattle.std.specs.Prelude.{◌≡◌, IfOk};
ghost use Rattle.guillotiere.specs.Pages.{page_sizes};
ghost use Rattle.atlas_cache.specs.Rooms.{stored_on};

use crate::cache::TextureCache;
use std::alloc::{AllocError, Allocator};
use std::clone::Clone;
use std::hash::{BuildHasher, Hash};

impl<K: Copy + Eq + Hash, S: BuildHasher + Clone, A: Allocator + Copy> TextureCache<K, S, A> {
    /// A copy, which goes on by itself, in new memory of the same allocator: its options, its entries with their places, numbers and
    /// order, its frame and its counts are the same, and the atlas of each page stores the same. So are its answers to later calls,
    /// except where memory is refused: what is in reserve isn't copied. Goes over all slots of the pages and all numbers of entries.
    pub fn clone(&self) -> Result<Self, AllocError>
        ensures options { IfOk result (λ copy. copy.options ≡ self.now.options) }
        ensures stored { IfOk result (λ copy. stored_on copy.pages ≡ stored_on self.now.pages) }
        ensures sizes { IfOk result (λ copy. page_sizes copy.pages ≡ page_sizes self.now.pages) }
        ensures entries { IfOk result (λ copy. copy.entries ≡ self.now.entries) }
        ensures numbers { IfOk result (λ copy. copy.numbers ≡ self.now.numbers) }
        ensures reserved { IfOk result (λ copy. copy.reserved ≡ 0) }
        ensures frame { IfOk result (λ copy. copy.frame ≡ self.now.frame) }
        ensures counts { IfOk result (λ copy. copy.counts ≡ self.now.counts) }
    {
        let rooms = self.rooms.copy()?;
        let entries = self.entries.copy()?;
        Ok(TextureCache {
            rooms,
            entries,
            frame: self.frame,
            counts: self.counts,
            marks: Vec::new(*self.marks.allocator()),
        })
    }
}
