//! What may be asked of an atlas before a call.
ghost use Rattle.std.specs.Prelude.{◌≡◌, ◌↔◌, IsTrue};
ghost use Rattle.atlas_model.specs.Boxes.{Fits};
ghost use Rattle.atlas_model.specs.Choice.{AreValid, HasRoom};
ghost use Rattle.atlas_model.specs.Pixels.{allocator_options_of, options_of, sides_of};
ghost use Rattle.atlas_model.specs.States.{free_in};
ghost use Rattle.atlas_store.specs.Stored.{state_of};

use crate::atlas::AtlasAllocator;
use atlas_model::{AllocatorOptions, Size};
use std::alloc::Allocator;

impl<A: Allocator + Copy> AtlasAllocator<A> {
    /// The options of the atlas.
    pub fn options(&self) -> AllocatorOptions
        ensures options { result ≡ allocator_options_of (state_of self.now).options }
        ensures valid { AreValid (options_of result) }
    {
        self.store.options()
    }

    /// Whether `grow` may be called with this size: neither side is less than the atlas's.
    pub fn can_grow_to(&self, new_size: Size) -> bool
        ensures { IsTrue result ↔ Fits (state_of self.now).size (sides_of new_size) }
    {
        self.size.width <= new_size.width && self.size.height <= new_size.height
    }

    /// Whether a request has room: its size isn't empty and, rounded up, fits a free rectangle. Then `allocate` grants
    /// it, slots and memory aside; else it answers None. Takes a look at the first box of a few lists, and a search only where that
    /// doesn't show room; no memory.
    pub fn can_fit(&self, requested_size: Size) -> bool
        ensures { IsTrue result ↔ HasRoom (free_in (state_of self.now)) (state_of self.now).options
            (sides_of requested_size) }
    {
        match self.store.rounded(requested_size) {
            Some(size) => self.store.fits_at_once(size) || self.store.choose(size).is_some(),
            None => false,
        }
    }
}
