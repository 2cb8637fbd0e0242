//! Memory for slots before they are used.
ghost use Rattle.std.specs.Prelude.{◌≡◌, ◌+◌, ◌<◌, ◌≤◌, ◌↔◌, ◌≢◌, Err, OnErr, OnOk};
ghost use Rattle.atlas_model.specs.States.{used_in};
ghost use Rattle.atlas_store.specs.Reserves.{HasReserve};
ghost use Rattle.atlas_store.specs.Stored.{state_of};

use crate::atlas::AtlasAllocator;
use atlas_model::AtlasError;
use std::alloc::Allocator;

impl<A: Allocator + Copy> AtlasAllocator<A> {
    /// Takes memory for this many slots in addition to those in use. Nothing else changes: later calls have the answers
    /// and the ids that they would have had, except that no grant or growth is answered `Memory` while no more slots are used than
    /// that. A grant uses at most 4 more slots and a growth at most 3; a freeing uses none. The memory stays until the
    /// atlas is rearranged or dropped, and a copy has none of it. `Slots` if more slots would be used than the limit
    /// allows; `Memory` if memory for them is refused; then nothing changes at all.
    pub fn reserve(&mut self, additional: u32) -> Result<(), AtlasError>
        ensures ready { OnOk result (HasReserve additional self.new) }
        ensures stored { self.new.stored ≡ self.old.stored }
        ensures state { state_of self.new ≡ state_of self.old }
        ensures turns { self.new.turns ≡ self.old.turns }
        ensures capacity { self.old.capacity ≤ self.new.capacity }
        ensures slots { (result ≡ Err AtlasError.Slots)
            ↔ ((state_of self.old).limit < used_in (state_of self.old) + additional) }
        ensures had { HasReserve additional self.old → result ≢ Err AtlasError.Memory }
        ensures live { result ≢ Err AtlasError.NotLive }
        ensures refused { OnErr result (self.new ≡ self.old) }
    {
        self.store.make_room(self.used, self.limit, additional)
    }
}
