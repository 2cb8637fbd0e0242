//! Walks along the live and the free rectangles of an atlas, lists of them, and their areas.
ghost use Rattle.std.specs.Prelude.{◌≡◌, ◌+◌, ◌*◌, List, All, IfOk, IsOkUnless, sum_by};
ghost use Rattle.std.specs.List.{FoldsTo};
ghost use Rattle.std.specs.Fn.{CalledAt};
ghost use Rattle.atlas_model.specs.declared.geometry.Rectangle.{Rectangle as Area};
ghost use Rattle.atlas_model.specs.declared.allocation.Allocation.{Allocation as Grant};
ghost use Rattle.atlas_model.specs.Boxes.{area};
ghost use Rattle.atlas_model.specs.Pixels.{IsMeasurable};
ghost use Rattle.atlas_model.specs.States.{live_in, free_in};
ghost use Rattle.atlas_store.specs.Stored.{state_of};
ghost use Rattle.atlas_store.specs.Visits.{AreFreeAreas, AreGrants, CalledAtGrant};
ghost use Rattle.atlas_store.specs.Walks.{IsCallableAlong, IsCallableAlongGrants, IsShownArea, IsShownGrant};

use crate::atlas::AtlasAllocator;
use atlas_model::{AllocId, Allocation, AtlasError, Rectangle};
use atlas_store::slots::walks::{
    free_sum, gather_allocated, gather_free, live_sum, visit_allocated, visit_free,
};
use std::alloc::Allocator;

impl<A: Allocator + Copy> AtlasAllocator<A> {
    /// The area of all live rectangles together, in unit squares: with `free_area` it is the width times the height of
    /// the atlas. One pass over the slots, and no memory.
    pub fn allocated_area(&self) -> u64
        ensures area { result ≡ sum_by (λ g. area g.box) (live_in (state_of self.now)) }
        ensures whole { result + sum_by area (free_in (state_of self.now))
            ≡ (state_of self.now).size.width * (state_of self.now).size.height }
    {
        live_sum(self.store.slots())
    }

    /// The area of all free rectangles together, in unit squares. One pass over the slots, and no memory.
    pub fn free_area(&self) -> u64
        ensures area { result ≡ sum_by area (free_in (state_of self.now)) }
        ensures whole { sum_by (λ g. area g.box) (live_in (state_of self.now)) + result
            ≡ (state_of self.now).size.width * (state_of self.now).size.height }
    {
        free_sum(self.store.slots())
    }

    /// Calls `visit` on each free rectangle once, in an unspecified order. Requires only that `visit` may be called on them
    /// one after another in any such order: it is called with nothing else. No coordinate of these rectangles is negative.
    pub fn for_each_free_rectangle<F: FnMut(&Rectangle)>(&self, visit: F)
        requires { (areas : List Area) → AreFreeAreas (state_of self.now) areas
            → IsCallableAlong F.FnMut IsShownArea visit areas }
        ensures { (areas : List Area) × AreFreeAreas (state_of self.now) areas
            × ((last : F) × FoldsTo (λ p x q. CalledAt F.FnMut p x tt q) visit areas last) }
    {
        visit_free(self.store.slots(), visit);
    }

    /// Calls `visit` on each live id and its rectangle once, by rising number of the slot, which is the low 24 bits of
    /// the id. Requires only that `visit` may be called on them in that order: it is called with nothing else.
    pub fn for_each_allocated_rectangle<F: FnMut(AllocId, &Rectangle)>(&self, visit: F)
        requires { (grants : List Grant) → AreGrants (state_of self.now) grants
            → IsCallableAlongGrants F.FnMut (IsShownGrant (state_of self.now)) visit grants }
        ensures { (grants : List Grant) × AreGrants (state_of self.now) grants
            × ((last : F) × FoldsTo (CalledAtGrant F.FnMut) visit grants last) }
    {
        visit_allocated(self.store.slots(), visit);
    }

    /// The live ids with their rectangles, by rising number of the slot. `Memory` is the only error.
    pub fn allocations(&self) -> Result<Vec<Allocation, A>, AtlasError>
        ensures unless { IsOkUnless result AtlasError.Memory }
        ensures list { IfOk result (λ found. AreGrants (state_of self.now) found.items) }
        ensures measurable { IfOk result (λ found. All (λ a. IsMeasurable a.rectangle) found.items) }
    {
        gather_allocated(self.store.allocator(), self.store.slots())
    }

    /// The free rectangles, in an order that is left open. `Memory` is the only error.
    pub fn free_rectangles(&self) -> Result<Vec<Rectangle, A>, AtlasError>
        ensures unless { IsOkUnless result AtlasError.Memory }
        ensures list { IfOk result (λ found. AreFreeAreas (state_of self.now) found.items) }
        ensures measurable { IfOk result (λ found. All IsMeasurable found.items) }
    {
        gather_free(self.store.allocator(), self.store.slots())
    }
}
