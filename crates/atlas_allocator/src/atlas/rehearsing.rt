//! Rehearsals of freeings: the free box that there would be, were some ids freed.
ghost use Rattle.std.specs.Prelude.{◌≡◌, ◌↔◌, IsTrue, ℕ, Bool, true, false, All, Contains, IfSome, length};
ghost use Rattle.atlas_model.specs.Boxes.{box_sides, Fits, IsInside, IsPositive};
ghost use Rattle.atlas_model.specs.Changes.{and_id};
ghost use Rattle.atlas_model.specs.Choice.{rounded};
ghost use Rattle.atlas_model.specs.Pixels.{box_of, sides_of, IsMeasurable};
ghost use Rattle.atlas_model.specs.Replies.{IsExact, live_box};
ghost use Rattle.atlas_model.specs.States.{IsLive, after_freeing, free_in};
ghost use Rattle.atlas_store.specs.Rehearsals.{AreShown};
ghost use Rattle.atlas_store.specs.Stored.{state_of};

use crate::atlas::AtlasAllocator;
use atlas_model::{AllocId, Rectangle, Size};
use atlas_search::link::Link;
use atlas_store::slots::rehearsing::show;
use atlas_store::slots::walks::slot_number;
use std::alloc::Allocator;

impl<A: Allocator + Copy> AtlasAllocator<A> {
    /// Shows a live id as freed, in addition to those that the marks show, and leaves the atlas as it is. The answer is the free
    /// rectangle that would be around its rectangle, were all that is shown freed. Requires a live id that isn't shown yet. There is a
    /// mark for each slot that is kept (`slots`); at first all are false (`prove_none_shown`). One step for each container that is shown
    /// with it, and for each member beside these that is free or shown; no memory.
    pub fn rehearse(&self, marks: &mut [bool], id: AllocId) -> Rectangle
        requires marks { length marks.old ≡ (state_of self.now).kept }
        requires live { IsLive (state_of self.now) id }
        requires shown { (set : ℕ → Bool) × AreShown self.now marks.old set × (set id ≡ false) }
        ensures shown { (set : ℕ → Bool) → AreShown self.now marks.old set → set id ≡ false
            → AreShown self.now marks.new (and_id set id) }
        ensures free { (set : ℕ → Bool) → AreShown self.now marks.old set → set id ≡ false
            → Contains (free_in (after_freeing (state_of self.now) (and_id set id))) (box_of result) }
        ensures around { IfSome (live_box (state_of self.now) id) (λ b. IsInside b (box_of result)) }
        ensures exact { IsExact result }
        ensures measurable { IsMeasurable result }
        ensures marks { length marks.new ≡ length marks.old }
    {
        let leaf = Link {
            number: slot_number(id),
        };
        show(self.store.slots(), marks, leaf)
    }

    /// States that marks that are all false show nothing, one for each slot that is kept (`slots`), and does nothing.
    pub fn prove_none_shown(&self, marks: &[bool])
        requires marks { length marks.now ≡ (state_of self.now).kept }
        requires none { All (λ m. m ≡ false) marks.now }
        ensures shown { AreShown self.now marks.now (λ _. false) }
    {
        let _slots = self.store.slots();
    }

    /// Whether a request, rounded up, fits a rectangle: its size isn't empty, and neither side passes that of the rectangle. Requires
    /// coordinates that aren't negative.
    pub fn fits(&self, requested_size: Size, area: &Rectangle) -> bool
        requires exact { IsExact area.now }
        requires measurable { IsMeasurable area.now }
        ensures { IsTrue result ↔ (IsPositive (sides_of requested_size)
            × Fits (rounded (state_of self.now).options (sides_of requested_size)) (box_sides (box_of area.now))) }
    {
        let width = area.width();
        let height = area.height();
        match self.store.rounded(requested_size) {
            Some(size) => size.width <= width && size.height <= height,
            None => false,
        }
    }
}
