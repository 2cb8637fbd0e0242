//! How much of what is free is of no use for a request, and the largest free rectangle.
ghost use Rattle.std.specs.Prelude.{◌≡◌, ◌<◌, ◌≤◌, ◌^◌, [], ◌∷◌, All, IfNone, IfSome, IsFalse, IsTrue, sum_by};
ghost use Rattle.atlas_model.specs.Boxes.{area};
ghost use Rattle.atlas_model.specs.Pixels.{box_of, sides_of, IsMeasurable};
ghost use Rattle.atlas_model.specs.Replies.{IsExact};
ghost use Rattle.atlas_model.specs.States.{free_in};
ghost use Rattle.atlas_store.specs.Slots.{nodes};
ghost use Rattle.atlas_store.specs.Stored.{state_of};
ghost use Rattle.atlas_store.specs.Visits.{free_areas};
ghost use Rattle.atlas_store.specs.Walks.{IsShownArea};
ghost use Rattle.atlas_allocator.specs.Room.{lost, lost_area, unusable, and_maybe, IsLargest, IsLargestOf, Precedes};

use crate::atlas::AtlasAllocator;
use atlas_model::{Rectangle, Size};
use atlas_store::slots::walks::free_sum;
use atlas_store::slots::{NodeKind, Slot};
use std::alloc::Allocator;

// The area of a free rectangle, in unit squares.
fn area_of(free: &Rectangle) -> u64
    requires { IsShownArea free.now }
    ensures { result ≡ area (box_of free.now) }
{
    free.width() as u64 * free.height() as u64
}

// The area of a free rectangle, if these sides don't fit it.
fn lost_in(free: &Rectangle, size: Size) -> u64
    requires { IsShownArea free.now }
    ensures { result ≡ lost (sides_of size) (box_of free.now) }
{
    if size.width <= free.width() && size.height <= free.height() {
        return 0;
    }
    area_of(free)
}

// The area of all free slots that these sides don't fit, together.
fn lost_sum(slots: &[Slot], size: Size) -> u64
    requires shown { All IsShownArea (free_areas (nodes slots.now)) }
    requires fits { lost_area (sides_of size) (free_areas (nodes slots.now)) < 2 ^ 64 }
    ensures { result ≡ lost_area (sides_of size) (free_areas (nodes slots.now)) }
{
    let mut sum = 0;
    for slot in slots {
        if slot.kind == NodeKind::Free {
            sum += lost_in(&slot.area, size);
        }
    }
    sum
}

// Whether a free rectangle has the larger area of two, or the same and lies above the other, or at the same height and left of it.
fn precedes(one: &Rectangle, other: &Rectangle) -> bool
    requires one { IsShownArea one.now }
    requires other { IsShownArea other.now }
    ensures yes { IsTrue result → Precedes (box_of one.now) (box_of other.now) }
    ensures no { IsFalse result → Precedes (box_of other.now) (box_of one.now) }
{
    let area = area_of(one);
    let other_area = area_of(other);
    if area != other_area {
        return other_area < area;
    }
    if one.min.y != other.min.y {
        return one.min.y < other.min.y;
    }
    one.min.x < other.min.x
}

// The one of two free rectangles that precedes the other.
fn larger_of(held: Rectangle, free: Rectangle) -> Rectangle
    requires held { IsShownArea held }
    requires free { IsShownArea free }
    ensures { IsLargestOf (held ∷ free ∷ []) result }
{
    if precedes(&held, &free) {
        return held;
    }
    free
}

// That one of two free rectangles which precedes the other, or the second where there is no first.
fn larger(best: Option<Rectangle>, free: Rectangle) -> Rectangle
    requires best { IfSome best IsShownArea }
    requires free { IsShownArea free }
    ensures { IsLargestOf (and_maybe best (free ∷ [])) result }
{
    match best {
        Some(held) => larger_of(held, free),
        None => free,
    }
}

// Of the free slots the one whose rectangle precedes all others.
fn largest_of(slots: &[Slot]) -> Option<Rectangle>
    requires { All IsShownArea (free_areas (nodes slots.now)) }
    ensures some { IfSome result (IsLargestOf (free_areas (nodes slots.now))) }
    ensures none { IfNone result (free_areas (nodes slots.now) ≡ []) }
{
    let mut best = None;
    for slot in slots {
        if slot.kind == NodeKind::Free {
            best = Some(larger(best, slot.area));
        }
    }
    best
}

impl<A: Allocator + Copy> AtlasAllocator<A> {
    /// The area that is free in rectangles which have no room for a request of this size, rounded up to the alignment, in
    /// unit squares: all that is free, if a side is 0 or less. It says how much of the free area (`free_area`) is of no use
    /// for requests of the usual size: where that is a lot, it is time to rearrange. One pass over the slots, and no memory.
    pub fn unusable_area(&self, requested_size: Size) -> u64
        ensures { result ≡ sum_by (unusable (state_of self.now).options (sides_of requested_size)) (free_in (state_of self.now)) }
    {
        match self.store.rounded(requested_size) {
            Some(size) => lost_sum(self.store.slots(), size),
            None => free_sum(self.store.slots()),
        }
    }

    /// The free rectangle of the largest area; of several the topmost one, and of these the leftmost. None if nothing is
    /// free. A request as large as its area needn't have room: `can_fit` is the test. One pass over the slots, and no memory.
    pub fn largest_free(&self) -> Option<Rectangle>
        ensures largest { IfSome result (λ r. IsLargest (free_in (state_of self.now)) (box_of r)) }
        ensures none { IfNone result (free_in (state_of self.now) ≡ []) }
        ensures exact { IfSome result IsExact }
        ensures measurable { IfSome result IsMeasurable }
    {
        largest_of(self.store.slots())
    }
}
