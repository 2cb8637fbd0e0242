//! Live and free rectangles one after another, without a list or a callback.
ghost use Rattle.std.specs.Prelude.{◌≡◌, List, IfOk, map};
ghost use Rattle.guillotiere.specs.declared.Allocation.{Allocation as Grant};
ghost use Rattle.guillotiere.specs.Stored.{state_of};
ghost use Rattle.guillotiere.specs.Visits.{AreGrants};

use guillotiere::{AllocId, Allocation, AtlasAllocator, AtlasError, FreeIter, LiveIter, Rectangle};
use std::alloc::Allocator;

/// How far to the right live rectangles reach.
pub fn reach<A: Allocator + Copy>(atlas: &AtlasAllocator<A>) -> i32 {
    let mut reach = 0;
    for live in atlas.iter() {
        reach = reach.max(live.rectangle.max.x);
    }
    reach
}

/// The widths of all live rectangles, added up.
pub fn widths<A: Allocator + Copy>(atlas: &AtlasAllocator<A>) -> i32 {
    let mut sum: i32 = 0;
    for live in atlas.iter() {
        sum = sum.wrapping_add(live.rectangle.width());
    }
    sum
}

/// The ids of what is live, in a list.
pub fn ids<A: Allocator + Copy>(
    atlas: &AtlasAllocator<A>,
    alloc: A,
) -> Result<Vec<AllocId, A>, AtlasError>
    ensures { IfOk result (λ ids. (grants : List Grant) × AreGrants (state_of atlas.now) grants
        × (ids.items ≡ map (λ grant. grant.id) grants)) }
{
    Ok(atlas.iter().map(|live| live.id).collect(alloc)?)
}

/// The live rectangle that ends at this column, the first by the number of its slot.
pub fn ends_at<A: Allocator + Copy>(atlas: &AtlasAllocator<A>, column: i32) -> Option<Allocation> {
    atlas.iter().find(|live| live.rectangle.max.x == column)
}

/// The next live rectangle of a walk that reaches below this row.
pub fn next_below(walk: &mut LiveIter<'_>, row: i32) -> Option<Allocation> {
    walk.find(|live| live.rectangle.max.y > row)
}

/// The greatest height that is free.
pub fn free_height<A: Allocator + Copy>(atlas: &AtlasAllocator<A>) -> i32 {
    let mut most = 0;
    for free in atlas.free_iter() {
        most = most.max(free.height());
    }
    most
}

/// The free rectangle that a walk gives next; the walk stays where it is.
pub fn peek(walk: &FreeIter<'_>) -> Option<Rectangle> {
    walk.copy().next()
}
