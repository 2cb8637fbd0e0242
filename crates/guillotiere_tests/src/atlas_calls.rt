//! Rows of calls of an atlas and what they answer.

use crate::refusing::Refusing;
use crate::tables::{Corners, Sides};
use guillotiere::session::Call;
use guillotiere::{AllocId, AllocatorOptions, AtlasAllocator, Rectangle, Size, SlotCount};
use std::alloc::Global;

pub type Atlas<'a> = AtlasAllocator<&'a Refusing<Global>>;

/// A serialized id and its box.
pub type Grant = (u32, Corners);

/// A call, or a question, and its answer; ids are serialized.
pub enum Step {
    /// `allocate`: the id and the box, or none.
    Allocate(Sides, Option<Grant>),
    /// `allocate` of what would need more slots than the limit allows.
    AllocateBeyondLimit(Sides),
    Deallocate(u32),
    /// `deallocate` of an id that is not live.
    DeallocateDead(u32),
    DeallocateAll(&'static [u32]),
    /// `deallocate_all` of ids that are not all live, or not distinct.
    DeallocateAllDead(&'static [u32]),
    /// `grow` to a size.
    Grow(Sides),
    /// `grow` that would need more slots than the limit allows.
    GrowBeyondLimit(Sides),
    /// `grow` to a size of which a side is too small.
    BadGrow(Sides),
    Clear,
    /// `reset` to a size and options.
    Reset(Sides, AllocatorOptions),
    /// `reset` to an empty size, or with options that aren't valid.
    BadReset(Sides, AllocatorOptions),
    /// `rearrange`: what moved, each from the first to the second, and what found no room.
    Rearrange(&'static [(Grant, Grant)], &'static [Grant]),
    /// `rearrange` that would need more slots than the limit allows.
    RearrangeBeyondLimit,
    /// `resize_and_rearrange` to an empty size.
    BadResize(Sides),
    Get(u32, Option<Corners>),
    IsEmpty(bool),
    /// What `free_rectangles` lists, in any order.
    Free(&'static [Corners]),
    /// What `allocations` lists.
    Live(&'static [Grant]),
    /// The slots in use, and the most that were in use.
    Slots(u32, u32),
    /// From here on every request for memory is refused.
    RefuseEvery,
    /// From here on no request for memory is refused.
    RefuseNone,
}

/// An atlas, and calls of it in turn.
pub struct Row {
    pub size: Sides,
    pub options: AllocatorOptions,
    pub limit: u32,
    /// Calls that come first.
    pub start: &'static [Step],
    pub calls: &'static [Step],
}

/// As many slots as ids can name.
pub const MOST_SLOTS: u32 = 16777216;

/// What can be seen of an atlas without a request for memory; the boxes are folded into two numbers.
#[derive(Clone, Copy, Debug, PartialEq)]
pub struct Sight {
    size: Size,
    empty: bool,
    slots: SlotCount,
    free: u64,
    live: u64,
}

// The size that a call gives an atlas; None if it keeps its own.
fn new_size(call: &Call) -> Option<Size> {
    match call {
        Call::Grow(size) | Call::Reset(size, _) | Call::ResizeAndRearrange(size) => Some(*size),
        _ => None,
    }
}

impl Sight {
    /// Whether this is seen of an empty atlas with this size and this limit.
    pub fn is_fresh(&self, size: Size, limit: u32) -> bool {
        self.empty && self.size == size && self.slots.limit == limit
    }

    /// Whether this may be seen after a call that did something: the limit stays, and the size but where the call gives
    /// another; after a start nothing is live.
    pub fn may_follow(&self, before: &Sight, call: &Call) -> bool {
        let is_start = matches!(call, Call::Clear | Call::Reset(..));
        let size = new_size(call).unwrap_or(before.size);
        self.size == size && self.slots.limit == before.slots.limit && (self.empty || !is_start)
    }
}

// One number for a box.
fn folded(area: &Rectangle) -> u64 {
    let mut sum = 14695981039346656037u64;
    for side in [area.min.x, area.min.y, area.max.x, area.max.y] {
        sum = (sum ^ u64::from(side.cast_unsigned())).wrapping_mul(1099511628211);
    }
    sum
}

pub fn look_at(atlas: &Atlas<'_>) -> Sight {
    let mut free = 0u64;
    atlas.for_each_free_rectangle(|area: &Rectangle| free = free.wrapping_add(folded(area)));
    let mut live = 0u64;
    atlas.for_each_allocated_rectangle(|id: AllocId, area: &Rectangle| {
        live = live
            .wrapping_mul(31)
            .wrapping_add(folded(area))
            .wrapping_add(u64::from(id.serialize()));
    });
    Sight {
        size: atlas.size(),
        empty: atlas.is_empty(),
        slots: atlas.slots(),
        free,
        live,
    }
}
