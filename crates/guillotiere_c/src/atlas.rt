//! The exports of an atlas, but for those that take or write lists.
ghost use Rattle.std.specs.Prelude.{◌≡◌, ◌≢◌, ◌↔◌, ◌⊎◌, ℕ, ◌+◌, ◌<◌, [], option_map, IsFalse, IsTrue, IsSome, IsNone};
ghost use Rattle.std.specs.Prelude.{◌≤◌, IfSome, Some, None, sum_by};
ghost use Rattle.guillotiere.specs.Boxes.{area, Fits};
ghost use Rattle.guillotiere.specs.Choice.{rounded, HasRoom};
ghost use Rattle.guillotiere.specs.Pixels.{allocator_options_of, box_of, rectangle_of, size_of};
ghost use Rattle.guillotiere.specs.Replies.{live_box, IsExact};
ghost use Rattle.guillotiere.specs.Room.{unusable, IsLargest};
ghost use Rattle.guillotiere.specs.States.{live_in, free_in, used_in, IsLive, IsSound};
ghost use Rattle.guillotiere.specs.Steps.AtlasCall.{Allocate, Deallocate, Grow, Clear, Reset};
ghost use Rattle.guillotiere_c.specs.Calls.{GainsMemory, HoldsAtlas, HoldsReserve, IsHeldStep};
ghost use Rattle.guillotiere_c.specs.Numbers.{allocator_options_in, options_in, corners_in, sides_in, size_in};
ghost use Rattle.guillotiere_c.specs.Statuses.{plain_reply, request_reply};

use crate::atlas_handle::{AtlasHandle, AtlasReader};
use crate::plain::{
    BAD_CALL, DONE, EMPTY, MEMORY, NO_ROOM, NOT_LIVE, PlainAllocation, PlainAreas, PlainOptions,
    PlainRectangle, PlainSize, PlainSlots, SLOTS, options_for, plain_allocation, plain_options,
    plain_rectangle, plain_size, plain_slots, status_of, status_of_done,
};
use guillotiere::{AllocId, AtlasAllocator, size2};
use std::alloc::Global;

/// Asks for a box of this size, rounded up by the options. `DONE`: `granted` has its id and its rectangle, which overlaps no
/// other live box. `NO_ROOM` if the size is empty, fits no free box, or passes 2147483647 once it is rounded up; `SLOTS`;
/// `MEMORY`; `EMPTY`.
#[unsafe(no_mangle)]
pub extern "C" fn guillotiere_atlas_allocate(
    alloc: Global,
    atlas: &mut AtlasHandle,
    width: i32,
    height: i32,
    granted: &mut PlainAllocation,
) -> u32
    ensures step { IsSome atlas.old.kept → IsHeldStep atlas.old.kept (Allocate (sides_in width height))
        (request_reply result granted.new) atlas.new.kept }
    ensures sound { IsSome atlas.old.kept → HoldsAtlas atlas.new.kept IsSound }
    ensures exact { result ≡ DONE → IsExact (corners_in granted.new.rectangle) }
    ensures reserve { (n : ℕ) → HoldsReserve (n + 4) atlas.old.kept
        → (result ≢ MEMORY) × HoldsReserve n atlas.new.kept }
    ensures past { HoldsAtlas atlas.old.kept (λ s. (2147483647 < (rounded s.options (sides_in width height)).width)
        ⊎ (2147483647 < (rounded s.options (sides_in width height)).height)) → result ≡ NO_ROOM }
    ensures refused { result ≢ DONE → (atlas.new.kept ≡ atlas.old.kept) × (granted.new ≡ granted.old) }
    ensures empty { IsNone atlas.old.kept → result ≡ EMPTY }
{
    if !atlas.holds() {
        return EMPTY;
    }
    let mut held = atlas.take(alloc);
    let answer = held.allocate(size2(width, height));
    atlas.put(held);
    match answer {
        Ok(Some(allocation)) => {
            *granted = plain_allocation(allocation);
            DONE
        }
        Ok(None) => NO_ROOM,
        Err(error) => status_of(error),
    }
}

/// Frees the box of a live id: it joins the free space next to it. Takes no memory. `DONE`; `NOT_LIVE`; `EMPTY`.
#[unsafe(no_mangle)]
pub extern "C" fn guillotiere_atlas_deallocate(
    alloc: Global,
    atlas: &mut AtlasHandle,
    id: u32,
) -> u32
    ensures step { IsSome atlas.old.kept → IsHeldStep atlas.old.kept (Deallocate id) (plain_reply result)
        atlas.new.kept }
    ensures sound { IsSome atlas.old.kept → HoldsAtlas atlas.new.kept IsSound }
    ensures reserve { (n : ℕ) → HoldsReserve n atlas.old.kept → HoldsReserve n atlas.new.kept }
    ensures refused { result ≢ DONE → atlas.new.kept ≡ atlas.old.kept }
    ensures empty { IsNone atlas.old.kept → result ≡ EMPTY }
{
    if !atlas.holds() {
        return EMPTY;
    }
    let mut held = atlas.take(alloc);
    let answer = held.deallocate(AllocId::deserialize(id));
    atlas.put(held);
    status_of_done(answer)
}

/// The rectangle of a live id. `DONE`: it is in `found`. `NOT_LIVE`; `EMPTY`.
#[unsafe(no_mangle)]
pub extern "C" fn guillotiere_atlas_get(
    atlas: &AtlasReader,
    id: u32,
    found: &mut PlainRectangle,
) -> u32
    ensures live { IsSome atlas.now.kept → HoldsAtlas atlas.now.kept (λ s. (result ≡ DONE) ↔ IsLive s id) }
    ensures rectangle { IsSome atlas.now.kept → result ≡ DONE → HoldsAtlas atlas.now.kept
        (λ s. Some (corners_in found.new) ≡ option_map rectangle_of (live_box s id)) }
    ensures refused { result ≢ DONE → found.new ≡ found.old }
    ensures unless { IsSome atlas.now.kept → result ≢ DONE → result ≡ NOT_LIVE }
    ensures empty { IsNone atlas.now.kept → result ≡ EMPTY }
{
    if !atlas.holds() {
        return EMPTY;
    }
    let held = atlas.lent();
    let rectangle = held.get(AllocId::deserialize(id));
    match rectangle {
        Some(rectangle) => {
            *found = plain_rectangle(rectangle);
            DONE
        }
        None => NOT_LIVE,
    }
}

/// Makes the atlas larger; every live id keeps its rectangle. `DONE`; `BAD_CALL` if a side shrinks; `SLOTS`; `MEMORY`;
/// `EMPTY`.
#[unsafe(no_mangle)]
pub extern "C" fn guillotiere_atlas_grow(
    alloc: Global,
    atlas: &mut AtlasHandle,
    width: i32,
    height: i32,
) -> u32
    ensures step { IsSome atlas.old.kept → IsHeldStep atlas.old.kept (Grow (sides_in width height))
        (plain_reply result) atlas.new.kept }
    ensures sound { IsSome atlas.old.kept → HoldsAtlas atlas.new.kept IsSound }
    ensures reserve { (n : ℕ) → HoldsReserve (n + 3) atlas.old.kept
        → (result ≢ MEMORY) × HoldsReserve n atlas.new.kept }
    ensures refused { result ≢ DONE → atlas.new.kept ≡ atlas.old.kept }
    ensures empty { IsNone atlas.old.kept → result ≡ EMPTY }
{
    if !atlas.holds() {
        return EMPTY;
    }
    let mut held = atlas.take(alloc);
    let size = held.size();
    if width < size.width || height < size.height {
        atlas.put(held);
        return BAD_CALL;
    }
    let answer = held.grow(size2(width, height));
    atlas.put(held);
    status_of_done(answer)
}

/// Whether the atlas may be grown to this size, in pixels: no side shrinks. False of a handle that holds nothing.
#[unsafe(no_mangle)]
pub extern "C" fn guillotiere_atlas_can_grow_to(
    atlas: &AtlasReader,
    width: i32,
    height: i32,
) -> bool
    ensures fits { IsSome atlas.now.kept → HoldsAtlas atlas.now.kept
        (λ s. IsTrue result ↔ Fits s.size (sides_in width height)) }
    ensures empty { IsNone atlas.now.kept → IsFalse result }
{
    if !atlas.holds() {
        return false;
    }
    let held = atlas.lent();
    held.can_grow_to(size2(width, height))
}

/// Whether a request of this size, in pixels, has room: then `guillotiere_atlas_allocate` grants it, slots and memory aside;
/// else it answers `NO_ROOM`. Takes at most one search, and no memory. False of a handle that holds nothing.
#[unsafe(no_mangle)]
pub extern "C" fn guillotiere_atlas_can_fit(atlas: &AtlasReader, width: i32, height: i32) -> bool
    ensures room { IsSome atlas.now.kept → HoldsAtlas atlas.now.kept
        (λ s. IsTrue result ↔ HasRoom (free_in s) s.options (sides_in width height)) }
    ensures empty { IsNone atlas.now.kept → IsFalse result }
{
    if !atlas.holds() {
        return false;
    }
    let held = atlas.lent();
    held.can_fit(size2(width, height))
}

/// Takes memory for this many slots beyond those in use; nothing else changes. While there is memory for 4 more slots no
/// request is answered `MEMORY`, and for 3 no growth; a request uses at most 4, a growth at most 3, a freeing none. The
/// memory stays until the atlas is rearranged or freed, and a copy has none of it.
/// `DONE`; `SLOTS` if more slots would be used than the limit allows; `MEMORY`; `EMPTY`.
#[unsafe(no_mangle)]
pub extern "C" fn guillotiere_atlas_reserve(
    alloc: Global,
    atlas: &mut AtlasHandle,
    additional: u32,
) -> u32
    ensures ready { result ≡ DONE → HoldsReserve additional atlas.new.kept }
    ensures same { IsSome atlas.old.kept → GainsMemory atlas.old.kept atlas.new.kept }
    ensures slots { IsSome atlas.old.kept → HoldsAtlas atlas.old.kept
        (λ s. (result ≡ SLOTS) ↔ (s.limit < used_in s + additional)) }
    ensures memory { IsSome atlas.old.kept → result ≢ DONE → result ≢ SLOTS → result ≡ MEMORY }
    ensures had { HoldsReserve additional atlas.old.kept → result ≢ MEMORY }
    ensures sound { IsSome atlas.old.kept → HoldsAtlas atlas.new.kept IsSound }
    ensures refused { result ≢ DONE → atlas.new.kept ≡ atlas.old.kept }
    ensures empty { IsNone atlas.old.kept → result ≡ EMPTY }
{
    if !atlas.holds() {
        return EMPTY;
    }
    let mut held = atlas.take(alloc);
    let answer = held.reserve(additional);
    atlas.put(held);
    status_of_done(answer)
}

/// Starts again at the present size, options and limit: one free box, no id live. Takes no memory. `DONE`; `EMPTY`.
#[unsafe(no_mangle)]
pub extern "C" fn guillotiere_atlas_clear(alloc: Global, atlas: &mut AtlasHandle) -> u32
    ensures step { IsSome atlas.old.kept → IsHeldStep atlas.old.kept Clear (plain_reply result) atlas.new.kept }
    ensures sound { IsSome atlas.old.kept → HoldsAtlas atlas.new.kept IsSound }
    ensures reserve { (n : ℕ) → HoldsReserve n atlas.old.kept → HoldsReserve n atlas.new.kept }
    ensures done { IsSome atlas.old.kept → result ≡ DONE }
    ensures empty { IsNone atlas.old.kept → (result ≡ EMPTY) × (atlas.new.kept ≡ None) }
{
    if !atlas.holds() {
        return EMPTY;
    }
    let mut held = atlas.take(alloc);
    let answer = held.clear();
    atlas.put(held);
    status_of_done(answer)
}

/// Starts again at this size and with these options; the limit stays. Takes no memory.
/// `DONE`; `BAD_CALL` if a side isn't above 0 or the options aren't valid; `EMPTY`.
#[unsafe(no_mangle)]
pub extern "C" fn guillotiere_atlas_reset(
    alloc: Global,
    atlas: &mut AtlasHandle,
    width: i32,
    height: i32,
    options: &PlainOptions,
) -> u32
    ensures step { IsSome atlas.old.kept → IsHeldStep atlas.old.kept
        (Reset (sides_in width height) (options_in options.now)) (plain_reply result) atlas.new.kept }
    ensures sound { IsSome atlas.old.kept → HoldsAtlas atlas.new.kept IsSound }
    ensures reserve { (n : ℕ) → HoldsReserve n atlas.old.kept → HoldsReserve n atlas.new.kept }
    ensures unless { IsSome atlas.old.kept → result ≢ DONE → result ≡ BAD_CALL }
    ensures refused { result ≢ DONE → atlas.new.kept ≡ atlas.old.kept }
    ensures empty { IsNone atlas.old.kept → result ≡ EMPTY }
{
    if !atlas.holds() {
        return EMPTY;
    }
    let options = options_for(options);
    let mut held = atlas.take(alloc);
    if width <= 0 || height <= 0 || !options.is_valid() {
        atlas.put(held);
        return BAD_CALL;
    }
    let answer = held.reset(size2(width, height), &options);
    atlas.put(held);
    status_of_done(answer)
}

/// The size of the atlas. `DONE`; `EMPTY`.
#[unsafe(no_mangle)]
pub extern "C" fn guillotiere_atlas_size(atlas: &AtlasReader, size: &mut PlainSize) -> u32
    ensures size { IsSome atlas.now.kept → HoldsAtlas atlas.now.kept (λ s. size_in size.new ≡ size_of s.size) }
    ensures done { IsSome atlas.now.kept → result ≡ DONE }
    ensures empty { IsNone atlas.now.kept → (result ≡ EMPTY) × (size.new ≡ size.old) }
{
    if !atlas.holds() {
        return EMPTY;
    }
    let held = atlas.lent();
    *size = plain_size(held.size());
    DONE
}

/// The options of the atlas. `DONE`; `EMPTY`.
#[unsafe(no_mangle)]
pub extern "C" fn guillotiere_atlas_options(atlas: &AtlasReader, options: &mut PlainOptions) -> u32
    ensures options { IsSome atlas.now.kept → HoldsAtlas atlas.now.kept
        (λ s. allocator_options_in options.new ≡ allocator_options_of s.options) }
    ensures done { IsSome atlas.now.kept → result ≡ DONE }
    ensures empty { IsNone atlas.now.kept → (result ≡ EMPTY) × (options.new ≡ options.old) }
{
    if !atlas.holds() {
        return EMPTY;
    }
    let held = atlas.lent();
    *options = plain_options(held.options());
    DONE
}

/// The counts of slots. `DONE`; `EMPTY`.
#[unsafe(no_mangle)]
pub extern "C" fn guillotiere_atlas_slots(atlas: &AtlasReader, slots: &mut PlainSlots) -> u32
    ensures used { IsSome atlas.now.kept → HoldsAtlas atlas.now.kept (λ s. slots.new.used ≡ used_in s) }
    ensures kept { IsSome atlas.now.kept → HoldsAtlas atlas.now.kept (λ s. slots.new.kept ≡ s.kept) }
    ensures memory { IfSome atlas.now.kept (λ v. slots.new.kept ≤ v.capacity) }
    ensures limit { IsSome atlas.now.kept → HoldsAtlas atlas.now.kept (λ s. slots.new.limit ≡ s.limit) }
    ensures done { IsSome atlas.now.kept → result ≡ DONE }
    ensures empty { IsNone atlas.now.kept → (result ≡ EMPTY) × (slots.new ≡ slots.old) }
{
    if !atlas.holds() {
        return EMPTY;
    }
    let held = atlas.lent();
    *slots = plain_slots(held.slots());
    DONE
}

/// The areas of all live and of all free boxes, in one pass over the slots. `DONE`; `EMPTY`.
#[unsafe(no_mangle)]
pub extern "C" fn guillotiere_atlas_areas(atlas: &AtlasReader, areas: &mut PlainAreas) -> u32
    ensures allocated { IsSome atlas.now.kept → HoldsAtlas atlas.now.kept
        (λ s. areas.new.allocated ≡ sum_by (λ g. area g.box) (live_in s)) }
    ensures free { IsSome atlas.now.kept → HoldsAtlas atlas.now.kept
        (λ s. areas.new.free ≡ sum_by area (free_in s)) }
    ensures done { IsSome atlas.now.kept → result ≡ DONE }
    ensures empty { IsNone atlas.now.kept → (result ≡ EMPTY) × (areas.new ≡ areas.old) }
{
    if !atlas.holds() {
        return EMPTY;
    }
    let held = atlas.lent();
    *areas = PlainAreas {
        allocated: held.allocated_area(),
        free: held.free_area(),
    };
    DONE
}

/// Of the area that is free, what lies in free boxes which have no room for a request of this size, rounded up by the options:
/// all of it, if a side is 0 or less. Asked with the size of a usual box it says how fragmented the atlas is: where much is of
/// no use, it is time to rearrange it. Takes one pass over the slots, and no memory. `DONE`; `EMPTY`.
#[unsafe(no_mangle)]
pub extern "C" fn guillotiere_atlas_unusable_area(
    atlas: &AtlasReader,
    width: i32,
    height: i32,
    area: &mut u64,
) -> u32
    ensures area { IsSome atlas.now.kept → HoldsAtlas atlas.now.kept
        (λ s. area.new ≡ sum_by (unusable s.options (sides_in width height)) (free_in s)) }
    ensures done { IsSome atlas.now.kept → result ≡ DONE }
    ensures empty { IsNone atlas.now.kept → (result ≡ EMPTY) × (area.new ≡ area.old) }
{
    if !atlas.holds() {
        return EMPTY;
    }
    let held = atlas.lent();
    *area = held.unusable_area(size2(width, height));
    DONE
}

/// The free box of the largest area; of several the topmost one, and of these the leftmost. Takes one pass over the slots.
/// `DONE`: it is in `found`. `NO_ROOM` if nothing is free; `EMPTY`.
#[unsafe(no_mangle)]
pub extern "C" fn guillotiere_atlas_largest_free(
    atlas: &AtlasReader,
    found: &mut PlainRectangle,
) -> u32
    ensures largest { IsSome atlas.now.kept → result ≡ DONE → HoldsAtlas atlas.now.kept
        (λ s. IsLargest (free_in s) (box_of (corners_in found.new))) }
    ensures exact { result ≡ DONE → IsExact (corners_in found.new) }
    ensures none { IsSome atlas.now.kept → result ≢ DONE → (result ≡ NO_ROOM)
        × HoldsAtlas atlas.now.kept (λ s. free_in s ≡ []) }
    ensures refused { result ≢ DONE → found.new ≡ found.old }
    ensures empty { IsNone atlas.now.kept → result ≡ EMPTY }
{
    if !atlas.holds() {
        return EMPTY;
    }
    let held = atlas.lent();
    let rectangle = held.largest_free();
    match rectangle {
        Some(rectangle) => {
            *found = plain_rectangle(rectangle);
            DONE
        }
        None => NO_ROOM,
    }
}

/// Whether no id is live; also true of a handle that holds nothing.
#[unsafe(no_mangle)]
pub extern "C" fn guillotiere_atlas_is_empty(atlas: &AtlasReader) -> bool
    ensures live { IsSome atlas.now.kept → HoldsAtlas atlas.now.kept (λ s. IsTrue result ↔ (live_in s ≡ [])) }
    ensures empty { IsNone atlas.now.kept → IsTrue result }
{
    if !atlas.holds() {
        return true;
    }
    let held = atlas.lent();
    held.is_empty()
}
