//! The exports of a simple allocator.
ghost use Rattle.std.specs.Prelude.{◌≡◌, ◌≢◌, ◌↔◌, ◌⊎◌, ◌<◌, ◌≤◌, Any, IsFalse, IsTrue, IsSome, IsNone, None, Ok};
ghost use Rattle.std.specs.Prelude.{IfOk, IfSome, OnErr};
ghost use Rattle.guillotiere.specs.Boxes.{box_sides, Fits, IsPositive};
ghost use Rattle.guillotiere.specs.Choice.{AreValid, rounded};
ghost use Rattle.guillotiere.specs.Pixels.{allocator_options_of, options_of, sides_of, size_of};
ghost use Rattle.guillotiere.specs.Replies.{IsExact};
ghost use Rattle.guillotiere.specs.Simple.{IsSimple, SimpleStep, simple_answer, simple_start};
ghost use Rattle.guillotiere.specs.Simple.SimpleAtlasCall.{Allocate, Clear, Grow, Reset};
ghost use Rattle.guillotiere.specs.SimpleStored.{kept_entries, used_entries, MayAskMemory, UsesEachEntry, UsesOldEntries};
ghost use Rattle.guillotiere.specs.TheConstants.{DEFAULT_OPTIONS};
ghost use Rattle.guillotiere_c.specs.Numbers.{allocator_options_in, options_in, corners_in, sides_in, size_in};
ghost use Rattle.guillotiere_c.specs.SimpleCalls.{HoldsSimple, IsHeldSimpleStep, IsHeldStart, KeepRoom, UseOldEntries};
ghost use Rattle.guillotiere_c.specs.SimpleStatuses.{plain_answer, request_answer};
ghost use Rattle.guillotiere.specs.SimpleStored.{simple_state_of};

use crate::atlas_handle::AtlasReader;
use crate::plain::{
    BAD_CALL, DONE, EMPTY, MEMORY, NO_ROOM, OCCUPIED, PlainOptions, PlainRectangle, PlainSize,
    PlainSlots, options_for, plain_options, plain_rectangle, plain_size, plain_slots, status_of,
    status_of_done,
};
use crate::simple_handle::{SimpleHandle, SimpleReader};
use guillotiere::{
    AllocatorOptions, AtlasError, DEFAULT_OPTIONS, Rectangle, SimpleAtlasAllocator, Size, size2,
};
use std::alloc::Global;

// Makes a simple allocator where the handle holds nothing.
fn start(
    alloc: Global,
    width: i32,
    height: i32,
    options: &AllocatorOptions,
    simple: &mut SimpleHandle,
) -> u32
    ensures state { result ≡ DONE → HoldsSimple simple.new.kept
        (λ s. s ≡ simple_start (sides_in width height) (options_of options.now)) }
    ensures entries { result ≡ DONE → IfSome simple.new.kept UsesEachEntry }
    ensures bad { result ≡ BAD_CALL → IsPositive (sides_in width height) × AreValid (options_of options.now) → ⊥ }
    ensures good { result ≡ MEMORY → IsPositive (sides_in width height) × AreValid (options_of options.now) }
    ensures refused { result ≢ DONE → simple.new.kept ≡ simple.old.kept }
    ensures memory { result ≢ DONE → result ≢ BAD_CALL → IsNone simple.old.kept → result ≡ MEMORY }
    ensures full { IsSome simple.old.kept → result ≡ OCCUPIED }
{
    if simple.holds() {
        return OCCUPIED;
    }
    if width <= 0 || height <= 0 || !options.is_valid() {
        return BAD_CALL;
    }
    let made = SimpleAtlasAllocator::with_options(alloc, size2(width, height), options);
    let Ok(made) = made else {
        return MEMORY;
    };
    match Box::new(alloc, made) {
        Ok(held) => {
            simple.put(held);
            DONE
        }
        Err(_) => MEMORY,
    }
}

/// Makes a simple allocator with the default options, where the handle holds nothing.
/// `DONE`; `BAD_CALL` if a side isn't above 0; `MEMORY`; `OCCUPIED`, before all others, if the handle holds one already.
#[unsafe(no_mangle)]
pub extern "C" fn guillotiere_simple_new(
    alloc: Global,
    width: i32,
    height: i32,
    simple: &mut SimpleHandle,
) -> u32
    ensures state { result ≡ DONE → HoldsSimple simple.new.kept
        (λ s. s ≡ simple_start (sides_in width height) (options_of DEFAULT_OPTIONS)) }
    ensures entries { result ≡ DONE → IfSome simple.new.kept UsesEachEntry }
    ensures bad { result ≡ BAD_CALL → IsPositive (sides_in width height) → ⊥ }
    ensures good { result ≡ MEMORY → IsPositive (sides_in width height) }
    ensures refused { result ≢ DONE → simple.new.kept ≡ simple.old.kept }
    ensures memory { result ≢ DONE → result ≢ BAD_CALL → IsNone simple.old.kept → result ≡ MEMORY }
    ensures full { IsSome simple.old.kept → result ≡ OCCUPIED }
{
    start(alloc, width, height, &DEFAULT_OPTIONS, simple)
}

/// Makes a simple allocator with these options, where the handle holds nothing. `DONE`; `BAD_CALL` if a side isn't above 0
/// or the options aren't valid; `MEMORY`; `OCCUPIED`, before all others, if the handle holds one already.
#[unsafe(no_mangle)]
pub extern "C" fn guillotiere_simple_with_options(
    alloc: Global,
    width: i32,
    height: i32,
    options: &PlainOptions,
    simple: &mut SimpleHandle,
) -> u32
    ensures state { result ≡ DONE → HoldsSimple simple.new.kept
        (λ s. s ≡ simple_start (sides_in width height) (options_in options.now)) }
    ensures entries { result ≡ DONE → IfSome simple.new.kept UsesEachEntry }
    ensures bad { result ≡ BAD_CALL → IsPositive (sides_in width height) × AreValid (options_in options.now) → ⊥ }
    ensures good { result ≡ MEMORY → IsPositive (sides_in width height) × AreValid (options_in options.now) }
    ensures refused { result ≢ DONE → simple.new.kept ≡ simple.old.kept }
    ensures memory { result ≢ DONE → result ≢ BAD_CALL → IsNone simple.old.kept → result ≡ MEMORY }
    ensures full { IsSome simple.old.kept → result ≡ OCCUPIED }
{
    let options = options_for(options);
    start(alloc, width, height, &options, simple)
}

/// Frees a simple allocator, with all its memory; the handle holds nothing then.
#[unsafe(no_mangle)]
pub extern "C" fn guillotiere_simple_free(alloc: Global, simple: &mut SimpleHandle)
    ensures { simple.new.kept ≡ None }
{
    if !simple.holds() {
        return;
    }
    let _held = simple.take(alloc);
}

// Requests a rectangle; what the export's contract needs of the answer.
fn request(simple: &mut SimpleAtlasAllocator, size: Size) -> Result<Option<Rectangle>, AtlasError>
    ensures step { SimpleStep (simple_state_of simple.old) (Allocate (sides_of size)) (simple_answer result)
        (simple_state_of simple.new) }
    ensures exact { IfOk result (λ granted. IfSome granted (λ rectangle. IsExact rectangle)) }
    ensures none { result ≡ Ok None → simple.new ≡ simple.old }
    ensures refused { OnErr result (simple.new ≡ simple.old) }
    ensures entries { UsesOldEntries simple.old simple.new }
    ensures capacity { simple.old.capacity ≤ simple.new.capacity }
    ensures memory { OnErr result (MayAskMemory simple.old (Allocate (sides_of size))) }
    ensures past { (2147483647 < (rounded (simple_state_of simple.old).options (sides_of size)).width)
        ⊎ (2147483647 < (rounded (simple_state_of simple.old).options (sides_of size)).height) → result ≡ Ok None }
    ensures simple { IsSimple (simple_state_of simple.new) }
{
    simple.allocate(size)
}

/// Asks for a box of this size, rounded up by the options. `DONE`: its rectangle is in `granted`. `NO_ROOM` if the size is
/// empty or fits no free box; `MEMORY`; `EMPTY`.
#[unsafe(no_mangle)]
pub extern "C" fn guillotiere_simple_allocate(
    alloc: Global,
    simple: &mut SimpleHandle,
    width: i32,
    height: i32,
    granted: &mut PlainRectangle,
) -> u32
    ensures step { IsSome simple.old.kept → IsHeldSimpleStep simple.old.kept (Allocate (sides_in width height))
        (request_answer result granted.new) simple.new.kept }
    ensures kept { IsSome simple.old.kept → HoldsSimple simple.new.kept IsSimple }
    ensures exact { result ≡ DONE → IsExact (corners_in granted.new) }
    ensures entries { result ≡ DONE → UseOldEntries simple.old.kept simple.new.kept }
    ensures memory { result ≡ MEMORY → IfSome simple.old.kept (λ v. MayAskMemory v (Allocate (sides_in width height))) }
    ensures room { IsSome simple.old.kept → KeepRoom simple.old.kept simple.new.kept }
    ensures past { HoldsSimple simple.old.kept (λ s. (2147483647 < (rounded s.options (sides_in width height)).width)
        ⊎ (2147483647 < (rounded s.options (sides_in width height)).height)) → result ≡ NO_ROOM }
    ensures refused { result ≢ DONE → (simple.new.kept ≡ simple.old.kept) × (granted.new ≡ granted.old) }
    ensures empty { IsNone simple.old.kept → result ≡ EMPTY }
{
    if !simple.holds() {
        return EMPTY;
    }
    let mut held = simple.take(alloc);
    let answer = request(&mut held, size2(width, height));
    simple.put(held);
    match answer {
        Ok(Some(rectangle)) => {
            *granted = plain_rectangle(rectangle);
            DONE
        }
        Ok(None) => NO_ROOM,
        Err(error) => status_of(error),
    }
}

/// Makes the allocator larger. `DONE`; `BAD_CALL` if a side shrinks; `MEMORY`; `EMPTY`.
#[unsafe(no_mangle)]
pub extern "C" fn guillotiere_simple_grow(
    alloc: Global,
    simple: &mut SimpleHandle,
    width: i32,
    height: i32,
) -> u32
    ensures step { IsSome simple.old.kept → IsHeldSimpleStep simple.old.kept (Grow (sides_in width height))
        (plain_answer result) simple.new.kept }
    ensures kept { IsSome simple.old.kept → HoldsSimple simple.new.kept IsSimple }
    ensures equal { result ≢ BAD_CALL → HoldsSimple simple.old.kept (λ s. s.size ≡ sides_in width height)
        → (result ≡ DONE) × (simple.new.kept ≡ simple.old.kept) }
    ensures entries { result ≡ DONE → UseOldEntries simple.old.kept simple.new.kept }
    ensures memory { result ≡ MEMORY → IfSome simple.old.kept (λ v. MayAskMemory v (Grow (sides_in width height))) }
    ensures room { IsSome simple.old.kept → KeepRoom simple.old.kept simple.new.kept }
    ensures refused { result ≢ DONE → simple.new.kept ≡ simple.old.kept }
    ensures empty { IsNone simple.old.kept → result ≡ EMPTY }
{
    if !simple.holds() {
        return EMPTY;
    }
    let mut held = simple.take(alloc);
    let size = held.size();
    if width < size.width || height < size.height {
        simple.put(held);
        return BAD_CALL;
    }
    let answer = held.grow(size2(width, height));
    simple.put(held);
    status_of_done(answer)
}

/// Whether the allocator may be grown to this size, in pixels: no side shrinks. False of a handle that holds nothing.
#[unsafe(no_mangle)]
pub extern "C" fn guillotiere_simple_can_grow_to(
    simple: &SimpleReader,
    width: i32,
    height: i32,
) -> bool
    ensures fits { IsSome simple.now.kept → HoldsSimple simple.now.kept
        (λ s. IsTrue result ↔ Fits s.size (sides_in width height)) }
    ensures empty { IsNone simple.now.kept → IsFalse result }
{
    if !simple.holds() {
        return false;
    }
    let held = simple.lent();
    held.can_grow_to(size2(width, height))
}

/// Starts again with one free box of the allocator's size. Keeps the room of the entries, and takes no memory. `DONE`; `EMPTY`.
#[unsafe(no_mangle)]
pub extern "C" fn guillotiere_simple_clear(alloc: Global, simple: &mut SimpleHandle) -> u32
    ensures step { IsSome simple.old.kept → IsHeldSimpleStep simple.old.kept Clear (plain_answer result)
        simple.new.kept }
    ensures kept { IsSome simple.old.kept → HoldsSimple simple.new.kept IsSimple }
    ensures entries { IfSome simple.new.kept UsesEachEntry }
    ensures room { IsSome simple.old.kept → KeepRoom simple.old.kept simple.new.kept }
    ensures done { IsSome simple.old.kept → result ≡ DONE }
    ensures empty { IsNone simple.old.kept → (result ≡ EMPTY) × (simple.new.kept ≡ None) }
{
    if !simple.holds() {
        return EMPTY;
    }
    let mut held = simple.take(alloc);
    let answer = held.clear();
    simple.put(held);
    status_of_done(answer)
}

/// Starts again at this size and with these options. Keeps the room of the entries, and takes no memory.
/// `DONE`; `BAD_CALL` if a side isn't above 0 or the options aren't valid; `EMPTY`.
#[unsafe(no_mangle)]
pub extern "C" fn guillotiere_simple_reset(
    alloc: Global,
    simple: &mut SimpleHandle,
    width: i32,
    height: i32,
    options: &PlainOptions,
) -> u32
    ensures step { IsSome simple.old.kept → IsHeldSimpleStep simple.old.kept
        (Reset (sides_in width height) (options_in options.now)) (plain_answer result) simple.new.kept }
    ensures kept { IsSome simple.old.kept → HoldsSimple simple.new.kept IsSimple }
    ensures entries { result ≡ DONE → IfSome simple.new.kept UsesEachEntry }
    ensures room { IsSome simple.old.kept → KeepRoom simple.old.kept simple.new.kept }
    ensures unless { IsSome simple.old.kept → result ≢ DONE → result ≡ BAD_CALL }
    ensures refused { result ≢ DONE → simple.new.kept ≡ simple.old.kept }
    ensures empty { IsNone simple.old.kept → result ≡ EMPTY }
{
    if !simple.holds() {
        return EMPTY;
    }
    let options = options_for(options);
    let mut held = simple.take(alloc);
    if width <= 0 || height <= 0 || !options.is_valid() {
        simple.put(held);
        return BAD_CALL;
    }
    let answer = held.reset(size2(width, height), &options);
    simple.put(held);
    status_of_done(answer)
}

/// Takes over an atlas's size, options and free boxes, so that it never grants what is live there. The atlas stays as it is.
/// `DONE`; `MEMORY`; `EMPTY` if one of the handles holds nothing.
#[unsafe(no_mangle)]
pub extern "C" fn guillotiere_simple_init_from_allocator(
    alloc: Global,
    simple: &mut SimpleHandle,
    atlas: &AtlasReader,
) -> u32
    ensures step { IsSome simple.old.kept → IsSome atlas.now.kept
        → IsHeldStart simple.old.kept atlas.now.kept (plain_answer result) simple.new.kept }
    ensures kept { IsSome simple.old.kept → HoldsSimple simple.new.kept IsSimple }
    ensures entries { result ≡ DONE → IfSome simple.new.kept UsesEachEntry }
    ensures refused { result ≢ DONE → simple.new.kept ≡ simple.old.kept }
    ensures empty { IsNone simple.old.kept → result ≡ EMPTY }
    ensures no_source { IsNone atlas.now.kept → result ≡ EMPTY }
{
    if !simple.holds() {
        return EMPTY;
    }
    let mut held = simple.take(alloc);
    if !atlas.holds() {
        simple.put(held);
        return EMPTY;
    }
    let source = atlas.lent();
    let answer = held.init_from_allocator(source);
    simple.put(held);
    status_of_done(answer)
}

/// The size of the allocator. `DONE`; `EMPTY`.
#[unsafe(no_mangle)]
pub extern "C" fn guillotiere_simple_size(simple: &SimpleReader, size: &mut PlainSize) -> u32
    ensures size { IsSome simple.now.kept → HoldsSimple simple.now.kept (λ s. size_in size.new ≡ size_of s.size) }
    ensures done { IsSome simple.now.kept → result ≡ DONE }
    ensures empty { IsNone simple.now.kept → (result ≡ EMPTY) × (size.new ≡ size.old) }
{
    if !simple.holds() {
        return EMPTY;
    }
    let held = simple.lent();
    *size = plain_size(held.size());
    DONE
}

/// The options of the allocator. `DONE`; `EMPTY`.
#[unsafe(no_mangle)]
pub extern "C" fn guillotiere_simple_options(
    simple: &SimpleReader,
    options: &mut PlainOptions,
) -> u32
    ensures options { IsSome simple.now.kept → HoldsSimple simple.now.kept
        (λ s. allocator_options_in options.new ≡ allocator_options_of s.options) }
    ensures done { IsSome simple.now.kept → result ≡ DONE }
    ensures empty { IsNone simple.now.kept → (result ≡ EMPTY) × (options.new ≡ options.old) }
{
    if !simple.holds() {
        return EMPTY;
    }
    let held = simple.lent();
    *options = plain_options(held.options());
    DONE
}

/// The counts of entries, one of which each free box takes. `DONE`; `EMPTY`.
#[unsafe(no_mangle)]
pub extern "C" fn guillotiere_simple_slots(simple: &SimpleReader, slots: &mut PlainSlots) -> u32
    ensures used { IfSome simple.now.kept (λ v. slots.new.used ≡ used_entries v) }
    ensures kept { IfSome simple.now.kept (λ v. slots.new.kept ≡ kept_entries v) }
    ensures limit { IsSome simple.now.kept → slots.new.limit ≡ 4261412864 }
    ensures done { IsSome simple.now.kept → result ≡ DONE }
    ensures empty { IsNone simple.now.kept → (result ≡ EMPTY) × (slots.new ≡ slots.old) }
{
    if !simple.holds() {
        return EMPTY;
    }
    let held = simple.lent();
    *slots = plain_slots(held.slots());
    DONE
}

/// Whether one free box has the allocator's size; also true of a handle that holds nothing.
#[unsafe(no_mangle)]
pub extern "C" fn guillotiere_simple_is_empty(simple: &SimpleReader) -> bool
    ensures free { IsSome simple.now.kept → HoldsSimple simple.now.kept
        (λ s. IsTrue result ↔ Any (λ b. box_sides b ≡ s.size) s.free) }
    ensures empty { IsNone simple.now.kept → IsTrue result }
{
    if !simple.holds() {
        return true;
    }
    let held = simple.lent();
    held.is_empty()
}
