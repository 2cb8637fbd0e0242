//! The exports that make atlases, copy them and free them.
ghost use Rattle.std.specs.Prelude.{◌≡◌, ◌≢◌, ◌≤◌, IsSome, IsNone, Some, None};
ghost use Rattle.guillotiere.specs.Boxes.{IsPositive};
ghost use Rattle.guillotiere.specs.Choice.{AreValid};
ghost use Rattle.guillotiere.specs.Pixels.{options_of};
ghost use Rattle.guillotiere.specs.TheConstants.{DEFAULT_OPTIONS};
ghost use Rattle.guillotiere.specs.States.{started};
ghost use Rattle.guillotiere_c.specs.Calls.{HoldsAtlas, StoreEqual};
ghost use Rattle.guillotiere_c.specs.Numbers.{options_in, sides_in};

use crate::atlas_handle::{AtlasHandle, AtlasReader};
use crate::plain::{
    BAD_CALL, DONE, EMPTY, MEMORY, MOST_SLOTS, OCCUPIED, PlainOptions, options_for,
};
use guillotiere::{AllocatorOptions, AtlasAllocator, DEFAULT_OPTIONS, size2};
use std::alloc::Global;

// Makes an atlas where the handle holds nothing.
fn start(
    alloc: Global,
    width: i32,
    height: i32,
    options: &AllocatorOptions,
    limit: u32,
    atlas: &mut AtlasHandle,
) -> u32
    ensures state { result ≡ DONE → HoldsAtlas atlas.new.kept
        (λ s. s ≡ started (sides_in width height) (options_of options.now) limit) }
    ensures bad { result ≡ BAD_CALL
        → IsPositive (sides_in width height) × AreValid (options_of options.now) × (1 ≤ limit) × (limit ≤ MOST_SLOTS)
        → ⊥ }
    ensures good { result ≡ MEMORY
        → IsPositive (sides_in width height) × AreValid (options_of options.now) × (1 ≤ limit) × (limit ≤ MOST_SLOTS) }
    ensures refused { result ≢ DONE → atlas.new.kept ≡ atlas.old.kept }
    ensures memory { result ≢ DONE → result ≢ BAD_CALL → IsNone atlas.old.kept → result ≡ MEMORY }
    ensures full { IsSome atlas.old.kept → result ≡ OCCUPIED }
{
    if atlas.holds() {
        return OCCUPIED;
    }
    let is_limit = 1 <= limit && limit <= MOST_SLOTS;
    if width <= 0 || height <= 0 || !options.is_valid() || !is_limit {
        return BAD_CALL;
    }
    let made = AtlasAllocator::with_slot_limit(alloc, size2(width, height), options, limit);
    let Ok(made) = made else {
        return MEMORY;
    };
    match Box::new(alloc, made) {
        Ok(held) => {
            atlas.put(held);
            DONE
        }
        Err(_) => MEMORY,
    }
}

/// Makes an atlas with the default options, where the handle holds nothing.
/// `DONE`; `BAD_CALL` if a side isn't above 0; `MEMORY`; `OCCUPIED`, before all others, if the handle holds an atlas already.
#[unsafe(no_mangle)]
pub extern "C" fn guillotiere_atlas_new(
    alloc: Global,
    width: i32,
    height: i32,
    atlas: &mut AtlasHandle,
) -> u32
    ensures state { result ≡ DONE → HoldsAtlas atlas.new.kept
        (λ s. s ≡ started (sides_in width height) (options_of DEFAULT_OPTIONS) MOST_SLOTS) }
    ensures refused { result ≢ DONE → atlas.new.kept ≡ atlas.old.kept }
    ensures bad { result ≡ BAD_CALL → IsPositive (sides_in width height) → ⊥ }
    ensures good { result ≡ MEMORY → IsPositive (sides_in width height) }
    ensures memory { result ≢ DONE → result ≢ BAD_CALL → IsNone atlas.old.kept → result ≡ MEMORY }
    ensures full { IsSome atlas.old.kept → result ≡ OCCUPIED }
{
    start(alloc, width, height, &DEFAULT_OPTIONS, MOST_SLOTS, atlas)
}

/// Makes an atlas with these options, where the handle holds nothing. `DONE`; `BAD_CALL` if a side isn't above 0 or the
/// options aren't valid; `MEMORY`; `OCCUPIED`, before all others, if the handle holds an atlas already.
#[unsafe(no_mangle)]
pub extern "C" fn guillotiere_atlas_with_options(
    alloc: Global,
    width: i32,
    height: i32,
    options: &PlainOptions,
    atlas: &mut AtlasHandle,
) -> u32
    ensures state { result ≡ DONE → HoldsAtlas atlas.new.kept
        (λ s. s ≡ started (sides_in width height) (options_in options.now) MOST_SLOTS) }
    ensures refused { result ≢ DONE → atlas.new.kept ≡ atlas.old.kept }
    ensures bad { result ≡ BAD_CALL → IsPositive (sides_in width height) × AreValid (options_in options.now) → ⊥ }
    ensures good { result ≡ MEMORY → IsPositive (sides_in width height) × AreValid (options_in options.now) }
    ensures memory { result ≢ DONE → result ≢ BAD_CALL → IsNone atlas.old.kept → result ≡ MEMORY }
    ensures full { IsSome atlas.old.kept → result ≡ OCCUPIED }
{
    let options = options_for(options);
    start(alloc, width, height, &options, MOST_SLOTS, atlas)
}

/// Makes an atlas with these options and a limit on the slots that are used at once, where the handle holds nothing. `DONE`;
/// `BAD_CALL` if a side isn't above 0, the options aren't valid, or the limit isn't from 1 to `GUILLOTIERE_MOST_SLOTS`; `MEMORY`;
/// `OCCUPIED`, before all others, if the handle holds an atlas already.
#[unsafe(no_mangle)]
pub extern "C" fn guillotiere_atlas_with_slot_limit(
    alloc: Global,
    width: i32,
    height: i32,
    options: &PlainOptions,
    limit: u32,
    atlas: &mut AtlasHandle,
) -> u32
    ensures state { result ≡ DONE → HoldsAtlas atlas.new.kept
        (λ s. s ≡ started (sides_in width height) (options_in options.now) limit) }
    ensures refused { result ≢ DONE → atlas.new.kept ≡ atlas.old.kept }
    ensures bad { result ≡ BAD_CALL
        → IsPositive (sides_in width height) × AreValid (options_in options.now) × (1 ≤ limit) × (limit ≤ MOST_SLOTS)
        → ⊥ }
    ensures good { result ≡ MEMORY
        → IsPositive (sides_in width height) × AreValid (options_in options.now) × (1 ≤ limit) × (limit ≤ MOST_SLOTS) }
    ensures memory { result ≢ DONE → result ≢ BAD_CALL → IsNone atlas.old.kept → result ≡ MEMORY }
    ensures full { IsSome atlas.old.kept → result ≡ OCCUPIED }
{
    let options = options_for(options);
    start(alloc, width, height, &options, limit, atlas)
}

/// Frees an atlas, with all its memory; the handle holds nothing then. Of a handle that holds nothing: does nothing.
#[unsafe(no_mangle)]
pub extern "C" fn guillotiere_atlas_free(alloc: Global, atlas: &mut AtlasHandle)
    ensures { atlas.new.kept ≡ None }
{
    if !atlas.holds() {
        return;
    }
    let _held = atlas.take(alloc);
}

/// Makes a copy that shares nothing with the atlas, where `copy` holds nothing: it answers later calls as the atlas does,
/// except where memory is refused. `DONE`; `MEMORY`; `EMPTY` if `atlas` holds nothing; `OCCUPIED` if `copy` holds something.
#[unsafe(no_mangle)]
pub extern "C" fn guillotiere_atlas_clone(
    alloc: Global,
    atlas: &AtlasReader,
    copy: &mut AtlasHandle,
) -> u32
    ensures equal { result ≡ DONE → StoreEqual copy.new.kept atlas.now.kept }
    ensures refused { result ≢ DONE → copy.new.kept ≡ copy.old.kept }
    ensures memory { result ≢ DONE → IsSome atlas.now.kept → IsNone copy.old.kept → result ≡ MEMORY }
    ensures empty { IsNone atlas.now.kept → result ≡ EMPTY }
    ensures full { IsSome atlas.now.kept → IsSome copy.old.kept → result ≡ OCCUPIED }
{
    if !atlas.holds() {
        return EMPTY;
    }
    if copy.holds() {
        return OCCUPIED;
    }
    let held = atlas.lent();
    let made = held.clone();
    let Ok(made) = made else {
        return MEMORY;
    };
    match Box::new(alloc, made) {
        Ok(boxed) => {
            copy.put(boxed);
            DONE
        }
        Err(_) => MEMORY,
    }
}
