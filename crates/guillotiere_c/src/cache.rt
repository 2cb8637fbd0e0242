//! The exports of a cache: its life, its keys and its changes.
ghost use Rattle.std.specs.Prelude.{◌≡◌, ◌≢◌, ◌+◌, ◌*◌, ◌<◌, ◌≤◌, ◌∷◌, [], length, IfSome, IsNone, IsSome, IsSomeAnd, None, Some};
ghost use Rattle.std.specs.Prelude.{nat_eq, Err, Ok};
ghost use Rattle.atlas_cache.specs.declared.CacheError.TheVariants.{Memory, Slots};
ghost use Rattle.atlas_cache.specs.Asking.{AreUsable, IsFaultIn};
ghost use Rattle.atlas_cache.specs.Caches.{place_for};
ghost use Rattle.atlas_cache.specs.Relocating.{held_on};
ghost use Rattle.atlas_cache.specs.Repacking.{LosesSome};
ghost use Rattle.guillotiere_c.specs.CacheCalls.{AlwaysHolds, BeginsFrame, IsClearing, IsGet, IsInsert, IsRemoval};
ghost use Rattle.guillotiere_c.specs.CacheCalls.{IsBatchEnd, IsCompacting, IsRepacking, IsRepackingOfAll, IsShrinking, IsTrim};
ghost use Rattle.guillotiere_c.specs.CacheNumbers.{cache_change_in, cache_options_in, found_answer, insert_answer};
ghost use Rattle.guillotiere_c.specs.CacheNumbers.{options_fault};
ghost use Rattle.guillotiere_c.specs.Following.{GoesOver, HoldsCache, KeepsChanges, KeepsRoom, StaysHeld, new_cache};

use crate::cache_handle::{CacheHandle, CacheReader};
use crate::followed::FollowedCache;
use crate::plain::{
    DONE, EMPTY, FRAME_FULL, HELD, MEMORY, NEVER_FITS, NO_CHANGE, NO_PAGE, NO_ROOM, NOT_HELD,
    OCCUPIED, SLOTS,
};
use crate::plain_cache::{
    PlainCacheChange, PlainCacheOptions, PlainPlace, cache_options_for, plain_cache_change,
    plain_place, status_of_cache_error, status_of_options_error,
};
use atlas_cache::{CacheError, Inserted, Place};
use guillotiere::size2;
use std::alloc::Global;

/// Makes a cache that holds nothing and has no page yet, where the handle holds nothing. Keys are any numbers of 64 bits;
/// they are hashed with a fixed seed.
/// `DONE`; `OCCUPIED`, before all others, if the handle holds a cache already; the first of `EMPTY_PAGE`, `LARGEST_PAGE`,
/// `NO_PAGES`, `BAD_PADDING`, `BAD_ATLAS` and `NOTHING_FITS` that is wrong with the options; `MEMORY`.
#[unsafe(no_mangle)]
pub extern "C" fn guillotiere_cache_new(
    alloc: Global,
    options: &PlainCacheOptions,
    cache: &mut CacheHandle,
) -> u32
    ensures new { result ≡ DONE → HoldsCache cache.new.kept (λ f. f ≡ new_cache (cache_options_in options.now)) }
    ensures usable { result ≡ DONE → AreUsable (cache_options_in options.now) }
    ensures fault { result ≢ DONE → result ≢ MEMORY → result ≢ OCCUPIED
        → IsSomeAnd (options_fault result) (IsFaultIn (cache_options_in options.now)) }
    ensures memory { result ≡ MEMORY → AreUsable (cache_options_in options.now) }
    ensures refused { result ≢ DONE → cache.new.kept ≡ cache.old.kept }
    ensures full { IsSome cache.old.kept → result ≡ OCCUPIED }
    ensures fresh { IsNone cache.old.kept → result ≢ OCCUPIED }
{
    if cache.holds() {
        return OCCUPIED;
    }
    let made = match FollowedCache::new(alloc, cache_options_for(options)) {
        Ok(made) => made,
        Err(error) => return status_of_options_error(error),
    };
    match Box::new(alloc, made) {
        Ok(held) => {
            cache.put(held);
            DONE
        }
        Err(_) => MEMORY,
    }
}

/// Frees a cache, with all its memory; the handle holds nothing then.
#[unsafe(no_mangle)]
pub extern "C" fn guillotiere_cache_free(alloc: Global, cache: &mut CacheHandle)
    ensures { cache.new.kept ≡ None }
{
    if !cache.holds() {
        return;
    }
    let _held = cache.take(alloc);
}

/// Begins a new frame: what isn't used in it may be evicted. Until the first call no key is evicted for another: all that is
/// held counts as used in the current frame. `DONE`; `EMPTY`.
#[unsafe(no_mangle)]
pub extern "C" fn guillotiere_cache_begin_frame(alloc: Global, cache: &mut CacheHandle) -> u32
    ensures begins { IsSome cache.old.kept → GoesOver cache.old.kept cache.new.kept (λ f g.
        BeginsFrame f.cache g.cache × KeepsChanges f g) }
    ensures done { IsSome cache.old.kept → result ≡ DONE }
    ensures kept { IsSome cache.old.kept → HoldsCache cache.new.kept (λ f. AlwaysHolds f.cache) }
    ensures empty { IsNone cache.old.kept → (result ≡ EMPTY) × (cache.new.kept ≡ None) }
{
    if !cache.holds() {
        return EMPTY;
    }
    let mut held = cache.take(alloc);
    held.begin_frame();
    cache.put(held);
    DONE
}

// Writes the place that a look-up found.
fn write_found(found: Option<Place>, place: &mut PlainPlace) -> u32
    ensures answer { found_answer result place.new ≡ Some found }
    ensures unwritten { result ≢ DONE → place.new ≡ place.old }
{
    match found {
        Some(found) => {
            *place = plain_place(found);
            DONE
        }
        None => NOT_HELD,
    }
}

/// The place of a key, which is used in this frame from now on. Counts a hit or a miss. `DONE`; `NOT_HELD`; `EMPTY`.
#[unsafe(no_mangle)]
pub extern "C" fn guillotiere_cache_get(
    alloc: Global,
    cache: &mut CacheHandle,
    key: u64,
    place: &mut PlainPlace,
) -> u32
    ensures get { IsSome cache.old.kept → IsSomeAnd (found_answer result place.new) (λ found.
        GoesOver cache.old.kept cache.new.kept (λ f g. IsGet key found f.cache g.cache × KeepsChanges f g)) }
    ensures unwritten { result ≢ DONE → place.new ≡ place.old }
    ensures kept { IsSome cache.old.kept → HoldsCache cache.new.kept (λ f. AlwaysHolds f.cache) }
    ensures empty { IsNone cache.old.kept → (result ≡ EMPTY) × (cache.new.kept ≡ None) }
{
    if !cache.holds() {
        return EMPTY;
    }
    let mut held = cache.take(alloc);
    let found = held.get(key);
    cache.put(held);
    write_found(found, place)
}

/// The place of a key; it doesn't count as a use, a hit or a miss. `DONE`; `NOT_HELD`; `EMPTY`.
#[unsafe(no_mangle)]
pub extern "C" fn guillotiere_cache_peek(
    cache: &CacheReader,
    key: u64,
    place: &mut PlainPlace,
) -> u32
    ensures peek { IsSome cache.now.kept → IsSomeAnd (found_answer result place.new) (λ found.
        HoldsCache cache.now.kept (λ f. found ≡ place_for nat_eq f.cache key)) }
    ensures unwritten { result ≢ DONE → place.new ≡ place.old }
    ensures empty { IsNone cache.now.kept → result ≡ EMPTY }
{
    if !cache.holds() {
        return EMPTY;
    }
    let held = cache.lent().cache();
    let found = held.peek(&key);
    write_found(found, place)
}

// Writes the place that an insertion gave.
fn write_inserted(answer: Result<Inserted, CacheError>, place: &mut PlainPlace) -> u32
    ensures answer { insert_answer result place.new ≡ Some answer }
    ensures unwritten { result ≢ DONE → result ≢ HELD → place.new ≡ place.old }
{
    match answer {
        Ok(Inserted::Placed(new)) => {
            *place = plain_place(new);
            DONE
        }
        Ok(Inserted::Held(held)) => {
            *place = plain_place(held);
            HELD
        }
        Ok(Inserted::FrameFull) => FRAME_FULL,
        Ok(Inserted::NeverFits) => NEVER_FITS,
        Err(error) => status_of_cache_error(error),
    }
}

/// A place for a key, which is used in this frame. A key that is held keeps its place, and is the most recently used; that
/// counts as a hit. A new key, which counts as no miss, goes onto the first page with room for its size with the padding.
/// If none has room, a page grows: its smaller side (the width if they are equal) doubles, but no further than the largest
/// page. If none can grow, one is added; and if no more are allowed, the least recently used key that lies on a page and
/// that this frame didn't use is evicted; and so on, up to 16 keys. If there still is no room then, only keys that lie in one
/// box go: the first box that would come free and that the new key fits, if all that this frame didn't use went in that
/// order. Where memory for looking it up is refused, a byte for each slot of the pages, they go on in that order. What was done
/// is handed over by `guillotiere_cache_next_change`, also
/// after `FRAME_FULL` and after an error: take all of it after each insertion, before the place or its number is noted. A
/// key that was evicted and came back is reported as evicted all the same.
/// `DONE`: the key is new, and its place was written: its pixels are to be written to the texture. `HELD`: it was held, and
/// its place, where its pixels are, was written. `FRAME_FULL`: all pages allowed exist, at their largest, and none would have
/// room, were all keys gone that this frame didn't use, of which 16 went at most, or more where that memory was refused: draw
/// what is batched, call `guillotiere_cache_end_batch` and insert again, or `guillotiere_cache_begin_frame`; while a
/// frame has used nothing this is never the answer. `NEVER_FITS` if the size, with the padding on all sides and rounded up to
/// the alignment, exceeds the largest page, `OTHER_SIZE` if the key is held with another size, even if this one is empty or
/// would never fit: then nothing changed. `NUMBERS` if 4294967295 keys are still held; `SLOTS` if the page that has room, or
/// that would grow, can't use the slots that this takes, of 16777216; `MEMORY` if memory is refused. Either ends the call: another
/// page that has room isn't tried, and no more keys are evicted for the new one. After `SLOTS` that is so in each later frame
/// too: `guillotiere_cache_remove`, `guillotiere_cache_trim` and `guillotiere_cache_clear` help. `EMPTY`.
/// A key with an empty size (a side below 1) takes no room, and is never evicted to make room for another.
/// Both rectangles of its place are 0, and so is its page, but it is on no page: nothing is to be written or drawn, no
/// repacking reports it, and no page stays for it.
#[unsafe(no_mangle)]
pub extern "C" fn guillotiere_cache_insert(
    alloc: Global,
    cache: &mut CacheHandle,
    key: u64,
    width: i32,
    height: i32,
    place: &mut PlainPlace,
) -> u32
    ensures insert { IsSome cache.old.kept → IsSomeAnd (insert_answer result place.new) (λ answer.
        GoesOver cache.old.kept cache.new.kept (IsInsert key (record { width = width; height = height }) answer)) }
    ensures unwritten { result ≢ DONE → result ≢ HELD → place.new ≡ place.old }
    ensures kept { IsSome cache.old.kept → HoldsCache cache.new.kept (λ f. AlwaysHolds f.cache) }
    ensures empty { IsNone cache.old.kept → (result ≡ EMPTY) × (cache.new.kept ≡ None) }
{
    if !cache.holds() {
        return EMPTY;
    }
    let mut held = cache.take(alloc);
    let answer = held.insert(key, size2(width, height));
    cache.put(held);
    write_inserted(answer, place)
}

/// Removes a key, and writes the place that it had. No change reports this: forget its place, once you have followed the
/// changes that weren't handed over. Takes no memory. `DONE`; `NOT_HELD`; `EMPTY`.
#[unsafe(no_mangle)]
pub extern "C" fn guillotiere_cache_remove(
    alloc: Global,
    cache: &mut CacheHandle,
    key: u64,
    removed: &mut PlainPlace,
) -> u32
    ensures removal { IsSome cache.old.kept → IsSomeAnd (found_answer result removed.new) (λ found.
        GoesOver cache.old.kept cache.new.kept
        (λ f g. IsRemoval key found f.cache g.cache × KeepsChanges f g)) }
    ensures unwritten { result ≢ DONE → removed.new ≡ removed.old }
    ensures kept { IsSome cache.old.kept → HoldsCache cache.new.kept (λ f. AlwaysHolds f.cache) }
    ensures empty { IsNone cache.old.kept → (result ≡ EMPTY) × (cache.new.kept ≡ None) }
{
    if !cache.holds() {
        return EMPTY;
    }
    let mut held = cache.take(alloc);
    let found = held.remove(key);
    cache.put(held);
    write_found(found, removed)
}

/// Hands over the first change that wasn't handed over yet; each is handed over once, in the order in which they were made.
/// Takes no memory. `DONE`; `NO_CHANGE` if there is none; `EMPTY`.
#[unsafe(no_mangle)]
pub extern "C" fn guillotiere_cache_next_change(
    alloc: Global,
    cache: &mut CacheHandle,
    change: &mut PlainCacheChange,
) -> u32
    ensures next { result ≡ DONE → IsSomeAnd (cache_change_in change.new) (λ c.
        GoesOver cache.old.kept cache.new.kept (λ f g.
        (f.changes ≡ c ∷ g.changes) × (g.cache ≡ f.cache) × (f.room ≤ g.room))) }
    ensures none { result ≡ NO_CHANGE → HoldsCache cache.old.kept (λ f. f.changes ≡ []) }
    ensures unless { IsSome cache.old.kept → result ≢ DONE → result ≡ NO_CHANGE }
    ensures refused { result ≢ DONE → (cache.new.kept ≡ cache.old.kept) × (change.new ≡ change.old) }
    ensures empty { IsNone cache.old.kept → result ≡ EMPTY }
{
    if !cache.holds() {
        return EMPTY;
    }
    let mut held = cache.take(alloc);
    let next = held.next_change();
    cache.put(held);
    match next {
        Some(next) => {
            *change = plain_cache_change(next);
            DONE
        }
        None => NO_CHANGE,
    }
}

/// Removes all keys. The pages stay, with their sizes and nothing on them. No change reports this. The changes that weren't
/// handed over stay: follow them, then forget all places. Takes no memory. `DONE`; `EMPTY`.
#[unsafe(no_mangle)]
pub extern "C" fn guillotiere_cache_clear(alloc: Global, cache: &mut CacheHandle) -> u32
    ensures clears { IsSome cache.old.kept → GoesOver cache.old.kept cache.new.kept (λ f g.
        IsClearing f.cache g.cache × KeepsChanges f g) }
    ensures done { IsSome cache.old.kept → result ≡ DONE }
    ensures kept { IsSome cache.old.kept → HoldsCache cache.new.kept (λ f. AlwaysHolds f.cache) }
    ensures empty { IsNone cache.old.kept → (result ≡ EMPTY) × (cache.new.kept ≡ None) }
{
    if !cache.holds() {
        return EMPTY;
    }
    let mut held = cache.take(alloc);
    held.clear();
    cache.put(held);
    DONE
}

/// Evicts the keys that weren't used for at least this many frames, each reported by a change, the least recently used first.
/// A frame is a call of `guillotiere_cache_begin_frame`: with 1 all goes that wasn't used since the last one, with 0 all.
/// `DONE`; `MEMORY`, and then all is as it was: never if `guillotiere_cache_reserve_changes` made room for as many changes as
/// keys are held, and for one at least; `EMPTY`.
#[unsafe(no_mangle)]
pub extern "C" fn guillotiere_cache_trim(alloc: Global, cache: &mut CacheHandle, frames: u64) -> u32
    ensures trims { result ≡ DONE → GoesOver cache.old.kept cache.new.kept (IsTrim frames) }
    ensures room { HoldsCache cache.old.kept (λ f. (0 < f.room) × (length f.cache.entries ≤ f.room))
        → result ≡ DONE }
    ensures keeps_room { IsSome cache.old.kept → GoesOver cache.old.kept cache.new.kept KeepsRoom }
    ensures refused { result ≢ DONE → StaysHeld cache.old.kept cache.new.kept }
    ensures unless { IsSome cache.old.kept → result ≢ DONE → result ≡ MEMORY }
    ensures kept { IsSome cache.old.kept → HoldsCache cache.new.kept (λ f. AlwaysHolds f.cache) }
    ensures empty { IsNone cache.old.kept → result ≡ EMPTY }
{
    if !cache.holds() {
        return EMPTY;
    }
    let mut held = cache.take(alloc);
    let answer = held.trim(frames);
    cache.put(held);
    match answer {
        Ok(()) => DONE,
        Err(error) => status_of_cache_error(error),
    }
}

/// Ends a batch, which was drawn, where the frame has no room for what comes next in it: this many of the most recently used
/// keys go, all if there are no more, each reported by a change, the most recently used first. The frame goes on: an insertion
/// evicts nothing of what is left that it used. `DONE`; `MEMORY`, and then all is as it was: never if
/// `guillotiere_cache_reserve_changes` made room for as many changes as keys are held, and for one at least; `EMPTY`.
#[unsafe(no_mangle)]
pub extern "C" fn guillotiere_cache_end_batch(
    alloc: Global,
    cache: &mut CacheHandle,
    keys: usize,
) -> u32
    ensures ends { result ≡ DONE → GoesOver cache.old.kept cache.new.kept (IsBatchEnd keys) }
    ensures room { HoldsCache cache.old.kept (λ f. (0 < f.room) × (length f.cache.entries ≤ f.room))
        → result ≡ DONE }
    ensures keeps_room { IsSome cache.old.kept → GoesOver cache.old.kept cache.new.kept KeepsRoom }
    ensures refused { result ≢ DONE → StaysHeld cache.old.kept cache.new.kept }
    ensures unless { IsSome cache.old.kept → result ≢ DONE → result ≡ MEMORY }
    ensures kept { IsSome cache.old.kept → HoldsCache cache.new.kept (λ f. AlwaysHolds f.cache) }
    ensures empty { IsNone cache.old.kept → result ≡ EMPTY }
{
    if !cache.holds() {
        return EMPTY;
    }
    let mut held = cache.take(alloc);
    let answer = held.end_batch(keys);
    cache.put(held);
    match answer {
        Ok(()) => DONE,
        Err(error) => status_of_cache_error(error),
    }
}

/// Removes the pages after the last one with a key, each reported by a change, `GUILLOTIERE_PAGE_REMOVED`, the last one
/// first. The others stay, with their sizes, and so do all keys; after `guillotiere_cache_clear` all pages go. A page that goes
/// takes its slots in reserve along, and one that is added later has none; keys in reserve stay. `DONE`;
/// `MEMORY`, and then all is as it was: never if `guillotiere_cache_reserve_changes` made room for as many changes as there
/// are pages, and for one at least; `EMPTY`.
#[unsafe(no_mangle)]
pub extern "C" fn guillotiere_cache_shrink(alloc: Global, cache: &mut CacheHandle) -> u32
    ensures shrinks { result ≡ DONE → GoesOver cache.old.kept cache.new.kept IsShrinking }
    ensures room { HoldsCache cache.old.kept (λ f. (0 < f.room) × (length f.cache.pages ≤ f.room))
        → result ≡ DONE }
    ensures keeps_room { IsSome cache.old.kept → GoesOver cache.old.kept cache.new.kept KeepsRoom }
    ensures refused { result ≢ DONE → StaysHeld cache.old.kept cache.new.kept }
    ensures unless { IsSome cache.old.kept → result ≢ DONE → result ≡ MEMORY }
    ensures kept { IsSome cache.old.kept → HoldsCache cache.new.kept (λ f. AlwaysHolds f.cache) }
    ensures empty { IsNone cache.old.kept → result ≡ EMPTY }
{
    if !cache.holds() {
        return EMPTY;
    }
    let mut held = cache.take(alloc);
    let answer = held.shrink();
    cache.put(held);
    match answer {
        Ok(()) => DONE,
        Err(error) => status_of_cache_error(error),
    }
}

/// Moves keys of the last page to the pages before it, so that `guillotiere_cache_shrink` can give it back, as many as some
/// pixels are enough for: after a burst a call in each frame empties page after page, where a repacking would take too long for one.
/// The most recently used key comes first; each that lies on the last page, on no more pixels, padding included, than are left,
/// moves to the first page before it that has room for it, reported by a change, `GUILLOTIERE_MOVED`. No key goes, none counts
/// as used, and no page grows or goes. Writes how many pixels moved: 0 where there are fewer than two pages, or where no key moved.
/// All moves lead from the last page to other ones, on which nothing comes free: so the pixels can be copied one after another.
/// `DONE`; `SLOTS` if a page that has room can't use the slots that this takes, of 16777216, or `MEMORY`, and then what moved
/// before is reported and stays, and nothing is written; `EMPTY`.
#[unsafe(no_mangle)]
pub extern "C" fn guillotiere_cache_compact(
    alloc: Global,
    cache: &mut CacheHandle,
    pixels: u64,
    moved: &mut u64,
) -> u32
    ensures compacts { result ≡ DONE → GoesOver cache.old.kept cache.new.kept (IsCompacting pixels (Ok moved.new)) }
    ensures memory { result ≡ MEMORY → GoesOver cache.old.kept cache.new.kept (IsCompacting pixels (Err Memory)) }
    ensures slots { result ≡ SLOTS → GoesOver cache.old.kept cache.new.kept (IsCompacting pixels (Err Slots)) }
    ensures unwritten { result ≢ DONE → moved.new ≡ moved.old }
    ensures keeps_room { IsSome cache.old.kept → GoesOver cache.old.kept cache.new.kept KeepsRoom }
    ensures unless { IsSome cache.old.kept → result ≢ DONE → result ≢ SLOTS → result ≡ MEMORY }
    ensures kept { IsSome cache.old.kept → HoldsCache cache.new.kept (λ f. AlwaysHolds f.cache) }
    ensures empty { IsNone cache.old.kept → (result ≡ EMPTY) × (cache.new.kept ≡ None) }
{
    if !cache.holds() {
        return EMPTY;
    }
    let mut held = cache.take(alloc);
    let answer = held.compact(pixels);
    cache.put(held);
    match answer {
        Ok(pixels) => {
            *moved = pixels;
            DONE
        }
        Err(error) => status_of_cache_error(error),
    }
}

/// Repacks the keys of a page, the largest first, and among equal areas the most recently used, so that what is free comes
/// together; pages are counted from 0. Each key of the page is reported by a change, the most recently used first:
/// `GUILLOTIERE_MOVED`, also where it stays, or `GUILLOTIERE_EVICTED`, where it found no room when its turn came, also if this
/// frame uses it: `guillotiere_cache_repack_keeping_all` evicts none. A place that a key moves to
/// can overlap one that a later change moves from: take the changes that wait, then copy the page, then call this, and copy
/// all pixels from that copy. The page may have no slots in reserve then; keys in reserve stay. `DONE`; `NO_PAGE`, `SLOTS`
/// (only of a page with more than 4194303 keys) or `MEMORY`, and then all is as it was; `EMPTY`.
#[unsafe(no_mangle)]
pub extern "C" fn guillotiere_cache_repack(alloc: Global, cache: &mut CacheHandle, page: u32) -> u32
    ensures repacks { result ≡ DONE → GoesOver cache.old.kept cache.new.kept (IsRepacking page) }
    ensures there { result ≡ NO_PAGE → HoldsCache cache.old.kept (λ f. length f.cache.pages ≤ page) }
    ensures absent { HoldsCache cache.old.kept (λ f. length f.cache.pages ≤ page) → result ≡ NO_PAGE }
    ensures keeps_room { IsSome cache.old.kept → GoesOver cache.old.kept cache.new.kept KeepsRoom }
    ensures refused { result ≢ DONE → StaysHeld cache.old.kept cache.new.kept }
    ensures short { result ≡ SLOTS → HoldsCache cache.old.kept (λ f.
        16777216 < 1 + 4 * length (held_on page f.cache.entries)) }
    ensures unless { IsSome cache.old.kept → result ≢ DONE → result ≢ NO_PAGE → result ≢ SLOTS → result ≡ MEMORY }
    ensures kept { IsSome cache.old.kept → HoldsCache cache.new.kept (λ f. AlwaysHolds f.cache) }
    ensures empty { IsNone cache.old.kept → result ≡ EMPTY }
{
    if !cache.holds() {
        return EMPTY;
    }
    let mut held = cache.take(alloc);
    let answer = held.repack(page);
    cache.put(held);
    match answer {
        Ok(true) => DONE,
        Ok(false) => NO_PAGE,
        Err(error) => status_of_cache_error(error),
    }
}

/// Repacks the keys of a page as `guillotiere_cache_repack` does, but only where each of them finds room, so that no key is
/// evicted. `DONE`; `NO_ROOM` if one would find none, `NO_PAGE`, `SLOTS` (only of a page with more than 4194303 keys) or
/// `MEMORY`, and then all is as it was; `EMPTY`.
#[unsafe(no_mangle)]
pub extern "C" fn guillotiere_cache_repack_keeping_all(
    alloc: Global,
    cache: &mut CacheHandle,
    page: u32,
) -> u32
    ensures repacks { result ≡ DONE → GoesOver cache.old.kept cache.new.kept (IsRepackingOfAll page) }
    ensures loses { result ≡ NO_ROOM → HoldsCache cache.old.kept (λ f.
        LosesSome f.cache.pages page (held_on page f.cache.entries)) }
    ensures there { result ≡ NO_PAGE → HoldsCache cache.old.kept (λ f. length f.cache.pages ≤ page) }
    ensures absent { HoldsCache cache.old.kept (λ f. length f.cache.pages ≤ page) → result ≡ NO_PAGE }
    ensures keeps_room { IsSome cache.old.kept → GoesOver cache.old.kept cache.new.kept KeepsRoom }
    ensures refused { result ≢ DONE → StaysHeld cache.old.kept cache.new.kept }
    ensures short { result ≡ SLOTS → HoldsCache cache.old.kept (λ f.
        16777216 < 1 + 4 * length (held_on page f.cache.entries)) }
    ensures unless { IsSome cache.old.kept → result ≢ DONE → result ≢ NO_ROOM → result ≢ NO_PAGE → result ≢ SLOTS
        → result ≡ MEMORY }
    ensures kept { IsSome cache.old.kept → HoldsCache cache.new.kept (λ f. AlwaysHolds f.cache) }
    ensures empty { IsNone cache.old.kept → result ≡ EMPTY }
{
    if !cache.holds() {
        return EMPTY;
    }
    let mut held = cache.take(alloc);
    let is_there = page < held.cache().pages();
    let answer = held.repack_keeping_all(page);
    cache.put(held);
    match answer {
        Ok(true) => DONE,
        Ok(false) => { if is_there { NO_ROOM } else { NO_PAGE } }
        Err(error) => status_of_cache_error(error),
    }
}
