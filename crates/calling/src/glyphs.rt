//! Glyphs under keys in a cache: what is written once, and a frame that is drawn in several goes.
ghost use Rattle.std.specs.Prelude.{◌≡◌, ◌≢◌, ◌<◌, None, IfOk, IsSome, Ok, OnOk, Some, true, false, length, nat_eq};
ghost use Rattle.std.specs.List.{list_any};
ghost use Rattle.guillotiere.specs.Pixels.{size_of};
ghost use Rattle.atlas_cache.specs.Asking.{bordered};
ghost use Rattle.atlas_cache.specs.Caches.{place_for};
ghost use Rattle.atlas_cache.specs.Entries.{lying};
ghost use Rattle.atlas_cache.specs.Relocating.{keys_of};
ghost use Rattle.atlas_cache.specs.Rooms.{has_area};
ghost use Rattle.atlas_cache.specs.Shrinking.{pages_in_use};
ghost use Rattle.atlas_cache.specs.declared.inserted.Inserted.TheVariants.{FrameFull};

use atlas_cache::entries::DefaultHasher;
use atlas_cache::{CacheError, Changes, Inserted, Place, TextureCache};
use guillotiere::Size;
use std::alloc::{AllocError, Allocator};

/// A glyph's place and whether its pixels are to be written there, which is so of a new glyph alone; None if it has no
/// place.
pub fn place_of<A: Allocator + Copy>(
    cache: &mut TextureCache<u64, DefaultHasher, A>,
    key: u64,
    size: Size,
    changes: &mut Changes<u64, A>,
) -> Result<Option<(Place, bool)>, CacheError>
    ensures new { (place : Place) → result ≡ Ok (Some (place, true)) → place_for nat_eq cache.old key ≡ None }
    ensures held { (place : Place) → result ≡ Ok (Some (place, false)) → place_for nat_eq cache.old key ≡ Some place }
{
    match cache.insert(key, size, changes)? {
        Inserted::Placed(place) => Ok(Some((place, true))),
        Inserted::Held(place) => Ok(Some((place, false))),
        _ => Ok(None),
    }
}

/// A glyph's place, and whether glyphs went for it though some page had as much free area as it takes: then a repacking is worth its time.
pub fn place_and_tell<A: Allocator + Copy>(
    cache: &mut TextureCache<u64, DefaultHasher, A>,
    key: u64,
    size: Size,
    changes: &mut Changes<u64, A>,
) -> Result<(Inserted, bool), CacheError>
    ensures { (placed : Inserted) → result ≡ Ok (placed, true)
        → list_any (has_area (size_of (bordered cache.old.options size))) cache.old.pages ≡ true }
{
    let before = cache.statistics().forced;
    let placed = cache.insert(key, size, changes)?;
    Ok((placed, before < cache.statistics().forced))
}

/// A glyph's place, also where this frame has used all the room: then the caller draws what it has, and a new frame
/// begins, which has room for whatever a page has room for.
pub fn place_in_turn<A: Allocator + Copy>(
    cache: &mut TextureCache<u64, DefaultHasher, A>,
    key: u64,
    size: Size,
    changes: &mut Changes<u64, A>,
) -> Result<Inserted, CacheError>
    requires { cache.old.frame < 18446744073709551615 }
    ensures { result ≢ Ok FrameFull }
{
    let answer = cache.insert(key, size, changes)?;
    if answer != Inserted::FrameFull {
        return Ok(answer);
    }
    cache.begin_frame();
    cache.insert(key, size, changes)
}

/// A glyph's place in a frame that goes on, also where it has used all the room: then the caller has drawn what it has, and a part of what
/// was drawn last goes.
pub fn place_in_batches<A: Allocator + Copy>(
    cache: &mut TextureCache<u64, DefaultHasher, A>,
    key: u64,
    size: Size,
    changes: &mut Changes<u64, A>,
) -> Result<Inserted, CacheError>
    ensures { cache.new.frame ≡ cache.old.frame }
{
    let answer = cache.insert(key, size, changes)?;
    if answer != Inserted::FrameFull {
        return Ok(answer);
    }
    cache.end_batch(cache.len() / 512 + 1, changes)?;
    cache.insert(key, size, changes)
}

/// What wasn't used for so many frames goes, and then the pages at the end that hold nothing any more: on the last page that
/// is left, if there is one, an entry lies.
pub fn give_back<A: Allocator + Copy>(
    cache: &mut TextureCache<u64, DefaultHasher, A>,
    frames: u64,
    changes: &mut Changes<u64, A>,
) -> Result<(), CacheError>
    ensures { OnOk result (length cache.new.pages ≡ pages_in_use (lying cache.new.entries)) }
{
    cache.trim(frames, changes)?;
    cache.shrink(changes)
}

/// Brings together what is free on a page, where that loses no key: whatever is answered, all stay, and none is counted as evicted.
pub fn tidy<A: Allocator + Copy>(
    cache: &mut TextureCache<u64, DefaultHasher, A>,
    page: u32,
    changes: &mut Changes<u64, A>,
) -> Result<bool, CacheError>
    ensures keys { keys_of cache.new.entries ≡ keys_of cache.old.entries }
    ensures evicted { cache.new.counts ≡ cache.old.counts }
{
    cache.repack_keeping_all(page, changes)
}

/// Moves what is on the last page to the pages before it, a few pixels in each frame, and gives that page back once nothing is left on
/// it: a glyph that had a place still has one.
pub fn move_ahead<A: Allocator + Copy>(
    cache: &mut TextureCache<u64, DefaultHasher, A>,
    key: u64,
    changes: &mut Changes<u64, A>,
) -> Result<Option<Place>, CacheError>
    ensures { IsSome (place_for nat_eq cache.old key) → IfOk result IsSome }
{
    cache.compact(16384, changes)?;
    cache.shrink(changes)?;
    Ok(cache.peek(&key))
}

/// What a cache and a copy of it answer for a key: the same place, or none.
pub fn asked_of_both<A: Allocator + Copy>(
    cache: &mut TextureCache<u64, DefaultHasher, A>,
    key: u64,
) -> Result<(Option<Place>, Option<Place>), AllocError>
    ensures { IfOk result (λ places. places.0 ≡ places.1) }
{
    let mut copy = cache.clone()?;
    Ok((copy.get(&key), cache.get(&key)))
}

/// The size of a page of a cache, and of a copy of it: the same, or none.
pub fn page_of_both<A: Allocator + Copy>(
    cache: &TextureCache<u64, DefaultHasher, A>,
    page: u32,
) -> Result<(Option<Size>, Option<Size>), AllocError>
    ensures { IfOk result (λ sizes. sizes.0 ≡ sizes.1) }
{
    let copy = cache.clone()?;
    Ok((copy.page_size(page), cache.page_size(page)))
}
