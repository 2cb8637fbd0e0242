//! A text's run in a cache, spaces among its glyphs: a space's key is held as any other is.
ghost use Rattle.std.specs.Prelude.{◌≡◌, IfOk, IsSome, OnErr, OnOk, None, length, nat_eq};
ghost use Rattle.guillotiere.specs.Boxes.{IsPositive};
ghost use Rattle.guillotiere.specs.Pixels.{sides_of};
ghost use Rattle.atlas_cache.specs.Caches.{entry_for};

use atlas_cache::entries::DefaultHasher;
use atlas_cache::{CacheError, Changes, Inserted, Place, TextureCache};
use guillotiere::Size;
use std::alloc::Allocator;

/// A new space's place. It always has one, and nothing is evicted or added for it.
pub fn place_of_space<A: Allocator + Copy>(
    cache: &mut TextureCache<u64, DefaultHasher, A>,
    key: u64,
    size: Size,
    changes: &mut Changes<u64, A>,
) -> Result<Option<Place>, CacheError>
    requires new { entry_for nat_eq key cache.old.entries ≡ None }
    requires empty { IsPositive (sides_of size) → ⊥ }
    ensures place { IfOk result (λ place. IsSome place) }
    ensures pages { OnOk result (cache.new.pages ≡ cache.old.pages) }
    ensures changes { changes.new.items ≡ changes.old.items }
    ensures refused { OnErr result (cache.new ≡ cache.old) }
{
    match cache.insert(key, size, changes)? {
        Inserted::Placed(place) => Ok(Some(place)),
        _ => Ok(None),
    }
}

/// The places of a run's glyphs, with which they are drawn: a space's is empty. `false` if a glyph has none.
pub fn places_of_run<A: Allocator + Copy>(
    cache: &mut TextureCache<u64, DefaultHasher, A>,
    run: &[(u64, Size)],
    changes: &mut Changes<u64, A>,
    places: &mut Vec<Place, A>,
) -> Result<bool, CacheError> {
    for (key, size) in run {
        let Some(place) = cache.insert(*key, *size, changes)?.place() else {
            return Ok(false);
        };
        places.push(place)?;
    }
    Ok(true)
}
