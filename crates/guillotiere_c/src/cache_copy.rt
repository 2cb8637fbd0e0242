//! The export that copies a cache.
ghost use Rattle.std.specs.Prelude.{◌≡◌, ◌≢◌, IsNone, IsSome};
ghost use Rattle.guillotiere_c.specs.CacheCalls.{AlwaysHolds, IsCopy};
ghost use Rattle.guillotiere_c.specs.Following.{GoesOver, HoldsCache};

use crate::cache_handle::{CacheHandle, CacheReader};
use crate::plain::{DONE, EMPTY, MEMORY, OCCUPIED};
use std::alloc::Global;

/// Makes a copy that shares nothing with the cache, where `copy` holds nothing: its keys have the same places, the same changes
/// wait, and it answers later calls as the cache does, except where memory is refused: nothing is in reserve. Takes as many steps as the
/// pages have slots and as keys have had numbers.
/// `DONE`; `MEMORY`; `EMPTY` if `cache` holds nothing; `OCCUPIED` if `copy` holds something.
#[unsafe(no_mangle)]
pub extern "C" fn guillotiere_cache_clone(
    alloc: Global,
    cache: &CacheReader,
    copy: &mut CacheHandle,
) -> u32
    ensures equal { result ≡ DONE → GoesOver cache.now.kept copy.new.kept (λ f g.
        IsCopy f.cache g.cache × (g.changes ≡ f.changes)) }
    ensures kept { result ≡ DONE → HoldsCache copy.new.kept (λ g. AlwaysHolds g.cache) }
    ensures refused { result ≢ DONE → copy.new.kept ≡ copy.old.kept }
    ensures memory { result ≢ DONE → IsSome cache.now.kept → IsNone copy.old.kept → result ≡ MEMORY }
    ensures empty { IsNone cache.now.kept → result ≡ EMPTY }
    ensures full { IsSome cache.now.kept → IsSome copy.old.kept → result ≡ OCCUPIED }
{
    if !cache.holds() {
        return EMPTY;
    }
    if copy.holds() {
        return OCCUPIED;
    }
    let held = cache.lent();
    let made = held.clone();
    let Ok(made) = made else {
        return MEMORY;
    };
    match Box::new(alloc, made) {
        Ok(boxed) => {
            copy.put(boxed);
            DONE
        }
        Err(_) => MEMORY,
    }
}
