//! Inserts of which none is refused for memory or for slots, since all that they need was taken first.
ghost use Rattle.std.specs.Prelude.{◌≡◌, ◌≢◌, ◌+◌, ◌<◌, Err, OnOk, length};
ghost use Rattle.atlas_cache.specs.Caches.{IsFull};
ghost use Rattle.atlas_cache.specs.Reserving.{room_in, IsReadyFor};
ghost use Rattle.atlas_cache.specs.declared.CacheError.TheVariants.{Memory, Slots};

use atlas_cache::entries::DefaultHasher;
use atlas_cache::{CacheError, Changes, Inserted, TextureCache};
use guillotiere::Size;
use std::alloc::Allocator;

/// Takes what so many inserts need: entries, slots of each page, and room for their changes.
pub fn take_for<A: Allocator + Copy>(
    cache: &mut TextureCache<u64, DefaultHasher, A>,
    inserts: u32,
    changes: &mut Changes<u64, A>,
) -> Result<(), CacheError>
    requires { IsFull cache.old }
    ensures { OnOk result (IsReadyFor inserts (room_in changes.new) cache.new) }
{
    if inserts > 4_194_304 {
        return Err(CacheError::Slots); // no page may use so many
    }
    cache.reserve(inserts as usize)?;
    changes.reserve(cache.len() + inserts as usize)?;
    cache.reserve_slots(4 * inserts)?;
    Ok(())
}

/// One insert of those for which all is ready leaves it ready for the others.
pub fn insert_one<A: Allocator + Copy>(
    cache: &mut TextureCache<u64, DefaultHasher, A>,
    key: u64,
    size: Size,
    left: u32,
    changes: &mut Changes<u64, A>,
) -> Result<Inserted, CacheError>
    requires { IsReadyFor (left + 1) (room_in changes.old) cache.old }
    ensures ready { IsReadyFor left (room_in changes.new) cache.new }
    ensures memory { result ≢ Err Memory }
    ensures slots { result ≢ Err Slots }
{
    cache.insert(key, size, changes)
}

/// Two inserts, a key that goes and a new frame between them: what was taken for two is enough.
pub fn insert_again<A: Allocator + Copy>(
    cache: &mut TextureCache<u64, DefaultHasher, A>,
    first: u64,
    gone: u64,
    second: u64,
    size: Size,
    changes: &mut Changes<u64, A>,
)
    requires { IsReadyFor 2 (room_in changes.old) cache.old }
{
    let one = insert_one(cache, first, size, 1, changes);
    prove!(!matches!(&one, Err(CacheError::Memory | CacheError::Slots)));
    let _gone = cache.remove(&gone);
    cache.begin_frame();
    let two = insert_one(cache, second, size, 0, changes);
    prove!(!matches!(&two, Err(CacheError::Memory | CacheError::Slots)));
}

/// The glyphs of a text, of which none is refused for memory or for slots; a key may go after each.
pub fn insert_all<A: Allocator + Copy>(
    cache: &mut TextureCache<u64, DefaultHasher, A>,
    keys: &[u64],
    size: Size,
    changes: &mut Changes<u64, A>,
) -> Result<(), CacheError>
    requires { IsReadyFor (length keys.now) (room_in changes.old) cache.old }
    ensures memory { result ≢ Err Memory }
    ensures slots { result ≢ Err Slots }
{
    for key in keys {
        let _answer = cache.insert(*key, size, changes)?;
        let _gone = cache.remove(&0);
    }
    Ok(())
}

/// All of it at once: what is missing is said before the first glyph.
pub fn draw_text<A: Allocator + Copy>(
    cache: &mut TextureCache<u64, DefaultHasher, A>,
    keys: &[u64],
    size: Size,
    changes: &mut Changes<u64, A>,
) -> Result<(), CacheError>
    requires { IsFull cache.old }
{
    if keys.len() > 4_194_304 {
        return Err(CacheError::Slots);
    }
    take_for(cache, keys.len() as u32, changes)?;
    let drawn = insert_all(cache, keys, size, changes);
    prove!(!matches!(&drawn, Err(CacheError::Memory | CacheError::Slots)));
    drawn
}
