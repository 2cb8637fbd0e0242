//! Memory that is taken first, so that later calls find it.
ghost use Rattle.std.specs.Prelude.{◌≡◌, ◌≢◌, ◌≤◌, ◌+◌, ◌*◌, Err, IfOk, OnErr, OnOk, length};
ghost use Rattle.guillotiere.specs.Pixels.{sides_of};
ghost use Rattle.guillotiere.specs.Boxes.{Fits};
ghost use Rattle.guillotiere.specs.Reserves.{HasReserve};
ghost use Rattle.guillotiere.specs.Stored.{state_of};
ghost use Rattle.atlas_cache.specs.Caches.{IsFull};

use atlas_cache::entries::{DefaultHasher, Entries, Entry};
use atlas_cache::recency::Recency;
use atlas_cache::{CacheError, Changes, TextureCache};
use guillotiere::session::{Call, Reply, step};
use guillotiere::{AllocId, AtlasAllocator, AtlasError, Size, size2};
use guillotiere_recording::{RecordingAllocator, RecordingError};
use std::alloc::Allocator;

/// Two grants for which memory was taken first: neither finds that there is none.
pub fn two<A: Allocator + Copy>(
    atlas: &mut AtlasAllocator<A>,
    first: Size,
    second: Size,
) -> Result<(), AtlasError> {
    atlas.reserve(8)?;
    let one = atlas.allocate(first);
    prove!(!matches!(&one, Err(AtlasError::Memory)));
    let two = atlas.allocate(second);
    prove!(!matches!(&two, Err(AtlasError::Memory)));
    Ok(())
}

/// A freeing takes nothing of what is in reserve, nor does a start.
pub fn freed_between<A: Allocator + Copy>(
    atlas: &mut AtlasAllocator<A>,
    id: AllocId,
    size: Size,
) -> Result<(), AtlasError> {
    atlas.reserve(4)?;
    let _freed = atlas.deallocate(id);
    let _cleared = atlas.clear();
    let granted = atlas.allocate(size);
    prove!(!matches!(&granted, Err(AtlasError::Memory)));
    Ok(())
}

/// A freeing and a clearing between a reservation and a grant, by steps of a session.
pub fn steps_between<A: Allocator + Copy>(
    atlas: &mut AtlasAllocator<A>,
    id: AllocId,
    size: Size,
) -> Result<(), AtlasError> {
    atlas.reserve(4)?;
    let _freed = step(atlas, &Call::Deallocate(id));
    let _cleared = step(atlas, &Call::Clear);
    let reply = step(atlas, &Call::Allocate(size));
    prove!(!matches!(&reply, Reply::Refused(AtlasError::Memory)));
    Ok(())
}

/// And of a recorder: a freeing leaves what is in reserve, so that it needn't be taken again.
pub fn recorded_between<A: Allocator + Copy>(
    session: &mut RecordingAllocator<A>,
    name: AllocId,
) -> Result<(), RecordingError> {
    session.reserve(4)?;
    let _freed = session.deallocate(name);
    let again = session.reserve(4);
    prove!(!matches!(&again, Err(RecordingError::Memory)));
    Ok(())
}

/// A growth, and a grant in what it adds.
pub fn grown<A: Allocator + Copy>(
    atlas: &mut AtlasAllocator<A>,
    larger: Size,
    size: Size,
) -> Result<(), AtlasError> {
    if !atlas.can_grow_to(larger) {
        return Ok(());
    }
    atlas.reserve(7)?;
    let grown = atlas.grow(larger);
    prove!(!matches!(&grown, Err(AtlasError::Memory)));
    let granted = atlas.allocate(size);
    prove!(!matches!(&granted, Err(AtlasError::Memory)));
    Ok(())
}

/// A request that has room, for which memory was taken first, is granted unless it passes the limit.
pub fn granted<A: Allocator + Copy>(
    atlas: &mut AtlasAllocator<A>,
    size: Size,
) -> Result<(), AtlasError> {
    if atlas.can_fit(size) {
        atlas.reserve(4)?;
        match atlas.allocate(size) {
            Ok(granted) => prove!(granted.is_some()),
            Err(error) => prove!(error == AtlasError::Slots),
        }
    }
    Ok(())
}

/// Each id keeps its rectangle where memory is taken.
pub fn kept<A: Allocator + Copy>(
    atlas: &mut AtlasAllocator<A>,
    id: AllocId,
) -> Result<(), AtlasError> {
    let before = atlas.get(id);
    atlas.reserve(100)?;
    let after = atlas.get(id);
    prove!(after == before);
    Ok(())
}

/// One grant of those for which memory was taken leaves it for the others.
pub fn one_of<A: Allocator + Copy>(
    atlas: &mut AtlasAllocator<A>,
    left: u32,
    size: Size,
) -> Result<(), AtlasError>
    requires { HasReserve (4 * left + 4) atlas.old }
    ensures left { OnOk result (HasReserve (4 * left) atlas.new) }
    ensures memory { result ≢ Err AtlasError.Memory }
{
    let _granted = atlas.allocate(size)?;
    Ok(())
}

/// Two entries of an order for which memory was taken first: neither finds that there is none.
pub fn two_numbers<A: Allocator>(recency: &mut Recency<A>) -> Result<(), CacheError> {
    recency.reserve(2)?;
    let one = recency.push();
    prove!(!matches!(&one, Err(CacheError::Memory)));
    let two = recency.push();
    prove!(!matches!(&two, Err(CacheError::Memory)));
    Ok(())
}

/// An order that was cleared has memory for as many entries as it had.
pub fn numbers_again<A: Allocator>(recency: &mut Recency<A>) -> Result<(), CacheError> {
    let _number = recency.push()?;
    recency.clear();
    let again = recency.push();
    prove!(!matches!(&again, Err(CacheError::Memory)));
    Ok(())
}

/// A new key among entries for which memory was taken first.
pub fn one_entry<A: Allocator + Copy>(
    entries: &mut Entries<u64, DefaultHasher, A>,
    entry: Entry<u64>,
) -> Result<(), CacheError> {
    if entries.find(&entry.key).is_some() {
        return Ok(());
    }
    entries.reserve(1)?;
    let number = entries.push(entry);
    prove!(!matches!(&number, Err(CacheError::Memory)));
    Ok(())
}

/// Two spaces of a text, for which memory was taken first, whether they are held or new.
pub fn two_spaces<A: Allocator + Copy>(
    cache: &mut TextureCache<u64, DefaultHasher, A>,
    first: u64,
    second: u64,
    changes: &mut Changes<u64, A>,
) -> Result<(), CacheError> {
    cache.reserve(2)?;
    let one = cache.insert(first, size2(0, 0), changes);
    prove!(!matches!(&one, Err(CacheError::Memory)));
    let two = cache.insert(second, size2(0, 0), changes);
    prove!(!matches!(&two, Err(CacheError::Memory)));
    Ok(())
}

/// A glyph for which memory was taken first, where each page is there and at its largest: other glyphs may go for it, but it
/// isn't refused for memory.
pub fn one_glyph<A: Allocator + Copy>(
    cache: &mut TextureCache<u64, DefaultHasher, A>,
    key: u64,
    size: Size,
    changes: &mut Changes<u64, A>,
) -> Result<(), CacheError>
    requires { IsFull cache.old }
{
    cache.reserve(1)?;
    cache.reserve_slots(4)?;
    changes.reserve(cache.len() + 1)?;
    let placed = cache.insert(key, size, changes);
    prove!(!matches!(&placed, Err(CacheError::Memory)));
    Ok(())
}
