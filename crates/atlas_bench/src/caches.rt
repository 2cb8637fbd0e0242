//! Caches of boxes, which are evicted at random.
ghost use Rattle.std.specs.Prelude.{◌≡◌, ◌<◌, ◌≤◌, ◌+◌, ◌^◌, true, IfOk, OnOk};

use crate::answers::Answers;
use crate::error::BenchError;
use crate::random::Random;
use crate::sizes::{Kind, next_size};
use guillotiere::{AllocId, AtlasAllocator, AtlasError, Size, size2};
use std::alloc::Global;

#[derive(Drop)]
struct BoxCache {
    atlas: AtlasAllocator,
    live: Vec<AllocId>,
    random: Random,
    answers: Answers,
}

impl BoxCache {
    // An empty cache of this side, in pixels, and a generator with this seed.
    fn new(alloc: Global, side: u16, seed: u64) -> Result<Self, BenchError>
        requires { 1 ≤ side }
        ensures { IfOk result (λ it. it.answers.calls ≡ 0) }
    {
        Ok(BoxCache {
            atlas: AtlasAllocator::new(alloc, size2(i32::from(side), i32::from(side)))?,
            live: Vec::new(alloc),
            random: Random::new(seed),
            answers: Answers::new(),
        })
    }

    // Requests a box. Whether it was granted.
    fn request(&mut self, size: Size) -> Result<bool, AtlasError>
        requires { self.old.answers.calls + 1 < 2 ^ 64 }
        ensures { OnOk result (self.new.answers.calls ≡ self.old.answers.calls + 1) }
    {
        let Some(allocation) = self.atlas.allocate(size)? else {
            self.answers.refused();
            return Ok(false);
        };
        let id = allocation.id;
        self.answers.granted(allocation);
        self.live.push(id)?;
        Ok(true)
    }

    // Requests a tile of 16x16 pixels. Whether it was granted.
    fn request_tile(&mut self) -> Result<bool, AtlasError>
        requires { self.old.answers.calls + 1 < 2 ^ 64 }
        ensures { OnOk result (self.new.answers.calls ≡ self.old.answers.calls + 1) }
    {
        self.request(size2(16, 16))
    }

    // Frees one of the live boxes, at random. Whether one was live.
    fn evict(&mut self) -> Result<bool, AtlasError>
        requires { self.old.answers.calls + 1 < 2 ^ 64 }
        ensures { IfOk result (λ is_freed. is_freed ≡ true → self.new.answers.calls ≡ self.old.answers.calls + 1) }
    {
        if self.live.is_empty() {
            return Ok(false);
        }
        let place = self.random.below(self.live.len() as u64) as usize;
        let id = self.live.swap_remove(place);
        self.atlas.deallocate(id)?;
        self.answers.freed();
        Ok(true)
    }
}

/// Requests boxes of this kind, one after another, in an atlas of this side, in pixels. Where one has no room a random
/// box goes, and it is requested again.
pub fn cache(alloc: Global, kind: Kind, side: u16, calls: u32) -> Result<Answers, BenchError>
    requires { 1 ≤ side }
    ensures { IfOk result (λ it. it.calls ≡ calls) }
{
    let mut cache = BoxCache::new(alloc, side, 1)?;
    let mut size = next_size(kind, &mut cache.random);
    let mut is_full = false;
    for _ in 0..calls {
        if is_full {
            if !cache.evict()? {
                return Err(BenchError::WrongAnswer);
            }
            is_full = false;
        } else if cache.request(size)? {
            size = next_size(kind, &mut cache.random);
        } else {
            is_full = true;
        }
    }
    Ok(cache.answers)
}

// How many tiles of 16x16 pixels fill 2048x2048.
const TILES: u32 = 16_384;

// A cache of 2048x2048 pixels that is filled with tiles, of which a random half is freed.
fn half_tiled(alloc: Global) -> Result<BoxCache, BenchError>
    ensures { IfOk result (λ it. it.answers.calls ≡ 24576) }
{
    let mut cache = BoxCache::new(alloc, 2048, 7)?;
    for _ in 0..TILES {
        if !cache.request_tile()? {
            return Err(BenchError::WrongAnswer);
        }
    }
    for _ in 0..TILES / 2 {
        if !cache.evict()? {
            return Err(BenchError::WrongAnswer);
        }
    }
    Ok(cache)
}

/// Fills an atlas of 2048x2048 pixels with tiles of 16x16 and frees a random half. Then so many calls request a tile
/// and free a random one in turn.
pub fn tiles(alloc: Global, calls: u32) -> Result<Answers, BenchError>
    ensures { IfOk result (λ it. it.calls ≡ 24576 + calls) }
{
    let mut cache = half_tiled(alloc)?;
    for turn in 0..calls {
        let is_done = if turn % 2 == 0 {
            cache.request_tile()?
        } else {
            cache.evict()?
        };
        if !is_done {
            return Err(BenchError::WrongAnswer);
        }
    }
    Ok(cache.answers)
}
