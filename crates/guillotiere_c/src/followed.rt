//! A cache with the list of its changes, from which its caller takes one after another.
ghost use Rattle.std.specs.Prelude.{◌≡◌, ◌↔◌, ◌+◌, ◌*◌, ◌<◌, ◌≤◌, ◌∷◌, [], drop, IfErr, IfOk, IfSome, IsOk, IsOkUnless, None, OnErr};
ghost use Rattle.std.specs.Prelude.{◌≢◌, Err, Ok, OnOk, false, length, true, vec_capacity, vec_len};
ghost use Rattle.atlas_cache.specs.declared.CacheError.TheVariants.{Memory, Slots};
ghost use Rattle.atlas_cache.specs.Asking.{AreUsable, IsFaultIn};
ghost use Rattle.atlas_cache.specs.Caches.{with_reserve};
ghost use Rattle.atlas_cache.specs.Relocating.{held_on};
ghost use Rattle.atlas_cache.specs.Repacking.{LosesSome};
ghost use Rattle.atlas_cache.specs.Reserving.{AllowSlots, HaveSlots, IsShortFor, ReadiesInserts, StopsAtPage};
ghost use Rattle.atlas_cache.specs.Rooms.{IsRefusal};
ghost use Rattle.guillotiere_c.specs.CacheCalls.{AlwaysHolds, BeginsFrame, IsBatchEnd, IsClearing, IsCompacting, IsCopy, IsGet};
ghost use Rattle.guillotiere_c.specs.CacheCalls.{IsInsert, IsRemoval, IsRepacking, IsRepackingOfAll, IsShrinking, IsTrim, KeepsStates};
ghost use Rattle.guillotiere_c.specs.Following.{IsAsItWas, KeepsChanges, KeepsRoom, new_cache};

use atlas_cache::{
    CacheChange, CacheError, CacheOptions, Changes, Inserted, OptionsError, Place, TextureCache,
};
use guillotiere::Size;
use std::alloc::{AllocError, Global};
use std::marker::Model;

/// A cache, and the changes that weren't handed over yet. Those that were stay in the list until the last one is handed
/// over, or the next call comes that adds to it.
#[derive(Drop)]
pub struct FollowedCache {
    cache: TextureCache<u64>,
    changes: Changes<u64>,
    taken: usize,
}

impl Model for FollowedCache {
    ghost use Rattle.std.specs.Prelude.{◌-◌, ◌≤◌, drop, length, vec_capacity};
    ghost use Rattle.guillotiere_c.specs.Following.{Followed};

    ghost Value = { Followed };

    ghost view = { λ f. record {
      cache = f.cache;
      changes = drop f.taken f.changes.items;
      room = vec_capacity f.changes - length (drop f.taken f.changes.items);
    } };

    ghost invariant = { λ f. f.taken ≤ length f.changes.items };
}

// Drops what was handed over.
fn drop_taken(changes: &mut Changes<u64>, taken: &mut usize)
    requires { taken.old ≤ length changes.old.items }
    ensures changes { changes.new.items ≡ drop taken.old changes.old.items }
    ensures taken { taken.new ≡ 0 }
    ensures capacity { vec_capacity changes.new ≡ vec_capacity changes.old }
{
    if *taken > 0 {
        changes.drain(..*taken);
        *taken = 0;
    }
}

// The first change that wasn't handed over.
fn take_first(changes: &mut Changes<u64>, taken: &mut usize) -> Option<CacheChange<u64>>
    requires { taken.old ≤ length changes.old.items }
    ensures next { IfSome result (λ c. drop taken.old changes.old.items ≡ c ∷ drop taken.new changes.new.items) }
    ensures none { result ≡ None → (drop taken.old changes.old.items ≡ []) × (changes.new.items ≡ changes.old.items)
        × (taken.new ≡ taken.old) }
    ensures taken { taken.new ≤ length changes.new.items }
    ensures capacity { vec_capacity changes.new ≡ vec_capacity changes.old }
{
    if *taken >= changes.len() {
        return None;
    }
    let change = changes[*taken];
    *taken += 1;
    if *taken == changes.len() {
        drop_taken(changes, taken);
    }
    Some(change)
}

impl FollowedCache {
    /// No pages and no entries. Takes no memory. An error says what is wrong with the options.
    pub fn new(alloc: Global, options: CacheOptions) -> Result<FollowedCache, OptionsError>
        ensures ok { IsOk result ↔ AreUsable options }
        ensures new { IfOk result (λ made. made ≡ new_cache options) }
        ensures fault { IfErr result (IsFaultIn options) }
    {
        let cache = TextureCache::new(alloc, options)?;
        Ok(FollowedCache {
            cache,
            changes: Vec::new(alloc),
            taken: 0,
        })
    }

    /// The cache, for what only reads it.
    pub fn cache(&self) -> &TextureCache<u64>
        ensures { result.now ≡ self.now.cache }
    {
        &self.cache
    }

    /// A copy, which goes on by itself, in new memory: the cache stores the same, and the same changes weren't handed over.
    pub fn clone(&self) -> Result<FollowedCache, AllocError>
        ensures cache { IfOk result (λ copy. IsCopy self.now.cache copy.cache) }
        ensures changes { IfOk result (λ copy. copy.changes ≡ self.now.changes) }
    {
        let cache = self.cache.clone()?;
        let changes = Vec::from_slice(*self.changes.allocator(), &self.changes[self.taken..])?;
        Ok(FollowedCache {
            cache,
            changes,
            taken: 0,
        })
    }

    /// States what always holds of the cache, and does nothing.
    pub fn prove_kept(&self)
        ensures { AlwaysHolds self.now.cache }
    {
        self.cache.prove_kept();
    }

    /// The first change that wasn't handed over yet, which is handed over now; None if there is none.
    pub fn next_change(&mut self) -> Option<CacheChange<u64>>
        ensures next { IfSome result (λ c. self.old.changes ≡ c ∷ self.new.changes) }
        ensures room { self.old.room ≤ self.new.room }
        ensures none { result ≡ None → (self.old.changes ≡ []) × (self.new ≡ self.old) }
        ensures cache { self.new.cache ≡ self.old.cache }
    {
        take_first(&mut self.changes, &mut self.taken)
    }

    /// A new frame: what was used before may go from now on.
    pub fn begin_frame(&mut self)
        ensures begins { BeginsFrame self.old.cache self.new.cache }
        ensures changes { KeepsChanges self.old self.new }
    {
        self.cache.begin_frame();
    }

    /// As `TextureCache::get`.
    pub fn get(&mut self, key: u64) -> Option<Place>
        ensures get { IsGet key result self.old.cache self.new.cache }
        ensures changes { KeepsChanges self.old self.new }
    {
        self.cache.get(&key)
    }

    /// As `TextureCache::insert`. Its changes come behind those that weren't handed over.
    pub fn insert(&mut self, key: u64, size: Size) -> Result<Inserted, CacheError>
        ensures { IsInsert key size result self.old self.new }
    {
        drop_taken(&mut self.changes, &mut self.taken);
        self.cache.insert(key, size, &mut self.changes)
    }

    /// As `TextureCache::remove`.
    pub fn remove(&mut self, key: u64) -> Option<Place>
        ensures removal { IsRemoval key result self.old.cache self.new.cache }
        ensures changes { KeepsChanges self.old self.new }
    {
        self.cache.remove(&key)
    }

    /// As `TextureCache::clear`. The changes that weren't handed over stay.
    pub fn clear(&mut self)
        ensures clears { IsClearing self.old.cache self.new.cache }
        ensures changes { KeepsChanges self.old self.new }
    {
        self.cache.clear();
    }

    /// As `TextureCache::trim`. Its changes come behind those that weren't handed over.
    pub fn trim(&mut self, frames: u64) -> Result<(), CacheError>
        ensures trim { OnOk result (IsTrim frames self.old self.new) }
        ensures room { 0 < self.old.room → length self.old.cache.entries ≤ self.old.room → IsOk result }
        ensures refused { OnErr result (IsAsItWas self.old self.new) }
        ensures keeps_room { KeepsRoom self.old self.new }
        ensures unless { IsOkUnless result Memory }
    {
        drop_taken(&mut self.changes, &mut self.taken);
        self.cache.trim(frames, &mut self.changes)
    }

    /// As `TextureCache::end_batch`. Its changes come behind those that weren't handed over.
    pub fn end_batch(&mut self, keys: usize) -> Result<(), CacheError>
        ensures ends { OnOk result (IsBatchEnd keys self.old self.new) }
        ensures room { 0 < self.old.room → length self.old.cache.entries ≤ self.old.room → IsOk result }
        ensures refused { OnErr result (IsAsItWas self.old self.new) }
        ensures keeps_room { KeepsRoom self.old self.new }
        ensures unless { IsOkUnless result Memory }
    {
        drop_taken(&mut self.changes, &mut self.taken);
        self.cache.end_batch(keys, &mut self.changes)
    }

    /// As `TextureCache::shrink`. Its changes come behind those that weren't handed over.
    pub fn shrink(&mut self) -> Result<(), CacheError>
        ensures shrinks { OnOk result (IsShrinking self.old self.new) }
        ensures room { 0 < self.old.room → length self.old.cache.pages ≤ self.old.room → IsOk result }
        ensures refused { OnErr result (IsAsItWas self.old self.new) }
        ensures keeps_room { KeepsRoom self.old self.new }
        ensures unless { IsOkUnless result Memory }
    {
        drop_taken(&mut self.changes, &mut self.taken);
        self.cache.shrink(&mut self.changes)
    }

    /// As `TextureCache::compact`. Its changes come behind those that weren't handed over.
    pub fn compact(&mut self, pixels: u64) -> Result<u64, CacheError>
        ensures compacts { IsCompacting pixels result self.old self.new }
        ensures keeps_room { KeepsRoom self.old self.new }
    {
        drop_taken(&mut self.changes, &mut self.taken);
        self.cache.compact(pixels, &mut self.changes)
    }

    /// As `TextureCache::repack`. Its changes come behind those that weren't handed over.
    pub fn repack(&mut self, page: u32) -> Result<bool, CacheError>
        ensures repacks { result ≡ Ok true → IsRepacking page self.old self.new }
        ensures there { result ≡ Ok false → length self.old.cache.pages ≤ page }
        ensures absent { length self.old.cache.pages ≤ page → result ≡ Ok false }
        ensures none { result ≡ Ok false → IsAsItWas self.old self.new }
        ensures refused { OnErr result (IsAsItWas self.old self.new) }
        ensures keeps_room { KeepsRoom self.old self.new }
        ensures errors { IfErr result IsRefusal }
        ensures short { result ≡ Err Slots → 16777216 < 1 + 4 * length (held_on page self.old.cache.entries) }
    {
        drop_taken(&mut self.changes, &mut self.taken);
        self.cache.repack(page, &mut self.changes)
    }

    /// As `TextureCache::repack_keeping_all`. Its changes come behind those that weren't handed over.
    pub fn repack_keeping_all(&mut self, page: u32) -> Result<bool, CacheError>
        ensures repacks { result ≡ Ok true → IsRepackingOfAll page self.old self.new }
        ensures loses { result ≡ Ok false → page < length self.old.cache.pages
            → LosesSome self.old.cache.pages page (held_on page self.old.cache.entries) }
        ensures absent { length self.old.cache.pages ≤ page → result ≡ Ok false }
        ensures none { result ≡ Ok false → IsAsItWas self.old self.new }
        ensures refused { OnErr result (IsAsItWas self.old self.new) }
        ensures keeps_room { KeepsRoom self.old self.new }
        ensures errors { IfErr result IsRefusal }
        ensures short { result ≡ Err Slots → 16777216 < 1 + 4 * length (held_on page self.old.cache.entries) }
    {
        drop_taken(&mut self.changes, &mut self.taken);
        self.cache.repack_keeping_all(page, &mut self.changes)
    }

    /// As `TextureCache::reserve`.
    pub fn reserve(&mut self, additional: usize) -> Result<(), CacheError>
        ensures reserves { OnOk result
            (self.new ≡ record self.old { cache = with_reserve additional self.old.cache }) }
        ensures refused { OnErr result (self.new ≡ self.old) }
        ensures unless { IsOkUnless result Memory }
    {
        self.cache.reserve(additional)
    }

    /// As `TextureCache::reserve_slots`.
    pub fn reserve_slots(&mut self, additional: u32) -> Result<(), CacheError>
        ensures ready { OnOk result (HaveSlots additional self.new.cache.pages) }
        ensures keeps { KeepsStates self.old self.new }
        ensures errors { IfErr result IsRefusal }
        ensures short { result ≡ Err Slots → IsShortFor additional self.old.cache.pages }
        ensures had { HaveSlots additional self.old.cache.pages → result ≢ Err Memory }
        ensures allowed { OnOk result (AllowSlots additional self.new.cache.pages) }
        ensures stops { IfErr result (λ error. StopsAtPage additional error self.old.cache.pages self.new.cache.pages) }
        ensures inserts { OnOk result (ReadiesInserts additional self.old.cache self.new.cache) }
    {
        self.cache.reserve_slots(additional)
    }

    /// Takes memory for so many changes besides those that weren't handed over; nothing else changes. `Memory` if it is refused.
    pub fn reserve_changes(&mut self, additional: usize) -> Result<(), CacheError>
        ensures same { IsAsItWas self.old self.new }
        ensures room { OnOk result (additional ≤ self.new.room) }
        ensures had { additional ≤ self.old.room → IsOk result }
        ensures unless { IsOkUnless result Memory }
    {
        drop_taken(&mut self.changes, &mut self.taken);
        self.changes.reserve(additional)?;
        Ok(())
    }
}
