//! Removing entries without inserting one, and reserving room beforehand.
ghost use Rattle.std.specs.Prelude.{◌≡◌, ◌≢◌, ◌+◌, ◌≤◌, false, length, map, Err, IfErr, IsOk, IsOkUnless, IsTrue, OnErr, OnOk};
ghost use Rattle.std.specs.Prelude.{vec_capacity, vec_len};
ghost use Rattle.std.specs.List.{AllByRecursion};
ghost use Rattle.guillotiere.specs.Stored.{state_of};
ghost use Rattle.atlas_cache.specs.Caches.{with_reserve, IsFull};
ghost use Rattle.atlas_cache.specs.Changes.{picture_of, ShowsSame};
ghost use Rattle.atlas_cache.specs.Clearing.{all_forgotten, Clears, DropsLast, IsUsedSince, TellsChanges, Trims};
ghost use Rattle.atlas_cache.specs.Reserving.{AllowSlots, HaveSlots, IsShortFor, KeepsReady, ReadiesInserts, StopsAtPage, UseAtMost};
ghost use Rattle.atlas_cache.specs.Rooms.{IsRefusal};
ghost use Rattle.atlas_entries.specs.declared.error.CacheError.TheVariants.{Memory, Slots};

use crate::cache::TextureCache;
use crate::cache::holding::{oldest, place_of, take_out};
use crate::changes::{CacheChange, Changes};
use crate::counts::count;
use atlas_entries::error::CacheError;
use std::alloc::Allocator;
use std::hash::{BuildHasher, Hash};

impl<K: Copy + Eq + Hash, S: BuildHasher, A: Allocator + Copy> TextureCache<K, S, A> {
    /// Removes all keys. The pages stay, with their sizes and with nothing on them, and so do the frame and the counts. No
    /// change reports this: the caller forgets all places. Takes no memory, and gives none back: what the keys had is
    /// in reserve. A `shrink` after it takes all pages away, and then the cache begins with small ones again. Its time grows by the
    /// pages and by the most keys that there were.
    pub fn clear(&mut self)
        ensures clears { Clears self.old self.new }
        ensures told { ShowsSame (all_forgotten (picture_of K.eq self.old)) (picture_of K.eq self.new) }
        ensures stays_ready { KeepsReady self.old self.new }
    {
        self.entries.clear();
        self.rooms.clear();
    }

    /// Evicts the entries that weren't used for at least this many frames. A frame is a call of `begin_frame`: with 1 all goes that
    /// wasn't used since the last one, with 0 all. Each is added to the changes as `Evicted`, the least recently used first. The
    /// others stay. The list of changes is asked for room for as many as there are entries; with `Memory`, if that is refused,
    /// nothing changes. Takes a freeing for each key that goes.
    pub fn trim(&mut self, frames: u64, changes: &mut Changes<K, A>) -> Result<(), CacheError>
        ensures trims { OnOk result (Trims frames changes.old.items changes.new.items self.old self.new) }
        ensures told { TellsChanges K.eq changes.old.items changes.new.items self.old self.new }
        ensures refused { OnErr result ((self.new ≡ self.old) × (changes.new.items ≡ changes.old.items)) }
        ensures unless { IsOkUnless result CacheError.Memory }
        ensures room { vec_len changes.old + length self.old.entries ≤ vec_capacity changes.old → IsOk result }
        ensures capacity { vec_capacity changes.old ≤ vec_capacity changes.new }
        ensures stays_ready { KeepsReady self.old self.new }
    {
        changes.reserve(self.entries.len())?;
        self.drop_unused(frames, changes);
        Ok(())
    }

    /// Makes sure that at least this many entries are in reserve: the insertions that follow ask for memory only for pages, for
    /// their slots, and for changes. Each key that is added takes one of them; one that goes gives none back, but `clear`
    /// does; `trim`, `shrink` and `repack` take none. Nothing else changes, and nothing at all with `Memory`, if memory is refused.
    pub fn reserve(&mut self, additional: usize) -> Result<(), CacheError>
        ensures reserves { OnOk result (self.new ≡ with_reserve additional self.old) }
        ensures refused { OnErr result (self.new ≡ self.old) }
        ensures unless { IsOkUnless result CacheError.Memory }
    {
        self.entries.reserve(additional)?;
        Ok(())
    }

    /// Makes sure that at least this many slots are in reserve on each page, and that each page may use so many more of the
    /// 16,777,216 that there can be. An insert that neither adds a page nor grows one takes at most 4 of each page; a page that is
    /// added later has none in reserve, one that grows takes up to 3 of its own, one that is repacked may have none, and one that
    /// goes (`shrink`) takes its own along; `remove`, `trim` and `clear` take none away. Nothing else changes. `Slots` only if a page
    /// would use more than 16,777,216 with them, `Memory` only if some page hasn't as many in reserve and memory is refused; the
    /// pages before that one have theirs in reserve then, and it and those after it are as they were. Takes as many steps as there
    /// are pages, and memory for those that need it.
    pub fn reserve_slots(&mut self, additional: u32) -> Result<(), CacheError>
        ensures ready { OnOk result (HaveSlots additional self.new.pages) }
        ensures states { map state_of self.new.pages ≡ map state_of self.old.pages }
        ensures slots { UseAtMost 0 self.old.pages self.new.pages }
        ensures rest { self.new ≡ record self.old { pages = self.new.pages } }
        ensures full { IsFull self.old → IsFull self.new }
        ensures errors { IfErr result IsRefusal }
        ensures short { result ≡ Err Slots → IsShortFor additional self.old.pages }
        ensures had { HaveSlots additional self.old.pages → result ≢ Err Memory }
        ensures allowed { OnOk result (AllowSlots additional self.new.pages) }
        ensures stops { IfErr result (λ error. StopsAtPage additional error self.old.pages self.new.pages) }
        ensures inserts { OnOk result (ReadiesInserts additional self.old self.new) }
    {
        self.rooms.reserve_slots(additional)?;
        // Where it is refused, it is asked for again when it is needed.
        let _refused = self.rooms.reserve_marks(additional, &mut self.marks);
        Ok(())
    }

    // The entries that weren't used for so many frames go.
    fn drop_unused(&mut self, frames: u64, changes: &mut Changes<K, A>)
        requires { vec_len changes.old + length self.old.entries ≤ vec_capacity changes.old }
        ensures trims { Trims frames changes.old.items changes.new.items self.old self.new }
        ensures told { TellsChanges K.eq changes.old.items changes.new.items self.old self.new }
        ensures capacity { vec_capacity changes.old ≤ vec_capacity changes.new }
    {
        self.entries.prove_kept();
        'each: loop {
            if !self.drop_last(frames, changes) {
                return;
            }
        }
    }

    // The least recently used entry goes, if it wasn't used for so many frames; whether it did.
    fn drop_last(&mut self, frames: u64, changes: &mut Changes<K, A>) -> bool
        requires { vec_len changes.old + length self.old.entries ≤ vec_capacity changes.old }
        ensures drops { IsTrue result → DropsLast frames changes.old.items changes.new.items self.old self.new }
        ensures room { vec_len changes.new + length self.new.entries ≤ vec_capacity changes.new }
        ensures capacity { vec_capacity changes.old ≤ vec_capacity changes.new }
        ensures stops { result ≡ false
            → AllByRecursion (IsUsedSince frames self.old.frame) self.old.entries }
        ensures stays { result ≡ false → (self.new ≡ self.old) × (changes.new.items ≡ changes.old.items) }
    {
        let Some((number, entry)) = oldest(&self.entries) else {
            return false;
        };
        if self.frame - entry.frame < frames {
            return false;
        }
        take_out(&mut self.rooms, &mut self.entries, number, entry);
        self.counts.evictions = count(self.counts.evictions);
        let place = place_of(entry, &self.rooms.options());
        let key = entry.key;
        changes.push_reserved(CacheChange::Evicted { key, place });
        true
    }
}
