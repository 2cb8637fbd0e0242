//! A new key on a page: what room is made for it, and how many evictions fragmentation forced.
ghost use Rattle.std.specs.Prelude.{◌≡◌, ◌≢◌, ◌+◌, ◌≤◌, ℕ, length, Err, IfErr, IfOk, IfSome, None, Ok, Some, vec_capacity};
ghost use Rattle.guillotiere.specs.Pixels.{size_of};
ghost use Rattle.atlas_cache.specs.Asking.{bordered, CanStand};
ghost use Rattle.atlas_cache.specs.Placing.{IsFirstShort, LacksSlots};
ghost use Rattle.atlas_cache.specs.Refusals.{IsRefusedNew};
ghost use Rattle.atlas_cache.specs.Reserving.{room_in, HasReserves, IsShortOfSlots, UseAtMost};
ghost use Rattle.atlas_entries.specs.declared.error.CacheError.TheVariants.{Memory, Slots};
ghost use Rattle.atlas_cache.specs.declared.inserted.Inserted.TheVariants.{FrameFull};
ghost use Rattle.atlas_cache.specs.Caches.{entry_for, HasNoPageFor, IsFull, IsNoneInUse};
ghost use Rattle.atlas_cache.specs.Changes.{Inserts, InsertsThere, InsertsUncounted};

use crate::cache::TextureCache;
use crate::cache::vacating::Vacated;
use crate::changes::Changes;
use crate::inserted::Inserted;
use atlas_entries::error::CacheError;
use guillotiere::Size;
use std::alloc::Allocator;
use std::hash::{BuildHasher, Hash};

// So many entries go in the order of use, where that alone makes no room, before those of one box do.
const OLDEST_FIRST: u32 = 16;

impl<K: Copy + Eq + Hash, S: BuildHasher, A: Allocator + Copy> TextureCache<K, S, A> {
    // Inserts a key that isn't held, of a size that can stand on a page.
    pub(crate) fn insert_new(
        &mut self,
        key: K,
        size: Size,
        asked: Size,
        changes: &mut Changes<K, A>,
    ) -> Result<Inserted, CacheError>
        requires absent { entry_for K.eq key self.old.entries ≡ None }
        requires stands { CanStand self.old.options size }
        requires asked { asked ≡ size_of (bordered self.old.options size) }
        ensures inserts { Inserts asked key size result changes.old.items changes.new.items self.old self.new }
        ensures errors { IfErr result (IsRefusedNew (length self.new.entries)) }
        ensures short { result ≡ Err Slots → IsShortOfSlots self.new.pages }
        ensures lacks { result ≡ Err Slots → LacksSlots asked self.new.options self.new.pages }
        ensures capacity { vec_capacity changes.old ≤ vec_capacity changes.new }
        ensures room { IsNoneInUse self.old → result ≢ Ok FrameFull }
        ensures reserves { (n : ℕ) → HasReserves (n + 1) (room_in changes.old) self.old
            → (HasNoPageFor asked self.old → IsFull self.old)
            → (result ≢ Err Memory) × HasReserves n (room_in changes.new) self.new }
        ensures full { IsFull self.old → IsFull self.new }
        ensures slots { (HasNoPageFor asked self.old → IsFull self.old) → UseAtMost 4 self.old.pages self.new.pages }
        ensures already { (HasNoPageFor asked self.old → IsFull self.old) → result ≡ Err Slots
            → IsShortOfSlots self.old.pages }
    {
        let has_area = self.rooms.have_area(asked);
        let before = self.counts.evictions;
        let inserted = self.insert_uncounted(key, size, asked, changes);
        if has_area {
            let forced = self.counts.evictions.saturating_sub(before);
            self.counts.forced = self.counts.forced.saturating_add(forced);
        }
        inserted
    }

    // Inserts a key, and leaves the count of forced evictions as it is.
    fn insert_uncounted(
        &mut self,
        key: K,
        size: Size,
        asked: Size,
        changes: &mut Changes<K, A>,
    ) -> Result<Inserted, CacheError>
        requires absent { entry_for K.eq key self.old.entries ≡ None }
        requires stands { CanStand self.old.options size }
        requires asked { asked ≡ size_of (bordered self.old.options size) }
        ensures inserts { InsertsUncounted asked key size result changes.old.items changes.new.items self.old self.new }
        ensures errors { IfErr result (IsRefusedNew (length self.new.entries)) }
        ensures short { result ≡ Err Slots → IsShortOfSlots self.new.pages }
        ensures lacks { result ≡ Err Slots → LacksSlots asked self.new.options self.new.pages }
        ensures capacity { vec_capacity changes.old ≤ vec_capacity changes.new }
        ensures room { IsNoneInUse self.old → result ≢ Ok FrameFull }
        ensures reserves { (n : ℕ) → HasReserves (n + 1) (room_in changes.old) self.old
            → (HasNoPageFor asked self.old → IsFull self.old)
            → (result ≢ Err Memory) × HasReserves n (room_in changes.new) self.new }
        ensures full { IsFull self.old → IsFull self.new }
        ensures slots { (HasNoPageFor asked self.old → IsFull self.old) → UseAtMost 4 self.old.pages self.new.pages }
        ensures already { (HasNoPageFor asked self.old → IsFull self.old) → result ≡ Err Slots
            → IsShortOfSlots self.old.pages }
    {
        let mut from = 0;
        let mut to = self.rooms.len() as usize;
        let mut left = OLDEST_FIRST;
        loop {
            if let Some(place) = self.add(key, size, asked, from, to)? {
                return Ok(Inserted::Placed(place));
            }
            if let Some(answer) = self.insert_cleared(key, size, asked, left, changes)? {
                return Ok(answer);
            }
            left = left.saturating_sub(1);
            let Some(page) = self.make_room(asked, changes)? else {
                self.rooms.prove_pages();
                return Ok(Inserted::FrameFull);
            };
            // The others have no room still.
            from = page as usize;
            to = from + 1;
        }
    }

    // Inserts a key that has room on no page, by the eviction of what lies in one box; None where more may go in the order of use, where
    // a page may still grow or be added, or where memory for the marks of a rehearsal is refused, and then nothing changes.
    fn insert_cleared(
        &mut self,
        key: K,
        size: Size,
        asked: Size,
        left: u32,
        changes: &mut Changes<K, A>,
    ) -> Result<Option<Inserted>, CacheError>
        requires absent { entry_for K.eq key self.old.entries ≡ None }
        requires stands { CanStand self.old.options size }
        requires asked { asked ≡ size_of (bordered self.old.options size) }
        requires none { HasNoPageFor asked self.old }
        ensures inserts { IfOk result (λ answer. IfSome answer (λ inserted.
            InsertsThere asked key size (Ok inserted) changes.old.items changes.new.items self.old self.new)) }
        ensures refused { IfErr result (λ error.
            InsertsThere asked key size (Err error) changes.old.items changes.new.items self.old self.new) }
        ensures stays { result ≡ Ok None → (self.new ≡ self.old) × (changes.new.items ≡ changes.old.items) }
        ensures errors { IfErr result (IsRefusedNew (length self.new.entries)) }
        ensures short { result ≡ Err Slots → IsShortOfSlots self.new.pages }
        ensures lacks { result ≡ Err Slots → IsFirstShort asked self.new.pages }
        ensures capacity { vec_capacity changes.old ≤ vec_capacity changes.new }
        ensures already { result ≡ Err Slots → IsShortOfSlots self.old.pages }
        ensures reserves { (n : ℕ) → HasReserves (n + 1) (room_in changes.old) self.old
            → (result ≢ Err Memory) × HasReserves n (room_in changes.new) self.new }
        ensures room { IsNoneInUse self.old → result ≢ Ok (Some FrameFull) }
        ensures ready { result ≡ Ok None → (n : ℕ) → HasReserves n (room_in changes.old) self.old
            → HasReserves n (room_in changes.new) self.new }
        ensures full { IsFull self.old → IsFull self.new }
        ensures slots { UseAtMost 4 self.old.pages self.new.pages }
    {
        self.rooms.prove_pages();
        if left > 0 {
            return Ok(None);
        }
        if !self.rooms.are_full() {
            return Ok(None);
        }
        match self.vacate(asked, changes)? {
            Vacated::Unmarked => Ok(None),
            Vacated::Crowded => Ok(Some(Inserted::FrameFull)),
            Vacated::Room(page) => {
                let from = page as usize;
                match self.add(key, size, asked, from, from + 1)? {
                    Some(place) => Ok(Some(Inserted::Placed(place))),
                    // There is room on that page.
                    None => Ok(Some(Inserted::FrameFull)),
                }
            }
        }
    }
}
