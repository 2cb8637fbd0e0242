//! The cache.
ghost use Rattle.std.specs.Prelude.{◌≡◌, ◌≢◌, ◌↔◌, ◌+◌, ◌*◌, ◌<◌, ◌≤◌, ℕ, [], true, length, slice_get, IfErr, IfOk, IfSome, IsOk};
ghost use Rattle.std.specs.Prelude.{IsSome, IsTrue};
ghost use Rattle.std.specs.List.{list_any};
ghost use Rattle.std.specs.Prelude.{Err, None, Ok, OnErr, Some, vec_capacity, vec_len};
ghost use Rattle.guillotiere.specs.Boxes.{IsPositive};
ghost use Rattle.guillotiere.specs.Pages.{page_sizes, KeepsPages};
ghost use Rattle.guillotiere.specs.Pixels.{sides_of, size_of};
ghost use Rattle.atlas_cache.specs.Asking.{bordered, AreUsable, CanStand, IsFaultIn};
ghost use Rattle.atlas_cache.specs.Counting.{one_more};
ghost use Rattle.atlas_entries.specs.Entries.{lying};
ghost use Rattle.atlas_cache.specs.Placing.{IsFirstShort, IsGrowthShort, LacksSlots};
ghost use Rattle.atlas_cache.specs.Refusals.{IsRefusedNew};
ghost use Rattle.atlas_cache.specs.Reserving.{room_in, AllowSlots, HasReserves, HaveSlots, IsReadyFor, IsShortOfSlots, KeepsPageSizes};
ghost use Rattle.atlas_cache.specs.Reserving.{KeepsReady, KeepsReadyButOne, UseAtMost};
ghost use Rattle.atlas_cache.specs.Rooms.{has_area, HasRoomOnlyAmong, IsRefusal};
ghost use Rattle.atlas_entries.specs.declared.error.CacheError.TheVariants.{Memory, Slots};
ghost use Rattle.atlas_cache.specs.declared.inserted.Inserted.TheVariants.{FrameFull, Held, NeverFits, Placed};

mod batches;
mod clearing;
mod compacting;
mod copying;
mod figures;
pub mod holding;
mod inserting;
mod iter;
mod repacking;
mod shrinking;
mod vacating;
mod walking;

use crate::cache::holding::{grant, join_blank, look_up, oldest_lying, place_of, take_out};
use crate::changes::{CacheChange, Changes};
use crate::counts::{Counts, NO_COUNTS, count};
use crate::error::OptionsError;
use crate::inserted::Inserted;
use crate::options::CacheOptions;
use crate::places::Place;
use crate::rooms::Rooms;
use atlas_entries::entries::{DefaultHasher, Entries};
use atlas_entries::error::CacheError;
use guillotiere::Size;
pub use iter::Iter;
use std::alloc::{Allocator, Global};
use std::hash::{BuildHasher, BuildHasherDefault, Hash};
use std::marker::Model;

/// Rectangles under keys in the pages of a texture array. Contracts see a `CacheState`: how the cache was made, the
/// atlas of each page, the entries (the most recently used first), how many numbers they have had, for how many more there
/// is memory in reserve, the frame, and how the cache was used.
#[derive(Drop)]
pub struct TextureCache<
    K: Copy + Eq + Hash,
    S: BuildHasher = DefaultHasher,
    A: Allocator + Copy = Global,
> {
    rooms: Rooms<A>,
    entries: Entries<K, S, A>,
    frame: u64,
    counts: Counts,
    // For rehearsals: what is shown as freed, for each page a mark for each of its slots. They mean nothing between two calls.
    marks: Vec<Vec<bool, A>, A>,
}

impl<K: Copy + Eq + Hash, S: BuildHasher, A: Allocator + Copy> Model for TextureCache<K, S, A> {
    ghost use Rattle.atlas_cache.specs.Caches.{CacheState, IsKept, entries_of};

    ghost Value = { CacheState K };

    ghost view = { λ c. record {
      options = c.rooms.options;
      pages = c.rooms.pages;
      entries = entries_of c.entries.entries;
      numbers = c.entries.made;
      reserved = c.entries.reserved;
      frame = c.frame;
      counts = c.counts;
    } };

    ghost invariant = { λ c. IsKept (record {
      options = c.rooms.options;
      pages = c.rooms.pages;
      entries = entries_of c.entries.entries;
      numbers = c.entries.made;
      reserved = c.entries.reserved;
      frame = c.frame;
      counts = c.counts;
    }) };
}

impl<K: Copy + Eq + Hash, A: Allocator + Copy> TextureCache<K, DefaultHasher, A> {
    ghost use Rattle.atlas_cache.specs.Caches.{nothing_held};

    /// No pages and no entries. Takes no memory. An error says what is wrong with the options.
    pub fn new(alloc: A, options: CacheOptions) -> Result<Self, OptionsError>
        ensures ok { IsOk result ↔ AreUsable options }
        ensures new { IfOk result (λ cache. cache ≡ nothing_held options) }
        ensures fault { IfErr result (IsFaultIn options) }
    {
        TextureCache::with_hasher(alloc, options, BuildHasherDefault::new())
    }
}

impl<K: Copy + Eq + Hash, S: BuildHasher + Drop, A: Allocator + Copy> TextureCache<K, S, A> {
    ghost use Rattle.atlas_cache.specs.Caches.{nothing_held};

    /// No pages and no entries, with a hasher for the keys. Takes no memory. An error says what is wrong with the options.
    pub fn with_hasher(alloc: A, options: CacheOptions, hasher: S) -> Result<Self, OptionsError>
        ensures ok { IsOk result ↔ AreUsable options }
        ensures new { IfOk result (λ cache. cache ≡ nothing_held options) }
        ensures fault { IfErr result (IsFaultIn options) }
    {
        options.check()?;
        Ok(TextureCache {
            rooms: Rooms::new(alloc, options),
            entries: Entries::with_hasher(alloc, hasher),
            frame: 0,
            counts: NO_COUNTS,
            marks: Vec::new(alloc),
        })
    }
}

impl<K: Copy + Eq + Hash, S: BuildHasher, A: Allocator + Copy> TextureCache<K, S, A> {
    ghost use Rattle.atlas_cache.specs.Caches.{entry_for, place_for, steps_left, AreAllInUse, EntriesLieApart};
    ghost use Rattle.atlas_cache.specs.Caches.{EntriesLieWithin, HasNoPageFor, HaveNumbersBelow, HaveOwnKeys};
    ghost use Rattle.atlas_cache.specs.Caches.{HaveOwnNumbers, IsFull, IsKept, IsNoneInUse};
    ghost use Rattle.atlas_cache.specs.Changes.{picture_of, placed, Adds, DoesOne, FindsKnown, Inserts, InsertsBlank};
    ghost use Rattle.atlas_cache.specs.Changes.{IsExhausted, IsNewAndEmpty, IsNewAndTooLarge, LooksSame, Removes};
    ghost use Rattle.atlas_cache.specs.Changes.{ShowsSame, Uses};
    ghost use Rattle.atlas_cache.specs.Telling.{Tells};

    /// Begins a new frame: what isn't used in it may be evicted. Until the first call no key is evicted for another: all that is held
    /// counts as used in the current frame. Frames are counted up to 2^64 - 1; after that one no other begins.
    pub fn begin_frame(&mut self)
        ensures frame { self.new ≡ record self.old { frame = one_more self.old.frame } }
        ensures unused { self.old.frame < 18446744073709551615 → IsNoneInUse self.new }
        ensures told { ShowsSame (picture_of K.eq self.old) (picture_of K.eq self.new) }
        ensures stays_ready { KeepsReady self.old self.new }
    {
        self.frame = count(self.frame);
    }

    /// How many entries there are, at most 4,294,967,295.
    pub fn len(&self) -> usize
        ensures len { result ≡ length self.now.entries }
        ensures few { result ≤ 4294967295 }
    {
        self.entries.len()
    }

    /// Whether there are none.
    pub fn is_empty(&self) -> bool
        ensures { IsTrue result ↔ (self.now.entries ≡ []) }
    {
        self.entries.is_empty()
    }

    /// How many pages there are.
    pub fn pages(&self) -> u32
        ensures { result ≡ length self.now.pages }
    {
        self.rooms.len()
    }

    /// The size of a page, in pixels; None if there is no such page.
    pub fn page_size(&self, page: u32) -> Option<Size>
        ensures { result ≡ slice_get (page_sizes self.now.pages) page }
    {
        if page < self.rooms.len() {
            Some(self.rooms.page_size(page))
        } else {
            None
        }
    }

    /// States what always holds of a cache, and does nothing: what is live on its pages is what the entries that lie there hold, each
    /// once; each of those has its padding; two of one page lie apart, and each lies within its page, padding included; the
    /// others have empty sizes; and each entry has a key and a number of its own.
    pub fn prove_kept(&self)
        ensures kept { IsKept self.now }
        ensures apart { EntriesLieApart (lying self.now.entries) }
        ensures within { EntriesLieWithin self.now.pages (lying self.now.entries) }
        ensures keys { HaveOwnKeys K.eq self.now.entries }
        ensures numbers { HaveOwnNumbers self.now.entries }
        ensures below { HaveNumbersBelow self.now.numbers self.now.entries }
    {
        self.rooms.prove_kept();
        self.entries.prove_kept();
    }

    /// The place of a key; None if it isn't held. It doesn't count as a use. One look-up by a hash.
    pub fn peek(&self, key: &K) -> Option<Place>
        ensures { result ≡ place_for K.eq self.now key.now }
    {
        let Some((_, found)) = look_up(&self.entries, key) else {
            return None;
        };
        Some(place_of(found, &self.rooms.options()))
    }

    /// The place of a key, which is used in this frame from now on; None if it isn't held. Counts a hit or a miss. One look-up by a hash,
    /// however many keys there are.
    pub fn get(&mut self, key: &K) -> Option<Place>
        ensures place { result ≡ place_for K.eq self.old key.now }
        ensures uses { IfSome (entry_for K.eq key.now self.old.entries) (λ e. Uses e self.old self.new) }
        ensures hit { IsSome result → self.new.counts
            ≡ record self.old.counts { hits = one_more self.old.counts.hits } }
        ensures miss { result ≡ None → self.new ≡ record self.old {
          counts =
              record self.old.counts { misses = one_more self.old.counts.misses };
        } }
        ensures told { ShowsSame (picture_of K.eq self.old) (picture_of K.eq self.new) }
        ensures stays_ready { KeepsReady self.old self.new }
    {
        self.entries.prove_kept();
        let Some((number, entry)) = look_up(&self.entries, key) else {
            self.counts.misses = count(self.counts.misses);
            return None;
        };
        self.counts.hits = count(self.counts.hits);
        self.entries.touch(number, self.frame);
        Some(place_of(entry, &self.rooms.options()))
    }

    /// A place for a key, which is used in this frame. A key that is held keeps its place, and is the most recently
    /// used from now on, which counts as a hit; asked for with another size, be it empty or too large, it is
    /// refused with `OtherSize`, and nothing changes. A new key counts as no miss. It goes onto the first page with room for its size, in
    /// pixels, with the padding. If none has room, a page grows; if none can, one is added; and if no more are allowed,
    /// the least recently used entry that lies on a page and that this frame didn't use is evicted; and so on, up to 16 entries. If there
    /// still is no room then, only entries that lie in one box go: the first box on a page that would come free and that the request fits,
    /// if all that this frame didn't use went in that order. Where memory for its search is refused, a byte for each slot of the pages,
    /// they go on in that order. `FrameFull` if no page has room, nor would one have it, were all entries gone that this frame didn't
    /// use, which can't be while this frame has used nothing; `NeverFits` if the size, with the padding and rounded up to the alignment,
    /// exceeds the largest page, and then nothing changes. What was done is added to the changes, whose room is never given back, also
    /// after `FrameFull` and after an error: `Memory`, `Slots` if those of the first page that has room, or of the one that would grow,
    /// don't suffice (no later frame helps then, but `remove`, `trim` and `clear` do), or `Numbers` only where 4,294,967,295 entries are
    /// still held.
    ///
    /// What an insertion evicted counts as forced, by fragmentation, where some page had as much free area before it as was asked for.
    ///
    /// A new key with an empty size, of which a side is 0 or below, becomes a blank entry: `Placed` with a place that is
    /// empty. It takes no room, so no page changes and nothing is evicted for it, nor is it ever evicted for another key.
    /// While entries are in reserve, it is never refused with `Memory`.
    ///
    /// Nor is an insert that neither adds a page nor grows one (since a page has room, or all allowed exist, at their largest) refused
    /// with `Memory`, given one entry in reserve (`reserve`), 4 slots on each page (`reserve_slots`), and room for one change more than
    /// there are entries. Given n entries in reserve, 4n slots and room for n changes more than entries, none of n such inserts is.
    /// It uses at most 4 more slots of a page, and is refused with `Slots` only where a page used all but 3 at most before it. So once
    /// `reserve_slots(4 * n)` was Ok, none of n such inserts is refused with `Slots` either; `get`, `remove`, `clear` and `begin_frame`
    /// between them take nothing of it.
    ///
    /// Takes one look-up by a hash. A new key that isn't blank also takes a few steps for each page, and a request of an atlas for each
    /// page that isn't known to have no room: one that refused a size no larger in width and height, of the last two, and hasn't changed
    /// since, is. An eviction takes a freeing and another request of its page; it passes each blank key that was used before what it evicts
    /// once, and not again until that key is used. The search for one box takes, until it is found, a step for each entry that this frame
    /// didn't use, and what a freeing takes for each of them that lies there.
    pub fn insert(
        &mut self,
        key: K,
        size: Size,
        changes: &mut Changes<K, A>,
    ) -> Result<Inserted, CacheError>
        ensures known { IfSome (entry_for K.eq key self.old.entries) (λ e.
            FindsKnown e size result self.old self.new × (changes.new.items ≡ changes.old.items)) }
        ensures blank { IsNewAndEmpty K.eq key size self.old
            → InsertsBlank key size result self.old self.new × (changes.new.items ≡ changes.old.items) }
        ensures never { (result ≡ Ok NeverFits) ↔ IsNewAndTooLarge K.eq key size self.old }
        ensures nothing { result ≡ Ok NeverFits
            → (self.new ≡ self.old) × (changes.new.items ≡ changes.old.items) }
        ensures placed { (place : Place) → result ≡ Ok (Placed place) → place_for K.eq self.old key ≡ None }
        ensures held { (place : Place) → result ≡ Ok (Held place) → place_for K.eq self.old key ≡ Some place }
        ensures hit { (place : Place) → result ≡ Ok (Held place)
            → self.new.counts ≡ record self.old.counts { hits = one_more self.old.counts.hits } }
        ensures new { entry_for K.eq key self.old.entries ≡ None → CanStand self.old.options size
            → Inserts (size_of (bordered self.old.options size)) key size result changes.old.items changes.new.items
            self.old self.new }
        ensures forced { self.old.counts.forced < self.new.counts.forced
            → list_any (has_area (size_of (bordered self.old.options size))) self.old.pages ≡ true }
        ensures told { Tells K.eq key result changes.old.items changes.new.items self.old self.new }
        ensures errors { entry_for K.eq key self.old.entries ≡ None
            → IfErr result (IsRefusedNew (length self.new.entries)) }
        ensures short { result ≡ Err Slots → IsShortOfSlots self.new.pages }
        ensures lacks { result ≡ Err Slots
            → LacksSlots (size_of (bordered self.old.options size)) self.new.options self.new.pages }
        ensures capacity { vec_capacity changes.old ≤ vec_capacity changes.new }
        ensures room { IsNoneInUse self.old → result ≢ Ok FrameFull }
        ensures memory { (IsPositive (sides_of size) → ⊥) → 0 < self.old.reserved → result ≢ Err Memory }
        ensures takes { self.old.reserved ≤ self.new.reserved + 1 }
        ensures stays { (self.new.options ≡ self.old.options) × (self.new.frame ≡ self.old.frame) }
        ensures reserves { (n : ℕ) → HasReserves (n + 1) (room_in changes.old) self.old → KeepsPageSizes size self.old
            → (result ≢ Err Memory) × HasReserves n (room_in changes.new) self.new }
        ensures full { IsFull self.old → IsFull self.new }
        ensures one { 0 < self.old.reserved → HaveSlots 4 self.old.pages
            → vec_len changes.old + length self.old.entries < vec_capacity changes.old → KeepsPageSizes size self.old
            → result ≢ Err Memory }
        ensures slots { KeepsPageSizes size self.old → UseAtMost 4 self.old.pages self.new.pages }
        ensures already { KeepsPageSizes size self.old → result ≡ Err Slots → IsShortOfSlots self.old.pages }
        ensures allowed { (n : ℕ) → AllowSlots (4 * (n + 1)) self.old.pages → KeepsPageSizes size self.old
            → (result ≢ Err Slots) × AllowSlots (4 * n) self.new.pages }
        ensures ready { KeepsReadyButOne (room_in changes.old) (room_in changes.new) self.old self.new }
        ensures unrefused { IsReadyFor 1 (room_in changes.old) self.old → (result ≢ Err Memory) × (result ≢ Err Slots) }
    {
        self.entries.prove_kept();
        if let Some((known, entry)) = look_up(&self.entries, &key) {
            if entry.size != size {
                return Err(CacheError::OtherSize);
            }
            self.counts.hits = count(self.counts.hits);
            self.entries.touch(known, self.frame);
            return Ok(Inserted::Held(place_of(entry, &self.rooms.options())));
        }
        if !size.is_positive() {
            return self.add_blank(key, size);
        }
        let Some(asked) = self.rooms.options().asked(size) else {
            return Ok(Inserted::NeverFits);
        };
        self.insert_new(key, size, asked, changes)
    }

    /// Removes a key, and gives the place that it had; None if it isn't held. Takes no memory, and nothing of what is in reserve;
    /// one look-up by a hash, and a freeing.
    pub fn remove(&mut self, key: &K) -> Option<Place>
        ensures place { result ≡ place_for K.eq self.old key.now }
        ensures removes { IfSome (entry_for K.eq key.now self.old.entries) (λ e. Removes e self.old self.new) }
        ensures none { result ≡ None → self.new ≡ self.old }
        ensures told { ShowsSame (placed K.eq key.now None (picture_of K.eq self.old)) (picture_of K.eq self.new) }
        ensures ready { (n : ℕ) → HaveSlots n self.old.pages → HaveSlots n self.new.pages }
        ensures reserves { (n room : ℕ) → HasReserves n room self.old → HasReserves n room self.new }
        ensures full { IsFull self.old → IsFull self.new }
        ensures allowed { (n : ℕ) → AllowSlots n self.old.pages → AllowSlots n self.new.pages }
        ensures stays_ready { KeepsReady self.old self.new }
    {
        self.entries.prove_kept();
        let Some((number, gone)) = look_up(&self.entries, key) else {
            return None;
        };
        take_out(&mut self.rooms, &mut self.entries, number, gone);
        Some(place_of(gone, &self.rooms.options()))
    }

    // Adds a key that isn't held, of an empty size.
    fn add_blank(&mut self, key: K, size: Size) -> Result<Inserted, CacheError>
        requires absent { entry_for K.eq key self.old.entries ≡ None }
        requires empty { IsPositive (sides_of size) → ⊥ }
        ensures inserts { InsertsBlank key size result self.old self.new }
        ensures memory { 0 < self.old.reserved → result ≢ Err Memory }
    {
        let entry = join_blank(&mut self.entries, key, size, self.frame)?;
        Ok(Inserted::Placed(place_of(entry, &self.rooms.options())))
    }

    // Adds a key on the first page that has room for it, which is one of these, if any has; None if none has.
    fn add(
        &mut self,
        key: K,
        size: Size,
        asked: Size,
        from: usize,
        to: usize,
    ) -> Result<Option<Place>, CacheError>
        requires absent { entry_for K.eq key self.old.entries ≡ None }
        requires stands { CanStand self.old.options size }
        requires asked { asked ≡ size_of (bordered self.old.options size) }
        requires inside { to ≤ length self.old.pages }
        requires others { HasRoomOnlyAmong asked self.old.pages from to }
        ensures adds { IfOk result (λ placed. IfSome placed (λ place.
            Adds asked key size place self.old self.new)) }
        ensures none { result ≡ Ok None → self.new ≡ self.old }
        ensures full { result ≡ Ok None → HasNoPageFor asked self.old }
        ensures refused { OnErr result (LooksSame self.old self.new) }
        ensures errors { IfErr result (IsRefusedNew (length self.new.entries)) }
        ensures short { result ≡ Err Slots → IsShortOfSlots self.new.pages }
        ensures lacks { result ≡ Err Slots → IsFirstShort asked self.new.pages }
        ensures reserves { (n room : ℕ) → HasReserves (n + 1) room self.old
            → (result ≢ Err Memory) × HasReserves n room self.new }
        ensures slots { UseAtMost 4 self.old.pages self.new.pages }
        ensures already { result ≡ Err Slots → IsShortOfSlots self.old.pages }
    {
        let granted = grant(
            &mut self.rooms,
            &mut self.entries,
            key,
            size,
            asked,
            self.frame,
            from,
            to,
        )?;
        let Some(entry) = granted else {
            return Ok(None);
        };
        Ok(Some(place_of(entry, &self.rooms.options())))
    }

    // One change for a request that has room on no page: the page that changed; None if nothing can be done.
    fn make_room(
        &mut self,
        asked: Size,
        changes: &mut Changes<K, A>,
    ) -> Result<Option<u32>, CacheError>
        requires { HasNoPageFor asked self.old }
        ensures does { IfOk result (λ changed. IsSome changed
            → DoesOne changes.old.items changes.new.items self.old self.new) }
        ensures less { IfOk result (λ changed. IsSome changed → steps_left self.new < steps_left self.old) }
        ensures there { IfOk result (λ changed. IfSome changed (λ page. page < length self.new.pages)) }
        ensures others { IfOk result (λ changed. IfSome changed (λ page.
            KeepsPages self.old.pages self.new.pages page)) }
        ensures stops { result ≡ Ok None → IsExhausted asked self.old }
        ensures stays { result ≡ Ok None → (self.new ≡ self.old) × (changes.new.items ≡ changes.old.items) }
        ensures refused { OnErr result ((self.new ≡ self.old) × (changes.new.items ≡ changes.old.items)) }
        ensures errors { IfErr result IsRefusal }
        ensures short { result ≡ Err Slots → IsShortOfSlots self.new.pages }
        ensures lacks { result ≡ Err Slots → IsGrowthShort self.new.options self.new.pages }
        ensures capacity { vec_capacity changes.old ≤ vec_capacity changes.new }
        ensures reserves { IsFull self.old → (n : ℕ) → HasReserves n (room_in changes.old) self.old
            → HasReserves n (room_in changes.new) self.new }
        ensures memory { IsFull self.old → 0 < room_in changes.old → result ≢ Err Memory }
        ensures full { IsFull self.old → IsFull self.new }
        ensures slots { IsFull self.old → UseAtMost 0 self.old.pages self.new.pages }
        ensures ample { IsFull self.old → result ≢ Err Slots }
    {
        self.rooms.prove_pages();
        changes.reserve(1)?;
        if let Some((page, size)) = self.rooms.grow_page()? {
            changes.push_reserved(CacheChange::PageGrown { page, size });
            return Ok(Some(page));
        }
        if let Some((page, size)) = self.rooms.add_page()? {
            changes.push_reserved(CacheChange::PageAdded { page, size });
            return Ok(Some(page));
        }
        Ok(self.evict(changes))
    }

    // Of the entries that lie on a page the least recently used one goes, if this frame didn't use it: its page.
    fn evict(&mut self, changes: &mut Changes<K, A>) -> Option<u32>
        requires full { IsFull self.old }
        requires room { vec_len changes.old < vec_capacity changes.old }
        ensures does { IsSome result → DoesOne changes.old.items changes.new.items self.old self.new }
        ensures less { IsSome result → steps_left self.new < steps_left self.old }
        ensures there { IfSome result (λ page. page < length self.new.pages) }
        ensures others { IfSome result (λ page. KeepsPages self.old.pages self.new.pages page) }
        ensures stops { result ≡ None → AreAllInUse self.old }
        ensures stays { result ≡ None → (self.new ≡ self.old) × (changes.new.items ≡ changes.old.items) }
        ensures reserves { (n : ℕ) → HasReserves n (room_in changes.old) self.old
            → HasReserves n (room_in changes.new) self.new }
        ensures full { IsFull self.new }
        ensures slots { UseAtMost 0 self.old.pages self.new.pages }
        ensures capacity { vec_capacity changes.old ≤ vec_capacity changes.new }
    {
        let Some((number, entry)) = oldest_lying(&mut self.entries) else {
            return None;
        };
        if entry.frame == self.frame {
            return None;
        }
        take_out(&mut self.rooms, &mut self.entries, number, entry);
        self.counts.evictions = count(self.counts.evictions);
        let place = place_of(entry, &self.rooms.options());
        let key = entry.key;
        changes.push_reserved(CacheChange::Evicted { key, place });
        Some(entry.page)
    }
}
