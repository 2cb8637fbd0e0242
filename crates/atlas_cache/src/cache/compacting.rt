//! What lies on the last page moves to the pages before it, a few pixels at a time.
ghost use Rattle.std.specs.Prelude.{◌≡◌, ◌+◌, ◌-◌, ◌<◌, ◌≤◌, length, Err, IfErr, IfOk, IsSome, OnErr};
ghost use Rattle.std.specs.Prelude.{vec_capacity, vec_len};
ghost use Rattle.guillotiere.specs.declared.Size.{Size};
ghost use Rattle.guillotiere.specs.Pages.{page_sizes, NoneHasRoomBelow};
ghost use Rattle.atlas_cache.specs.Caches.{entries_of, place_for, AreBordered, HoldsEntries};
ghost use Rattle.atlas_cache.specs.Clearing.{TellsChanges};
ghost use Rattle.atlas_cache.specs.Compacting.{Compacts, MovesSome, Visits};
ghost use Rattle.atlas_cache.specs.Reserving.{IsShortOfSlots};
ghost use Rattle.atlas_cache.specs.Rooms.{IsRefusal};
ghost use Rattle.atlas_entries.specs.Entries.{entry_at, lying};
ghost use Rattle.atlas_entries.specs.declared.error.CacheError.TheVariants.{Slots};

use crate::cache::TextureCache;
use crate::cache::holding::place_of;
use crate::changes::{CacheChange, Changes};
use crate::rooms::Rooms;
use crate::rooms::repacking::{area_of, size_of_box};
use atlas_entries::entries::{Entries, Entry};
use atlas_entries::error::CacheError;
use std::alloc::Allocator;
use std::hash::{BuildHasher, Hash};

// An entry that lies on the last page, on no more pixels than are left, moves to the first page before it that has room for it: how many
// pixels moved, 0 if it stays.
fn visit<K: Copy + Eq + Hash, S: BuildHasher, A: Allocator + Copy>(
    rooms: &mut Rooms<A>,
    entries: &mut Entries<K, S, A>,
    last: u32,
    number: u32,
    left: u64,
    changes: &mut Changes<K, A>,
) -> Result<u64, CacheError>
    requires last { last + 1 ≡ length rooms.old.pages }
    requires held { HoldsEntries rooms.old.pages (lying (entries_of entries.old.entries)) }
    requires bordered { AreBordered rooms.old.options.padding (entries_of entries.old.entries) }
    requires here { IsSome (entry_at number entries.old.entries) }
    requires room { vec_len changes.old < vec_capacity changes.old }
    ensures visits { IfOk result (λ moved. Visits last number left moved changes.old.items changes.new.items rooms.old rooms.new
        entries.old entries.new) }
    ensures few { IfOk result (λ moved. moved ≤ left) }
    ensures none { (request : Size) → NoneHasRoomBelow request rooms.old.pages last
        → NoneHasRoomBelow request rooms.new.pages last }
    ensures held { HoldsEntries rooms.new.pages (lying (entries_of entries.new.entries)) }
    ensures bordered { AreBordered rooms.new.options.padding (entries_of entries.new.entries) }
    ensures sizes { page_sizes rooms.new.pages ≡ page_sizes rooms.old.pages }
    ensures refused { OnErr result ((rooms.new ≡ rooms.old) × (entries.new ≡ entries.old)
        × (changes.new.items ≡ changes.old.items)) }
    ensures errors { IfErr result IsRefusal }
    ensures short { result ≡ Err Slots → IsShortOfSlots rooms.new.pages }
    ensures longer { vec_len changes.new ≤ vec_len changes.old + 1 }
    ensures capacity { vec_capacity changes.old ≤ vec_capacity changes.new }
{
    rooms.prove_pages();
    let entry = entries.entry(number);
    let pixels = area_of(entry.rectangle);
    if entry.page != last || pixels > left {
        return Ok(0);
    }
    let asked = size_of_box(entry.rectangle);
    let Some((page, granted)) = rooms.place_before(0, last as usize, asked)? else {
        return Ok(0);
    };
    rooms.prove_pages();
    rooms.free(last, entry.id);
    entries.move_to(number, page, granted.id, granted.rectangle);
    let moved = Entry {
        page,
        id: granted.id,
        rectangle: granted.rectangle,
        ..entry
    };
    let from = place_of(entry, &rooms.options());
    let to = place_of(moved, &rooms.options());
    let key = entry.key;
    changes.push_reserved(CacheChange::Moved { key, from, to });
    Ok(pixels)
}

// Each entry is visited, the most recently used first: how many pixels moved.
fn visit_all<K: Copy + Eq + Hash, S: BuildHasher, A: Allocator + Copy>(
    rooms: &mut Rooms<A>,
    entries: &mut Entries<K, S, A>,
    last: u32,
    pixels: u64,
    changes: &mut Changes<K, A>,
) -> Result<u64, CacheError>
    requires last { last + 1 ≡ length rooms.old.pages }
    requires held { HoldsEntries rooms.old.pages (lying (entries_of entries.old.entries)) }
    requires bordered { AreBordered rooms.old.options.padding (entries_of entries.old.entries) }
    requires room { vec_len changes.old + length entries.old.entries ≤ vec_capacity changes.old }
    ensures moves { MovesSome last pixels result changes.old.items changes.new.items rooms.old rooms.new entries.old entries.new }
    ensures held { HoldsEntries rooms.new.pages (lying (entries_of entries.new.entries)) }
    ensures bordered { AreBordered rooms.new.options.padding (entries_of entries.new.entries) }
    ensures errors { IfErr result IsRefusal }
    ensures short { result ≡ Err Slots → IsShortOfSlots rooms.new.pages }
    ensures capacity { vec_capacity changes.old ≤ vec_capacity changes.new }
{
    let mut moved = 0;
    let mut next = entries.newest();
    for _ in 0..entries.len() {
        let Some(number) = next else {
            return Ok(moved);
        };
        entries.prove_kept();
        next = entries.older(number);
        moved += visit(rooms, entries, last, number, pixels - moved, changes)?;
    }
    Ok(moved)
}

impl<K: Copy + Eq + Hash, S: BuildHasher, A: Allocator + Copy> TextureCache<K, S, A> {
    /// Moves keys of the last page to the pages before it, so that a `shrink` can give it back, as many as some pixels are enough for:
    /// after a burst a call in each frame empties page after page, where a `repack` would take too long for one. The entries are looked
    /// at in the order of their use, the most recently used first: each that lies on the last page, on no more pixels, padding
    /// included, than are left, moves to the first page before it that has room for it, and is added to the changes as `Moved`. No key
    /// goes, none counts as used or as evicted, and no page grows or goes. Returns how many pixels moved: 0 where there are
    /// fewer than two pages, or where no key moved.
    ///
    /// All moves lead from the last page to other ones, on which nothing comes free: so the pixels can be copied one after another. The
    /// list of changes is asked for room for as many as there are entries; with `Memory`, if that is refused, nothing changes. `Memory` or
    /// `Slots` that a page is refused end the call: what was moved before stays moved, and is listed. Takes a step for each entry of all
    /// pages, and for each of the last page that is small enough a request of each page before it that isn't known to have no room.
    pub fn compact(&mut self, pixels: u64, changes: &mut Changes<K, A>) -> Result<u64, CacheError>
        ensures compacts { Compacts pixels result changes.old.items changes.new.items self.old self.new }
        ensures held { (k : K) → IsSome (place_for K.eq self.old k) → IsSome (place_for K.eq self.new k) }
        ensures told { TellsChanges K.eq changes.old.items changes.new.items self.old self.new }
        ensures errors { IfErr result IsRefusal }
        ensures short { result ≡ Err Slots → IsShortOfSlots self.new.pages }
        ensures capacity { vec_capacity changes.old ≤ vec_capacity changes.new }
    {
        let pages = self.rooms.len();
        if pages < 2 {
            return Ok(0);
        }
        self.entries.prove_kept();
        changes.reserve(self.entries.len())?;
        visit_all(
            &mut self.rooms,
            &mut self.entries,
            pages - 1,
            pixels,
            changes,
        )
    }
}
