//! A page's entries placed anew.
ghost use Rattle.std.specs.Prelude.{◌≡◌, ◌==◌, ◌↔◌, ◌+◌, ◌*◌, ◌≤◌, ◌<◌, ◌++◌, [], ◌∷◌, ℕ, List, true, false, find, length};
ghost use Rattle.std.specs.Prelude.{Err, IfErr, IfOk, IsOkUnless, IsPermutation, IsTrue, OnErr, Ok, Some};
ghost use Rattle.std.specs.Prelude.{vec_capacity, vec_len};
ghost use Rattle.std.specs.List.{cons_option, filter_map};
ghost use Rattle.std.specs.List.Sorted.{IsSortedByKey};
ghost use Rattle.std.specs.Ordering.{nat_cmp};
ghost use Rattle.atlas_cache.specs.Caches.{entries_of, AreBordered, IsBordered};
ghost use Rattle.atlas_cache.specs.Clearing.{TellsChanges};
ghost use Rattle.atlas_entries.specs.Entries.{entry_at};
ghost use Rattle.atlas_cache.specs.Relocating.{become, former_id, held_on, numbered_as, renewed_by, told_as, told_of, AreInIdOrder};
ghost use Rattle.atlas_cache.specs.Relocating.{keys_of, Repacks};
ghost use Rattle.atlas_cache.specs.Repacking.{LosesSome};
ghost use Rattle.atlas_cache.specs.Rooms.{IsRefusal};
ghost use Rattle.atlas_entries.specs.declared.error.CacheError.TheVariants.{Slots};

use crate::cache::TextureCache;
use crate::cache::holding::place_of;
use crate::changes::{CacheChange, Changes};
use crate::options::CacheOptions;
use atlas_entries::entries::{Entries, Entry};
use atlas_entries::error::CacheError;
use guillotiere::{AllocId, Allocation, Change};
use std::alloc::Allocator;
use std::hash::{BuildHasher, Hash};

// The rectangles of the entries of a page, the most recently used first.
fn rectangles_of<K: Copy + Eq + Hash, S: BuildHasher, A: Allocator + Copy>(
    entries: &Entries<K, S, A>,
    page: u32,
    alloc: A,
) -> Result<Vec<Allocation, A>, CacheError>
    ensures held { IfOk result (λ held. held.items ≡ held_on page (entries_of entries.now.entries)) }
    ensures unless { IsOkUnless result CacheError.Memory }
{
    let mut held = Vec::new(alloc);
    let mut next = entries.newest();
    for _ in 0..entries.len() {
        let Some(number) = next else {
            return Ok(held);
        };
        entries.prove_kept();
        let found = entries.entry(number);
        next = entries.older(number);
        if found.page == page {
            held.push(Allocation {
                id: found.id,
                rectangle: found.rectangle,
            })?;
        }
    }
    Ok(held)
}

// Puts changes into the order of their former ids.
fn sort_by_id<A: Allocator>(changes: &mut Vec<Change, A>)
    ensures permuted { IsPermutation changes.old.items changes.new.items }
    ensures rising { IsSortedByKey former_id nat_cmp changes.new.items }
{
    changes.sort_unstable_by_key(|change| change.old.id.serialize());
}

// The change of an id, if there is one. Takes as many steps as the logarithm of their number.
fn change_for(changes: &[Change], id: AllocId) -> Option<Change>
    requires { AreInIdOrder changes.now }
    ensures { result ≡ find (λ c. c.old.id == id) changes.now }
{
    match changes.binary_search_by_key(&id.serialize(), |change| change.old.id.serialize()) {
        Ok(at) => Some(changes[at]),
        Err(_) => None,
    }
}

// An entry of the page is moved if a change names its id, and goes if none does. Either is told.
fn settle<K: Copy + Eq + Hash, S: BuildHasher, A: Allocator + Copy>(
    entries: &mut Entries<K, S, A>,
    options: &CacheOptions,
    moves: &[Change],
    number: u32,
    entry: Entry<K>,
    changes: &mut Changes<K, A>,
)
    requires moves { AreInIdOrder moves.now }
    requires here { entry_at number entries.old.entries ≡ Some entry }
    requires was { IsBordered options.now.padding entry }
    requires is { (f : Entry K) → renewed_by moves.now entry ≡ Some f
        → IsBordered options.now.padding f }
    requires room { vec_len changes.old < vec_capacity changes.old }
    ensures settled { (newer older : List (ℕ × Entry K)) → entries.old.entries ≡ newer ++ (number, entry) ∷ older
        → entries.new.entries ≡ newer ++ cons_option (numbered_as number (renewed_by moves.now entry)) older }
    ensures made { entries.new.made ≡ entries.old.made }
    ensures reserved { entries.new.reserved ≡ entries.old.reserved }
    ensures told { changes.new.items
        ≡ changes.old.items ++ told_as options.now.padding entry (renewed_by moves.now entry) ∷ [] }
    ensures longer { vec_len changes.new ≡ vec_len changes.old + 1 }
    ensures room { vec_capacity changes.old ≤ vec_capacity changes.new }
{
    entries.prove_kept();
    let from = place_of(entry, options);
    let key = entry.key;
    match change_for(moves, entry.id) {
        Some(change) => {
            let moved = Entry {
                id: change.new.id,
                rectangle: change.new.rectangle,
                ..entry
            };
            entries.move_to(number, moved.page, moved.id, moved.rectangle);
            let to = place_of(moved, options);
            changes.push_reserved(CacheChange::Moved { key, from, to });
        }
        None => {
            entries.remove(number);
            changes.push_reserved(CacheChange::Evicted { key, place: from });
        }
    }
}

// Each entry of the page is moved or goes, the most recently used first.
fn settle_all<K: Copy + Eq + Hash, S: BuildHasher, A: Allocator + Copy>(
    entries: &mut Entries<K, S, A>,
    options: &CacheOptions,
    moves: &[Change],
    page: u32,
    changes: &mut Changes<K, A>,
)
    requires moves { AreInIdOrder moves.now }
    requires was { AreBordered options.now.padding (entries_of entries.old.entries) }
    requires is { AreBordered options.now.padding
        (filter_map (become page (renewed_by moves.now)) (entries_of entries.old.entries)) }
    requires room { vec_len changes.old + length entries.old.entries ≤ vec_capacity changes.old }
    ensures entries { entries_of entries.new.entries
        ≡ filter_map (become page (renewed_by moves.now)) (entries_of entries.old.entries) }
    ensures made { entries.new.made ≡ entries.old.made }
    ensures reserved { entries.new.reserved ≡ entries.old.reserved }
    ensures told { changes.new.items ≡ changes.old.items
        ++ filter_map (told_of options.now.padding page (renewed_by moves.now)) (entries_of entries.old.entries) }
    ensures capacity { vec_capacity changes.old ≤ vec_capacity changes.new }
{
    let mut next = entries.newest();
    for _ in 0..entries.len() {
        let Some(number) = next else {
            return;
        };
        entries.prove_kept();
        let entry = entries.entry(number);
        next = entries.older(number);
        if entry.page == page {
            settle(entries, options, moves, number, entry, changes);
        }
    }
}

impl<K: Copy + Eq + Hash, S: BuildHasher, A: Allocator + Copy> TextureCache<K, S, A> {
    /// Places the entries of a page anew, so that what is free comes together: the largest first, by the area of
    /// `rectangle`, and among equal areas the most recently used; the page doesn't grow. Returns whether there is such a page; if
    /// not, nothing changes. Each entry of the page is added to the changes once, the most recently used first: as
    /// `Moved`, also where it stays in its place, or as `Evicted`, which is counted, where it found no room when its
    /// turn came, also if this frame uses it: `repack_keeping_all` evicts none. Every other entry stays, and so do the order of use, the
    /// frame, the options and what entries are in reserve; the page may have no slots in reserve then.
    ///
    /// A place that an entry moves to can overlap one that a later change moves from: copy all pixels from the page as
    /// it was before the call. `Slots` if the page has too few of them, which takes more than 4,194,303 entries on it, `Memory` if
    /// memory is refused; then nothing changes. Takes as many steps as there are entries of all pages, and for each entry of the page
    /// one request of an atlas and as many steps as the logarithm of their number.
    pub fn repack(&mut self, page: u32, changes: &mut Changes<K, A>) -> Result<bool, CacheError>
        ensures repacks { result ≡ Ok true → Repacks page changes.old.items changes.new.items self.old self.new }
        ensures there { IfOk result (λ there. IsTrue there ↔ (page < length self.old.pages)) }
        ensures absent { length self.old.pages ≤ page → result ≡ Ok false }
        ensures none { result ≡ Ok false → (self.new ≡ self.old) × (changes.new.items ≡ changes.old.items) }
        ensures told { TellsChanges K.eq changes.old.items changes.new.items self.old self.new }
        ensures refused { OnErr result ((self.new ≡ self.old) × (changes.new.items ≡ changes.old.items)) }
        ensures errors { IfErr result IsRefusal }
        ensures capacity { vec_capacity changes.old ≤ vec_capacity changes.new }
        ensures short { result ≡ Err Slots → 16777216 < 1 + 4 * length (held_on page self.old.entries) }
    {
        self.repack_page(page, false, changes)
    }

    /// Places the entries of a page anew as `repack` does, but only where each of them finds room: no key goes, and none is counted as
    /// evicted. Returns whether it did; if not, there is no such page, or `repack` would evict some of its entries, and nothing changes.
    /// Takes what `repack` takes, also where nothing changes.
    pub fn repack_keeping_all(
        &mut self,
        page: u32,
        changes: &mut Changes<K, A>,
    ) -> Result<bool, CacheError>
        ensures repacks { result ≡ Ok true → Repacks page changes.old.items changes.new.items self.old self.new }
        ensures keys { result ≡ Ok true → keys_of self.new.entries ≡ keys_of self.old.entries }
        ensures counts { result ≡ Ok true → self.new.counts ≡ self.old.counts }
        ensures there { result ≡ Ok true → page < length self.old.pages }
        ensures loses { result ≡ Ok false → page < length self.old.pages
            → LosesSome self.old.pages page (held_on page self.old.entries) }
        ensures absent { length self.old.pages ≤ page → result ≡ Ok false }
        ensures none { result ≡ Ok false → (self.new ≡ self.old) × (changes.new.items ≡ changes.old.items) }
        ensures told { TellsChanges K.eq changes.old.items changes.new.items self.old self.new }
        ensures refused { OnErr result ((self.new ≡ self.old) × (changes.new.items ≡ changes.old.items)) }
        ensures errors { IfErr result IsRefusal }
        ensures capacity { vec_capacity changes.old ≤ vec_capacity changes.new }
        ensures short { result ≡ Err Slots → 16777216 < 1 + 4 * length (held_on page self.old.entries) }
    {
        self.repack_page(page, true, changes)
    }

    // Places the entries of a page anew; if `whole`, only where each finds room. Whether it did.
    fn repack_page(
        &mut self,
        page: u32,
        whole: bool,
        changes: &mut Changes<K, A>,
    ) -> Result<bool, CacheError>
        ensures repacks { result ≡ Ok true → Repacks page changes.old.items changes.new.items self.old self.new }
        ensures keys { result ≡ Ok true → IsTrue whole → keys_of self.new.entries ≡ keys_of self.old.entries }
        ensures counts { result ≡ Ok true → IsTrue whole → self.new.counts ≡ self.old.counts }
        ensures there { result ≡ Ok true → page < length self.old.pages }
        ensures loses { result ≡ Ok false → page < length self.old.pages
            → IsTrue whole × LosesSome self.old.pages page (held_on page self.old.entries) }
        ensures absent { length self.old.pages ≤ page → result ≡ Ok false }
        ensures none { result ≡ Ok false → (self.new ≡ self.old) × (changes.new.items ≡ changes.old.items) }
        ensures told { TellsChanges K.eq changes.old.items changes.new.items self.old self.new }
        ensures refused { OnErr result ((self.new ≡ self.old) × (changes.new.items ≡ changes.old.items)) }
        ensures errors { IfErr result IsRefusal }
        ensures capacity { vec_capacity changes.old ≤ vec_capacity changes.new }
        ensures short { result ≡ Err Slots → 16777216 < 1 + 4 * length (held_on page self.old.entries) }
    {
        if page >= self.rooms.len() {
            return Ok(false);
        }
        self.entries.prove_kept();
        let before = self.entries.len();
        changes.reserve(before)?;
        let held = rectangles_of(&self.entries, page, *changes.allocator())?;
        let Some(mut list) = self.rooms.repack(page, held, whole)? else {
            return Ok(false);
        };
        sort_by_id(&mut list.changes);
        let options = self.rooms.options();
        settle_all(&mut self.entries, &options, &list.changes, page, changes);
        let gone = (before - self.entries.len()) as u64;
        self.counts.evictions = self.counts.evictions.saturating_add(gone);
        Ok(true)
    }
}
