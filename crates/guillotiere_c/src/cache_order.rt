//! The exports that walk along the keys of a cache in the order of their use, and those that take memory beforehand.
ghost use Rattle.std.specs.Prelude.{◌≡◌, ◌≢◌, ◌≤◌, IsNone, IsSome, IsSomeAnd, None, Some, option_map};
ghost use Rattle.atlas_cache.specs.Caches.{with_reserve};
ghost use Rattle.atlas_cache.specs.Walking.{first_entry, keyed, last_entry};
ghost use Rattle.atlas_cache.specs.Reserving.{AllowSlots, HaveSlots, IsShortFor, ReadiesInserts, StopsAtPage};
ghost use Rattle.atlas_cache.specs.declared.CacheError.TheVariants.{Memory, Slots};
ghost use Rattle.guillotiere_c.specs.CacheCalls.{IsOlder, KeepsStates};
ghost use Rattle.guillotiere_c.specs.CacheNumbers.{keyed_answer};
ghost use Rattle.guillotiere_c.specs.Following.{GoesOver, HoldsCache, StaysHeld};

use crate::cache_handle::{CacheHandle, CacheReader};
use crate::plain::{DONE, EMPTY, MEMORY, NOT_HELD, SLOTS};
use crate::plain_cache::{PlainPlace, plain_place, status_of_cache_error};
use atlas_cache::Place;
use std::alloc::Global;

// Writes the key and the place that a walk found.
fn write_keyed(found: Option<(u64, Place)>, key: &mut u64, place: &mut PlainPlace) -> u32
    ensures answer { keyed_answer result key.new place.new ≡ Some found }
    ensures unwritten { result ≢ DONE → (key.new ≡ key.old) × (place.new ≡ place.old) }
{
    match found {
        Some((next, at)) => {
            *key = next;
            *place = plain_place(at);
            DONE
        }
        None => NOT_HELD,
    }
}

/// The most recently used key, and its place; it doesn't count as a use. `DONE`; `NOT_HELD` if no key is held; `EMPTY`.
#[unsafe(no_mangle)]
pub extern "C" fn guillotiere_cache_newest(
    cache: &CacheReader,
    key: &mut u64,
    place: &mut PlainPlace,
) -> u32
    ensures newest { IsSome cache.now.kept → IsSomeAnd (keyed_answer result key.new place.new) (λ found.
        HoldsCache cache.now.kept (λ f. found
        ≡ option_map (keyed f.cache.options.padding) (first_entry f.cache.entries))) }
    ensures unwritten { result ≢ DONE → (key.new ≡ key.old) × (place.new ≡ place.old) }
    ensures empty { IsNone cache.now.kept → result ≡ EMPTY }
{
    if !cache.holds() {
        return EMPTY;
    }
    let held = cache.lent().cache();
    let found = held.newest();
    write_keyed(found, key, place)
}

/// The least recently used key, and its place; it doesn't count as a use. `DONE`; `NOT_HELD` if no key is held; `EMPTY`.
#[unsafe(no_mangle)]
pub extern "C" fn guillotiere_cache_oldest(
    cache: &CacheReader,
    key: &mut u64,
    place: &mut PlainPlace,
) -> u32
    ensures oldest { IsSome cache.now.kept → IsSomeAnd (keyed_answer result key.new place.new) (λ found.
        HoldsCache cache.now.kept (λ f. found
        ≡ option_map (keyed f.cache.options.padding) (last_entry f.cache.entries))) }
    ensures unwritten { result ≢ DONE → (key.new ≡ key.old) × (place.new ≡ place.old) }
    ensures empty { IsNone cache.now.kept → result ≡ EMPTY }
{
    if !cache.holds() {
        return EMPTY;
    }
    let held = cache.lent().cache();
    let found = held.oldest();
    write_keyed(found, key, place)
}

/// The next less recently used key, and its place; this doesn't count as a use. From the newest key on, this gives each key
/// once. `DONE`: it is in `older`. `NOT_HELD` if `key` is the least recently used, or isn't held; `EMPTY`.
#[unsafe(no_mangle)]
pub extern "C" fn guillotiere_cache_older(
    cache: &CacheReader,
    key: u64,
    older: &mut u64,
    place: &mut PlainPlace,
) -> u32
    ensures older { IsSome cache.now.kept → IsSomeAnd (keyed_answer result older.new place.new) (λ found.
        HoldsCache cache.now.kept (λ f. IsOlder key found f.cache)) }
    ensures unwritten { result ≢ DONE → (older.new ≡ older.old) × (place.new ≡ place.old) }
    ensures empty { IsNone cache.now.kept → result ≡ EMPTY }
{
    if !cache.holds() {
        return EMPTY;
    }
    let held = cache.lent().cache();
    let found = held.older(&key);
    write_keyed(found, older, place)
}

/// Makes sure that there is memory for this many more keys; nothing else changes. A key that is added takes one of them; one
/// that goes gives none back, but `guillotiere_cache_clear` does. An insertion also takes slots of pages and room for changes:
/// for these there are the next two calls. `DONE`; `MEMORY`; `EMPTY`.
#[unsafe(no_mangle)]
pub extern "C" fn guillotiere_cache_reserve(
    alloc: Global,
    cache: &mut CacheHandle,
    additional: usize,
) -> u32
    ensures reserves { result ≡ DONE → GoesOver cache.old.kept cache.new.kept (λ f g.
        g ≡ record f { cache = with_reserve additional f.cache }) }
    ensures refused { result ≢ DONE → cache.new.kept ≡ cache.old.kept }
    ensures unless { IsSome cache.old.kept → result ≢ DONE → result ≡ MEMORY }
    ensures empty { IsNone cache.old.kept → result ≡ EMPTY }
{
    if !cache.holds() {
        return EMPTY;
    }
    let mut held = cache.take(alloc);
    let answer = held.reserve(additional);
    cache.put(held);
    match answer {
        Ok(()) => DONE,
        Err(error) => status_of_cache_error(error),
    }
}

/// Makes sure that this many slots are in reserve on each page. An insertion that neither adds a page nor grows one uses at
/// most 4 of each page; a page that is added later has none in reserve, one that grows uses up to 3, one that is repacked may
/// have none, and one that goes takes its own along; removing, trimming and clearing take none. So once
/// `guillotiere_cache_reserve(n)`, this with 4 times n and `guillotiere_cache_reserve_changes` for n and all keys that are
/// held were `DONE`, and every page is there and at its largest, none of n insertions is refused with `SLOTS` or `MEMORY`.
/// `DONE`; `SLOTS` if those of a page don't suffice; `MEMORY`; `EMPTY`. The pages before the one that was refused have theirs
/// then, and it and those after it are as they were.
#[unsafe(no_mangle)]
pub extern "C" fn guillotiere_cache_reserve_slots(
    alloc: Global,
    cache: &mut CacheHandle,
    additional: u32,
) -> u32
    ensures ready { result ≡ DONE → HoldsCache cache.new.kept (λ f. HaveSlots additional f.cache.pages) }
    ensures keeps { IsSome cache.old.kept → GoesOver cache.old.kept cache.new.kept KeepsStates }
    ensures unless { IsSome cache.old.kept → result ≢ DONE → result ≢ SLOTS → result ≡ MEMORY }
    ensures short { result ≡ SLOTS → HoldsCache cache.old.kept (λ f. IsShortFor additional f.cache.pages) }
    ensures had { HoldsCache cache.old.kept (λ f. HaveSlots additional f.cache.pages) → result ≢ MEMORY }
    ensures allowed { result ≡ DONE → HoldsCache cache.new.kept (λ f. AllowSlots additional f.cache.pages) }
    ensures stops { result ≡ SLOTS → GoesOver cache.old.kept cache.new.kept (λ f g.
        StopsAtPage additional Slots f.cache.pages g.cache.pages) }
    ensures stops_for_memory { result ≡ MEMORY → GoesOver cache.old.kept cache.new.kept (λ f g.
        StopsAtPage additional Memory f.cache.pages g.cache.pages) }
    ensures inserts { result ≡ DONE → GoesOver cache.old.kept cache.new.kept (λ f g.
        ReadiesInserts additional f.cache g.cache) }
    ensures empty { IsNone cache.old.kept → (result ≡ EMPTY) × (cache.new.kept ≡ None) }
{
    if !cache.holds() {
        return EMPTY;
    }
    let mut held = cache.take(alloc);
    let answer = held.reserve_slots(additional);
    cache.put(held);
    match answer {
        Ok(()) => DONE,
        Err(error) => status_of_cache_error(error),
    }
}

/// Takes memory for this many changes besides those that wait to be handed over; nothing else changes. `DONE`; `MEMORY`;
/// `EMPTY`.
#[unsafe(no_mangle)]
pub extern "C" fn guillotiere_cache_reserve_changes(
    alloc: Global,
    cache: &mut CacheHandle,
    additional: usize,
) -> u32
    ensures same { StaysHeld cache.old.kept cache.new.kept }
    ensures room { result ≡ DONE → HoldsCache cache.new.kept (λ f. additional ≤ f.room) }
    ensures had { HoldsCache cache.old.kept (λ f. additional ≤ f.room) → result ≡ DONE }
    ensures unless { IsSome cache.old.kept → result ≢ DONE → result ≡ MEMORY }
    ensures empty { IsNone cache.old.kept → result ≡ EMPTY }
{
    if !cache.holds() {
        return EMPTY;
    }
    let mut held = cache.take(alloc);
    let answer = held.reserve_changes(additional);
    cache.put(held);
    match answer {
        Ok(()) => DONE,
        Err(error) => status_of_cache_error(error),
    }
}
