//! The keys of a cache in the order of their use.
ghost use Rattle.std.specs.Prelude.{◌≡◌, ◌∷◌, None, Some, IfNone, IfSome, option_map};
ghost use Rattle.atlas_entries.specs.declared.entries.Entry.{Entry};
ghost use Rattle.atlas_cache.specs.Caches.{entries_of, entry_for};
ghost use Rattle.atlas_entries.specs.Entries.{entry_at, without_number, IsNumber};
ghost use Rattle.atlas_cache.specs.Walking.{first_entry, keyed, last_entry, IsNext, ShowsOlder};

use crate::cache::TextureCache;
use crate::cache::holding::{look_up, oldest, place_of};
use crate::places::Place;
use atlas_entries::entries::{Entries, Entry};
use std::alloc::Allocator;
use std::hash::{BuildHasher, Hash};

/// The most recently used entry with its number; None if there is none.
pub fn newest<K: Copy + Eq + Hash, S: BuildHasher, A: Allocator + Copy>(
    entries: &Entries<K, S, A>,
) -> Option<(u32, Entry<K>)>
    ensures here { IfSome result (λ found. entry_at found.0 entries.now.entries ≡ Some found.1) }
    ensures first { IfSome result (λ found. first_entry (entries_of entries.now.entries) ≡ Some found.1) }
    ensures rest { IfSome result (λ found. entries_of entries.now.entries
        ≡ found.1 ∷ entries_of (without_number found.0 entries.now.entries)) }
    ensures none { IfNone result (first_entry (entries_of entries.now.entries) ≡ None) }
{
    let Some(number) = entries.newest() else {
        return None;
    };
    Some((number, entries.entry(number)))
}

// The entry that was used next before another one, with its number; None if that is the least recently used.
fn older<K: Copy + Eq + Hash, S: BuildHasher, A: Allocator + Copy>(
    entries: &Entries<K, S, A>,
    number: u32,
) -> Option<(u32, Entry<K>)>
    requires { IsNumber number entries.now.entries }
    ensures here { IfSome result (λ found. entry_at found.0 entries.now.entries ≡ Some found.1) }
    ensures next { IfSome result (λ found. (e : Entry K) → entry_at number entries.now.entries ≡ Some e
        → IsNext e (Some found.1) (entries_of entries.now.entries)) }
    ensures none { IfNone result ((e : Entry K) → entry_at number entries.now.entries ≡ Some e
        → IsNext e None (entries_of entries.now.entries)) }
{
    entries.prove_kept();
    let Some(next) = entries.older(number) else {
        return None;
    };
    Some((next, entries.entry(next)))
}

impl<K: Copy + Eq + Hash, S: BuildHasher, A: Allocator + Copy> TextureCache<K, S, A> {
    /// The most recently used key, and its place; None if there is none. It doesn't count as a use.
    pub fn newest(&self) -> Option<(K, Place)>
        ensures { result ≡ option_map (keyed self.now.options.padding) (first_entry self.now.entries) }
    {
        let Some((_, entry)) = newest(&self.entries) else {
            return None;
        };
        Some((entry.key, place_of(entry, &self.rooms.options())))
    }

    /// The least recently used key, and its place; None if there is none. It doesn't count as a use.
    pub fn oldest(&self) -> Option<(K, Place)>
        ensures { result ≡ option_map (keyed self.now.options.padding) (last_entry self.now.entries) }
    {
        let Some((_, entry)) = oldest(&self.entries) else {
            return None;
        };
        Some((entry.key, place_of(entry, &self.rooms.options())))
    }

    /// The next less recently used key, and its place; None if this one is the least recently used, or isn't
    /// held. It doesn't count as a use. From `newest` on, this gives each key once, in the order of use, with one
    /// look-up each, where `iter` takes none.
    pub fn older(&self, key: &K) -> Option<(K, Place)>
        ensures next { IfSome (entry_for K.eq key.now self.now.entries) (λ e. ShowsOlder e result self.now) }
        ensures none { entry_for K.eq key.now self.now.entries ≡ None → result ≡ None }
    {
        let Some((number, _)) = look_up(&self.entries, key) else {
            return None;
        };
        let Some((_, entry)) = older(&self.entries, number) else {
            return None;
        };
        Some((entry.key, place_of(entry, &self.rooms.options())))
    }
}
