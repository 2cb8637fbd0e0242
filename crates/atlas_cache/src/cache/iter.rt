//! The keys of a cache with their places, one after another.
ghost use Rattle.std.specs.Prelude.{◌≡◌};
ghost use Rattle.std.specs.Iterator.{YieldsFirst, item_count};
ghost use Rattle.atlas_cache.specs.Walking.{keyed_entries};

use crate::cache::TextureCache;
use crate::cache::holding::place_of;
use crate::options::CacheOptions;
use crate::places::Place;
use atlas_entries::entries::{DefaultHasher, Entries};
use std::alloc::{Allocator, Global};
use std::hash::{BuildHasher, Hash};
use std::iter::FusedIterator;
use std::marker::Model;

/// The keys of a cache with their places, the most recently used first. A step takes no look-up by a hash, and doesn't
/// count as a use. Contracts see the list of what is still to come.
#[derive(Drop)]
pub struct Iter<
    'a,
    K: Copy + Eq + Hash,
    S: BuildHasher = DefaultHasher,
    A: Allocator + Copy = Global,
> {
    entries: &'a Entries<K, S, A>,
    options: CacheOptions,
    // The number of the entry that comes next.
    next: Option<u32>,
    left: usize,
}

impl<'a, K: Copy + Eq + Hash, S: BuildHasher, A: Allocator + Copy> Model for Iter<'a, K, S, A> {
    ghost use Rattle.std.specs.Prelude.{List, map};
    ghost use Rattle.atlas_cache.specs.declared.places.Place.{Place};
    ghost use Rattle.atlas_cache.specs.Caches.{entries_of, AreBordered};
    ghost use Rattle.atlas_cache.specs.Walking.{keyed, oldest_entries, AreToCome};

    ghost Value = { List (K × Place) };

    ghost view = { λ i. map (keyed i.options.padding) (entries_of (oldest_entries i.left i.entries.now.entries)) };

    ghost invariant = { λ i. AreToCome i.next i.left i.entries.now.entries
        × AreBordered i.options.padding (entries_of i.entries.now.entries) };
}

impl<'a, K: Copy + Eq + Hash, S: BuildHasher, A: Allocator + Copy> Iter<'a, K, S, A> {
    /// A second one, which gives the same from here on. Takes no memory.
    pub fn copy(&self) -> Self
        ensures { result ≡ self.now }
    {
        Iter {
            entries: self.entries,
            options: self.options,
            next: self.next,
            left: self.left,
        }
    }
}

impl<'a, K: Copy + Eq + Hash, S: BuildHasher, A: Allocator + Copy> Iterator for Iter<'a, K, S, A> {
    type Item = (K, Place);

    ghost next_gives = { YieldsFirst (λ rest. rest) };

    ghost remaining = { item_count (λ rest. rest) };

    fn next(&mut self) -> Option<(K, Place)> {
        self.entries.prove_kept();
        let Some(number) = self.next else {
            return None;
        };
        let entry = self.entries.entry(number);
        let place = place_of(entry, &self.options);
        self.next = self.entries.older(number);
        self.left -= 1;
        Some((entry.key, place))
    }

    fn size_hint(&self) -> (usize, Option<usize>) {
        let left = self.len();
        (left, Some(left))
    }
}

impl<'a, K: Copy + Eq + Hash, S: BuildHasher, A: Allocator + Copy> ExactSizeIterator
    for Iter<'a, K, S, A> {
    fn len(&self) -> usize {
        self.left
    }
}

impl<'a, K: Copy + Eq + Hash, S: BuildHasher, A: Allocator + Copy> FusedIterator
    for Iter<'a, K, S, A> {}

impl<K: Copy + Eq + Hash, S: BuildHasher, A: Allocator + Copy> TextureCache<K, S, A> {
    /// The keys with their places, the most recently used first. A step takes no look-up by a hash, and doesn't count as
    /// a use.
    pub fn iter(&self) -> Iter<'_, K, S, A>
        ensures { result ≡ keyed_entries self.now }
    {
        Iter {
            entries: &self.entries,
            options: self.rooms.options(),
            next: self.entries.newest(),
            left: self.entries.len(),
        }
    }
}

impl<'a, K: Copy + Eq + Hash, S: BuildHasher, A: Allocator + Copy> IntoIterator
    for &'a TextureCache<K, S, A> {
    type Item = (K, Place);

    type IntoIter = Iter<'a, K, S, A>;

    ghost into_iter_gives = { λ cache it. it ≡ keyed_entries cache.now };

    fn into_iter(self) -> Iter<'a, K, S, A> {
        self.iter()
    }
}
