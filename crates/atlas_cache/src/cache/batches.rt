//! The end of a batch: what was drawn last makes room, though the frame goes on.
ghost use Rattle.std.specs.Prelude.{◌≡◌, ◌+◌, ◌≤◌, [], false, length, IsOk, IsOkUnless, IsTrue, OnErr, OnOk};
ghost use Rattle.std.specs.Prelude.{vec_capacity, vec_len};
ghost use Rattle.atlas_cache.specs.Batches.{DropsFirst, EndsBatch};
ghost use Rattle.atlas_cache.specs.Clearing.{TellsChanges};
ghost use Rattle.atlas_cache.specs.Reserving.{KeepsReady};

use crate::cache::TextureCache;
use crate::cache::holding::{place_of, take_out};
use crate::cache::walking::newest;
use crate::changes::{CacheChange, Changes};
use crate::counts::count;
use atlas_entries::error::CacheError;
use std::alloc::Allocator;
use std::hash::{BuildHasher, Hash};

impl<K: Copy + Eq + Hash, S: BuildHasher, A: Allocator + Copy> TextureCache<K, S, A> {
    /// Ends a batch, which was drawn, where the frame has no room for what comes next in it: this many of the most recently used
    /// entries go, all if there are no more, and no others. Each is added to the changes as `Evicted`, the most recently used first. The
    /// frame goes on: `insert` evicts nothing of what is left that it used, and `trim` counts it once. The list of changes is asked for
    /// room for as many as there are entries; with `Memory`, if that is refused, nothing changes. Takes a freeing for each key that goes.
    pub fn end_batch(&mut self, keys: usize, changes: &mut Changes<K, A>) -> Result<(), CacheError>
        ensures ends { OnOk result (EndsBatch keys changes.old.items changes.new.items self.old self.new) }
        ensures told { TellsChanges K.eq changes.old.items changes.new.items self.old self.new }
        ensures refused { OnErr result ((self.new ≡ self.old) × (changes.new.items ≡ changes.old.items)) }
        ensures unless { IsOkUnless result CacheError.Memory }
        ensures room { vec_len changes.old + length self.old.entries ≤ vec_capacity changes.old → IsOk result }
        ensures capacity { vec_capacity changes.old ≤ vec_capacity changes.new }
        ensures stays_ready { KeepsReady self.old self.new }
    {
        changes.reserve(self.entries.len())?;
        self.drop_used(keys, changes);
        Ok(())
    }

    // So many of the most recently used entries go.
    fn drop_used(&mut self, keys: usize, changes: &mut Changes<K, A>)
        requires { vec_len changes.old + length self.old.entries ≤ vec_capacity changes.old }
        ensures ends { EndsBatch keys changes.old.items changes.new.items self.old self.new }
        ensures told { TellsChanges K.eq changes.old.items changes.new.items self.old self.new }
        ensures capacity { vec_capacity changes.old ≤ vec_capacity changes.new }
    {
        self.entries.prove_kept();
        for dropped in 0..keys {
            if !self.drop_first(changes) {
                return;
            }
        }
    }

    // The most recently used entry goes; whether there was one.
    fn drop_first(&mut self, changes: &mut Changes<K, A>) -> bool
        requires { vec_len changes.old + length self.old.entries ≤ vec_capacity changes.old }
        ensures drops { IsTrue result → DropsFirst changes.old.items changes.new.items self.old self.new }
        ensures room { vec_len changes.new + length self.new.entries ≤ vec_capacity changes.new }
        ensures capacity { vec_capacity changes.old ≤ vec_capacity changes.new }
        ensures stops { result ≡ false → self.old.entries ≡ [] }
        ensures stays { result ≡ false → (self.new ≡ self.old) × (changes.new.items ≡ changes.old.items) }
    {
        let Some((number, entry)) = newest(&self.entries) else {
            return false;
        };
        take_out(&mut self.rooms, &mut self.entries, number, entry);
        self.counts.evictions = count(self.counts.evictions);
        let place = place_of(entry, &self.rooms.options());
        let key = entry.key;
        changes.push_reserved(CacheChange::Evicted { key, place });
        true
    }
}
