//! Pages that are given back.
ghost use Rattle.std.specs.Prelude.{◌≡◌, ◌+◌, ◌≤◌, false, length, IsOk, IsOkUnless, IsTrue, OnErr, OnOk};
ghost use Rattle.std.specs.Prelude.{vec_capacity, vec_len};
ghost use Rattle.atlas_cache.specs.Clearing.{TellsChanges};
ghost use Rattle.atlas_cache.specs.Shrinking.{DropsPage, IsLastInUse, Shrinks};

use crate::cache::TextureCache;
use crate::changes::{CacheChange, Changes};
use atlas_entries::error::CacheError;
use std::alloc::Allocator;
use std::hash::{BuildHasher, Hash};

impl<K: Copy + Eq + Hash, S: BuildHasher, A: Allocator + Copy> TextureCache<K, S, A> {
    /// Removes the pages after the last one with an entry, and adds each to the changes as `PageRemoved`, the last page
    /// first. The others stay, with their sizes, and so do all entries: a page that others follow stays, though it has
    /// nothing on it. After `clear` all pages go. Entries in reserve stay; a page that goes takes its slots in reserve along,
    /// and one that is added later has none. The list of changes is asked for room for as many as there are pages;
    /// with `Memory`, if that is refused, nothing changes.
    pub fn shrink(&mut self, changes: &mut Changes<K, A>) -> Result<(), CacheError>
        ensures shrinks { OnOk result (Shrinks changes.old.items changes.new.items self.old self.new) }
        ensures told { TellsChanges K.eq changes.old.items changes.new.items self.old self.new }
        ensures refused { OnErr result ((self.new ≡ self.old) × (changes.new.items ≡ changes.old.items)) }
        ensures unless { IsOkUnless result CacheError.Memory }
        ensures room { vec_len changes.old + length self.old.pages ≤ vec_capacity changes.old → IsOk result }
        ensures capacity { vec_capacity changes.old ≤ vec_capacity changes.new }
    {
        changes.reserve(self.rooms.len() as usize)?;
        self.drop_pages(changes);
        Ok(())
    }

    // The pages behind the last one with an entry go.
    fn drop_pages(&mut self, changes: &mut Changes<K, A>)
        requires { vec_len changes.old + length self.old.pages ≤ vec_capacity changes.old }
        ensures shrinks { Shrinks changes.old.items changes.new.items self.old self.new }
        ensures told { TellsChanges K.eq changes.old.items changes.new.items self.old self.new }
        ensures capacity { vec_capacity changes.old ≤ vec_capacity changes.new }
    {
        'each: loop {
            if !self.drop_page(changes) {
                self.prove_kept();
                return;
            }
        }
    }

    // The last page goes, if nothing is live on it; whether it did.
    fn drop_page(&mut self, changes: &mut Changes<K, A>) -> bool
        requires { vec_len changes.old + length self.old.pages ≤ vec_capacity changes.old }
        ensures drops { IsTrue result → DropsPage changes.old.items changes.new.items self.old self.new }
        ensures room { vec_len changes.new + length self.new.pages ≤ vec_capacity changes.new }
        ensures capacity { vec_capacity changes.old ≤ vec_capacity changes.new }
        ensures stops { result ≡ false → IsLastInUse self.old.pages }
        ensures stays { result ≡ false → (self.new ≡ self.old) × (changes.new.items ≡ changes.old.items) }
    {
        let Some(page) = self.rooms.remove_page() else {
            return false;
        };
        changes.push_reserved(CacheChange::PageRemoved { page });
        true
    }
}
