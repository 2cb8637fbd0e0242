//! What is read of a store: its slots, its options and its allocator; and a test of ids by its slots.
ghost use Rattle.std.specs.Prelude.{◌≡◌, ◌↔◌, IsTrue};
ghost use Rattle.atlas_store.specs.Batches.{AreNamedOnce};
ghost use Rattle.atlas_store.specs.Slots.{nodes};

use crate::slots::{self, Slot};
use crate::store::Store;
use atlas_model::{AllocId, AllocatorOptions};
use atlas_search::bands::Scale;
use std::alloc::Allocator;

impl<A: Allocator> Store<A> {
    ghost use Rattle.atlas_store.specs.Store.Holdings.{capacity_in, shelf_of, turns_in};

    /// The slots, by their numbers.
    pub fn slots(&self) -> &[Slot]
        ensures { result.now ≡ (shelf_of self.now).slots }
    {
        &self.slots
    }

    /// The options.
    pub fn options(&self) -> AllocatorOptions
        ensures { result ≡ (shelf_of self.now).options }
    {
        self.options.plain()
    }

    /// The options as a search reads them.
    pub fn scale(&self) -> Scale
        ensures { result ≡ (shelf_of self.now).options }
    {
        self.options.copy()
    }

    /// The allocator that memory for slots comes from.
    pub fn allocator(&self) -> A
    where
        A: Copy,
    {
        *self.slots.allocator()
    }

    /// Whether each of these ids names an allocated slot, and none is there twice. What is stored is the same then.
    pub fn are_named_once(&mut self, ids: &[AllocId]) -> bool
        ensures named { IsTrue result ↔ AreNamedOnce (nodes (shelf_of self.old).slots) ids.now }
        ensures shelf { shelf_of self.new ≡ shelf_of self.old }
        ensures capacity { capacity_in self.new ≡ capacity_in self.old }
        ensures turns { turns_in self.new ≡ turns_in self.old }
    {
        slots::batch::are_named_once(&mut self.slots, ids)
    }
}
