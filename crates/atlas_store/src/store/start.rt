//! The start of an atlas: one free slot, as large as the atlas. And a store that takes another's place.
ghost use Rattle.std.specs.Prelude.{◌≡◌, ◌<◌, IfOk};
ghost use Rattle.atlas_model.specs.Boxes.{IsPositive};
ghost use Rattle.atlas_model.specs.Choice.{AreValid};
ghost use Rattle.atlas_model.specs.Pixels.{sides_of, options_of};
ghost use Rattle.atlas_store.specs.Store.Starts.{IsBegun, IsStarted, one_free_slot};

use crate::slots::lists::Recent;
use crate::slots::{NodeKind, Slot};
use crate::store::Store;
use crate::store::turns::Turns;
use atlas_model::{AllocatorOptions, Rectangle, Size};
use atlas_search::bands::Scale;
use atlas_search::cut::Orientation;
use atlas_search::link::Link;
use atlas_search::table::Table;
use std::alloc::{AllocError, Allocator};

// The one slot of an atlas of this size.
fn whole_slot(size: Size) -> Slot
    ensures { result ≡ one_free_slot size }
{
    let none = Link::NONE;
    Slot {
        parent: none,
        previous: none,
        next: none,
        area: Rectangle::from(size),
        up: none,
        left: none,
        right: none,
        kind: NodeKind::Free,
        axis: Orientation::Vertical,
        generation: 0,
        is_fork: false,
    }
}

impl<A: Allocator> Store<A> {
    ghost use Rattle.atlas_store.specs.Store.Holdings.{capacity_in, shelf_of, turns_in};

    /// One free slot of this size, in its list, and no other slot.
    pub fn new(alloc: A, size: Size, options: &AllocatorOptions) -> Result<Store<A>, AllocError>
    where
        A: Copy,
        requires size { IsPositive (sides_of size) }
        requires options { AreValid (options_of options.now) }
        ensures begun { IfOk result (λ it. IsBegun it size options.now) }
        ensures turns { IfOk result (λ it. (turns_in it).count ≡ 0) }
    {
        let mut store = Store {
            slots: Vec::with_capacity(alloc, 1)?,
            lists: Table::new(alloc),
            unused: Link::NONE,
            options: Scale::new(options),
            turns: Turns::new(),
            recent: Recent::NONE,
        };
        store.start(size, options);
        Ok(store)
    }

    /// One free slot of this size, in its list, and no other slot. Takes no memory.
    pub fn start(&mut self, size: Size, options: &AllocatorOptions)
        requires room { 0 < capacity_in self.old }
        requires size { IsPositive (sides_of size) }
        requires options { AreValid (options_of options.now) }
        ensures { IsStarted self.old self.new size options.now }
    {
        self.slots.clear();
        self.slots.push_reserved(whole_slot(size));
        self.lists.clear();
        self.unused = Link::NONE;
        self.recent = Recent::NONE;
        self.options.set(options);
        self.list(Link { number: 0 });
    }

    /// Holds what another store holds, in the memory of that one. The turns stay.
    pub fn replace(&mut self, other: Store<A>)
        ensures shelf { shelf_of self.new ≡ shelf_of other }
        ensures capacity { capacity_in self.new ≡ capacity_in other }
        ensures turns { turns_in self.new ≡ turns_in self.old }
    {
        self.slots = other.slots;
        self.lists = other.lists;
        self.unused = other.unused;
        self.options = other.options;
        self.recent = other.recent;
    }
}
