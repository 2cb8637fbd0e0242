//! The live and the free rectangles, one after another, without a list.
ghost use Rattle.std.specs.Prelude.{◌≡◌, ◌+◌, ◌<◌, ◌∷◌, [], drop, length, slice_index_or, All, IfNone, IfSome};
ghost use Rattle.std.specs.Iterator.{YieldsFirst, item_count};
ghost use Rattle.atlas_model.specs.Pixels.{IsMeasurable};
ghost use Rattle.atlas_store.specs.Slots.{blank_slot, node_of, nodes};
ghost use Rattle.atlas_store.specs.Stored.{state_of};
ghost use Rattle.atlas_store.specs.Visits.{AreFreeAreas, AreGrants, allocated_from, allocation_at, free_areas};

use crate::atlas::AtlasAllocator;
use atlas_model::{Allocation, MOST_SLOTS, Rectangle};
use atlas_store::slots::walks::slot_id;
use atlas_store::slots::{NodeKind, Slot};
use std::alloc::Allocator;
use std::iter::FusedIterator;
use std::marker::Model;

// The first free slot from this number on.
fn free_from(slots: &[Slot], from: usize) -> Option<usize>
    ensures inside { IfSome result (λ at. at < length slots.now) }
    ensures found { IfSome result (λ at. free_areas (nodes (drop from slots.now))
        ≡ (slice_index_or slots.now at blank_slot).area ∷ free_areas (nodes (drop (at + 1) slots.now))) }
    ensures none { IfNone result (free_areas (nodes (drop from slots.now)) ≡ []) }
{
    for at in from..slots.len() {
        if slots[at].kind == NodeKind::Free {
            return Some(at);
        }
    }
    None
}

// The first allocated slot from this number on.
fn live_from(slots: &[Slot], from: usize) -> Option<usize>
    ensures inside { IfSome result (λ at. at < length slots.now) }
    ensures found { IfSome result (λ at. allocated_from from (nodes (drop from slots.now))
        ≡ allocation_at at (node_of (slice_index_or slots.now at blank_slot)) ∷ allocated_from (at + 1) (nodes (drop (at + 1) slots.now))) }
    ensures none { IfNone result (allocated_from from (nodes (drop from slots.now)) ≡ []) }
{
    for at in from..slots.len() {
        if slots[at].kind == NodeKind::Alloc {
            return Some(at);
        }
    }
    None
}

/// The live rectangles of an atlas with their ids, by rising number of the slot. Contracts see the list of what is still to come. A
/// step passes the slots up to the next live one, and takes no memory.
#[derive(Drop)]
pub struct LiveIter<'a> {
    slots: &'a [Slot],
    // The number of the slot that comes next.
    next: usize,
}

/// The free rectangles of an atlas, in an order that is left open. Contracts see the list of what is still to come. A step passes the
/// slots up to the next free one, and takes no memory.
#[derive(Drop)]
pub struct FreeIter<'a> {
    slots: &'a [Slot],
    // The number of the slot that comes next.
    next: usize,
}

impl<'a> Model for LiveIter<'a> {
    ghost use Rattle.std.specs.Prelude.{List, ◌≤◌, drop, length};
    ghost use Rattle.atlas_model.specs.declared.allocation.Allocation.{Allocation};
    ghost use Rattle.atlas_store.specs.Slots.{nodes};
    ghost use Rattle.atlas_store.specs.Visits.{allocated_from};

    ghost Value = { List Allocation };

    ghost view = { λ i. allocated_from i.next (nodes (drop i.next i.slots.now)) };

    ghost invariant = { λ i. length i.slots.now ≤ 16777216 };
}

impl<'a> Model for FreeIter<'a> {
    ghost use Rattle.std.specs.Prelude.{List, drop};
    ghost use Rattle.atlas_model.specs.declared.geometry.Rectangle.{Rectangle};
    ghost use Rattle.atlas_store.specs.Slots.{nodes};
    ghost use Rattle.atlas_store.specs.Visits.{free_areas};

    ghost Value = { List Rectangle };

    ghost view = { λ i. free_areas (nodes (drop i.next i.slots.now)) };
}

impl<'a> LiveIter<'a> {
    /// A second one, which gives the same from here on. Takes no memory.
    pub fn copy(&self) -> Self
        ensures { result ≡ self.now }
    {
        let next = self.next;
        LiveIter {
            slots: self.slots,
            next,
        }
    }
}

impl<'a> FreeIter<'a> {
    /// A second one, which gives the same from here on. Takes no memory.
    pub fn copy(&self) -> Self
        ensures { result ≡ self.now }
    {
        FreeIter {
            slots: self.slots,
            next: self.next,
        }
    }
}

impl<'a> Iterator for LiveIter<'a> {
    type Item = Allocation;

    ghost next_gives = { YieldsFirst (λ rest. rest) };

    ghost remaining = { item_count (λ rest. rest) };

    fn next(&mut self) -> Option<Allocation> {
        let Some(at) = live_from(self.slots, self.next) else {
            return None;
        };
        self.next = at + 1;
        let slot = &self.slots[at];
        Some(Allocation {
            id: slot_id(at, slot.generation),
            rectangle: slot.area,
        })
    }
}

impl<'a> Iterator for FreeIter<'a> {
    type Item = Rectangle;

    ghost next_gives = { YieldsFirst (λ rest. rest) };

    ghost remaining = { item_count (λ rest. rest) };

    fn next(&mut self) -> Option<Rectangle> {
        let Some(at) = free_from(self.slots, self.next) else {
            return None;
        };
        self.next = at + 1;
        Some(self.slots[at].area)
    }
}

impl<'a> FusedIterator for LiveIter<'a> {}

impl<'a> FusedIterator for FreeIter<'a> {}

impl<A: Allocator + Copy> AtlasAllocator<A> {
    /// The live ids with their rectangles, by rising number of the slot, one after another. A walk to the end is one pass over the
    /// slots, and takes no memory.
    pub fn iter(&self) -> LiveIter<'_>
        ensures list { AreGrants (state_of self.now) result }
        ensures measurable { All (λ a. IsMeasurable a.rectangle) result }
    {
        let next = 0;
        LiveIter {
            slots: self.store.slots(),
            next,
        }
    }

    /// The free rectangles, in an order that is left open, one after another. A walk to the end is one pass over the slots, and
    /// takes no memory.
    pub fn free_iter(&self) -> FreeIter<'_>
        ensures list { AreFreeAreas (state_of self.now) result }
        ensures measurable { All IsMeasurable result }
    {
        let first = 0;
        FreeIter {
            slots: self.store.slots(),
            next: first,
        }
    }
}

impl<'a, A: Allocator + Copy> IntoIterator for &'a AtlasAllocator<A> {
    type Item = Allocation;

    type IntoIter = LiveIter<'a>;

    ghost into_iter_gives = { λ atlas it. AreGrants (state_of atlas.now) it };

    fn into_iter(self) -> LiveIter<'a> {
        self.iter()
    }
}
