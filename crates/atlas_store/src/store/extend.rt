//! The calls of a store by which the top sequence of an atlas is extended.
ghost use Rattle.std.specs.Prelude.{◌≡◌, ℕ};
ghost use Rattle.atlas_model.specs.Boxes.{IsPositive};
ghost use Rattle.atlas_model.specs.Pixels.{sides_of, size_of};
ghost use Rattle.atlas_store.specs.Stored.{Holding};
ghost use Rattle.atlas_store.specs.Slots.Growing.{IsEnd, IsLone};

use crate::slots::extending::{append_leaf, nest_top, stretch_leaf};
use crate::store::Store;
use atlas_model::Size;
use atlas_search::link::Link;
use std::alloc::Allocator;

impl<A: Allocator> Store<A> {
    ghost use Rattle.atlas_store.specs.Store.Holdings.{shelf_of, HasSlotsFor, IsDetachedLeaf};
    ghost use Rattle.atlas_store.specs.Store.TopCalls.{IsAppended, IsEnlarged, IsExtendable};
    ghost use Rattle.atlas_store.specs.Store.TopCalls.{IsNestable, IsNested, IsStretched};

    /// A detached leaf, the last member of the top sequence, reaches to the far corner of a size.
    pub fn stretch(&mut self, at: Link, size: Size)
        requires ready { (h : Holding) × (d : ℕ) × IsDetachedLeaf (shelf_of self.old) at.number h
            × IsEnd (sides_of size) d at.number h }
        requires exact { size ≡ size_of (sides_of size) }
        ensures { IsStretched self.old self.new (sides_of size) at.number }
    {
        stretch_leaf(&mut self.slots, at, size);
    }

    /// A detached leaf, the only member of the tree, becomes as large as a size.
    pub fn stretch_whole(&mut self, at: Link, size: Size)
        requires ready { (h : Holding) × IsDetachedLeaf (shelf_of self.old) at.number h × IsLone at.number h }
        requires positive { IsPositive (sides_of size) }
        requires exact { size ≡ size_of (sides_of size) }
        ensures { IsEnlarged self.old self.new (sides_of size) at.number }
    {
        stretch_leaf(&mut self.slots, at, size);
    }

    /// The slot that is returned takes a free leaf after the last member of the top sequence, which reaches to the far
    /// corner of a size. It is detached.
    pub fn append(&mut self, last: Link, size: Size) -> Link
        requires ready { (h : Holding) × (d : ℕ) × IsExtendable (shelf_of self.old) (sides_of size) last.number d h
            × HasSlotsFor 1 self.old h }
        requires exact { size ≡ size_of (sides_of size) }
        ensures { IsAppended self.old self.new (sides_of size) last.number result.number }
    {
        let fresh = self.take();
        append_leaf(&mut self.slots, last, fresh, size);
        fresh
    }

    /// The top sequence, which begins at `first` and spans the size `inner`, is put into a new one along the other
    /// axis, and a free leaf after it reaches to the far corner of `size`. The answer is the slot that holds the old
    /// sequence, and that of the leaf, which is taken before it and is detached. One pass along the old sequence.
    pub fn nest(&mut self, first: Link, inner: Size, size: Size) -> (Link, Link)
        requires ready { (h : Holding) × (d : ℕ)
            × IsNestable (shelf_of self.old) (sides_of inner) (sides_of size) first.number d h
            × HasSlotsFor 2 self.old h }
        requires inner { inner ≡ size_of (sides_of inner) }
        requires exact { size ≡ size_of (sides_of size) }
        ensures { IsNested self.old self.new (sides_of inner) (sides_of size) first.number result.0.number
            result.1.number }
    {
        let strip = self.take();
        let container = self.take();
        nest_top(&mut self.slots, first, container, strip, inner, size);
        (container, strip)
    }
}
