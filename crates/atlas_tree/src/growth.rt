//! Growing the tree of an atlas, by the calls of `store` and `extend`.
ghost use Rattle.std.specs.Prelude.{◌≡◌, ◌<◌, ℕ, false};
ghost use Rattle.atlas_model.specs.Boxes.{IsPositive, Fits, Sides};
ghost use Rattle.atlas_model.specs.Pixels.{sides_of, size_of};
ghost use Rattle.atlas_model.specs.Trees.{is_one_free};
ghost use Rattle.atlas_store.specs.Slots.Numbered.{erase};
ghost use Rattle.atlas_store.specs.Slots.{axis_of};
ghost use Rattle.atlas_store.specs.Stored.{Holding};
ghost use Rattle.atlas_store.specs.Store.Holdings.{shelf_of};
ghost use Rattle.atlas_store.specs.Slots.Growing.{last_slot};
ghost use Rattle.atlas_tree.specs.Plans.Growths.{CanGrow, IsTreeOf, IsGrowthOf, IsLengthenable, IsLonger, IsNeedOf};
ghost use Rattle.atlas_tree.specs.Plans.Growths.{IsOneBox, IsBoxGrown, IsTreeGrown, IsWidenable, IsWidenedTo};
ghost use Rattle.atlas_tree.specs.Plans.Growths.{middle_of};

use atlas_model::{Size, size2};
use atlas_search::cut::Orientation;
use atlas_search::link::{Link, NO_SLOT};
use atlas_store::store::Store;
use std::alloc::Allocator;

/// How an atlas that isn't one free box grows: first along its top sequence, then across it.
#[derive(Clone, Copy)]
pub struct Growth {
    /// The last member of the top sequence, where that grows longer.
    pub last: Link,
    pub from: Size,
    /// The size once the side along the top sequence has grown.
    pub middle: Size,
    pub to: Size,
}

// The last member of the sequence that begins at `first`, found in one pass.
fn last_member<A: Allocator>(store: &Store<A>, first: Link) -> Link
    requires { (h : Holding) × (size : Sides) × IsTreeOf (shelf_of store.now) size first.number h }
    ensures { (h : Holding) (size : Sides) → IsTreeOf (shelf_of store.now) size first.number h
        → last_slot h.tree ≡ result.number }
{
    let mut at = first;
    let mut next = store.node(at).next;
    while next.number != NO_SLOT {
        at = next;
        next = store.node(at).next;
    }
    at
}

// The size `from` with the side along an axis of the size `to`.
fn grown_along(from: Size, to: Size, axis: Orientation) -> Size
    requires from { from ≡ size_of (sides_of from) }
    requires to { to ≡ size_of (sides_of to) }
    ensures { result ≡ size_of (middle_of (axis_of axis) (sides_of from) (sides_of to)) }
{
    match axis {
        Orientation::Horizontal => size2(to.width, from.height),
        Orientation::Vertical => size2(from.width, to.height),
    }
}

/// How an atlas grows whose tree begins at `first`.
pub fn growth_for<A: Allocator>(store: &Store<A>, first: Link, from: Size, to: Size) -> Growth
    requires tree { (h : Holding) × IsTreeOf (shelf_of store.now) (sides_of from) first.number h }
    requires from { from ≡ size_of (sides_of from) }
    requires to { to ≡ size_of (sides_of to) }
    ensures { (h : Holding) → IsTreeOf (shelf_of store.now) (sides_of from) first.number h
        → IsGrowthOf (sides_of from) (sides_of to) h result }
{
    let middle = grown_along(from, to, store.node(first).axis);
    let last = if middle == from {
        first
    } else {
        last_member(store, first)
    };
    Growth {
        last,
        from,
        middle,
        to,
    }
}

/// How many slots a growth takes.
pub fn slots_for<A: Allocator>(store: &Store<A>, growth: Growth) -> u32
    requires tree { (h : Holding) × (first : ℕ) × IsTreeOf (shelf_of store.now) (sides_of growth.from) first h
        × IsGrowthOf (sides_of growth.from) (sides_of growth.to) h growth }
    requires fits { Fits (sides_of growth.from) (sides_of growth.to) }
    ensures need { (h : Holding) (first : ℕ) → IsTreeOf (shelf_of store.now) (sides_of growth.from) first h
        → IsGrowthOf (sides_of growth.from) (sides_of growth.to) h growth
        → is_one_free (erase h.tree) ≡ false → IsNeedOf (sides_of growth.from) (sides_of growth.to) h result }
    ensures few { result < 4 }
{
    let has_strip = growth.middle != growth.from && !store.is_free(growth.last);
    let strip = if has_strip { 1 } else { 0 };
    let top = if growth.middle != growth.to { 2 } else { 0 };
    strip + top
}

// The top sequence, whose last member this is, grows to a size that is d longer: a free last member is enlarged, and
// else a free strip is appended.
fn lengthen<A: Allocator>(store: &mut Store<A>, last: Link, size: Size)
    requires ready { (h : Holding) × (d : ℕ) × (n : ℕ) × IsLengthenable store.old (sides_of size) last.number d n h }
    requires exact { size ≡ size_of (sides_of size) }
    ensures { IsLonger store.old store.new (sides_of size) last.number }
{
    if store.is_free(last) {
        store.unlist(last);
        store.stretch(last, size);
        store.list(last);
    } else {
        let strip = store.append(last, size);
        store.list(strip);
    }
}

// The top sequence, which spans `inner`, becomes the first of two members, and a free strip the second: together they
// span `size`. The answer is the slot of the first.
fn widen<A: Allocator>(store: &mut Store<A>, first: Link, inner: Size, size: Size) -> Link
    requires ready { (h : Holding) × (d : ℕ) × IsWidenable store.old (sides_of inner) (sides_of size) first.number d h }
    requires inner { inner ≡ size_of (sides_of inner) }
    requires exact { size ≡ size_of (sides_of size) }
    ensures { IsWidenedTo store.old store.new (sides_of inner) (sides_of size) first.number result.number }
{
    let (top, strip) = store.nest(first, inner, size);
    store.list(strip);
    top
}

/// Carries out a growth of the tree that begins at `first`, for which there are slots. The answer is the slot at which
/// the tree begins then. One pass along the top sequence where that is put into a new one.
pub fn grow_tree<A: Allocator>(store: &mut Store<A>, first: Link, growth: Growth) -> Link
    requires { CanGrow store.old first.number growth }
    ensures { IsTreeGrown store.old store.new first.number result.number growth }
{
    if growth.middle != growth.from {
        lengthen(store, growth.last, growth.middle);
    }
    if growth.to == growth.middle {
        return first;
    }
    widen(store, first, growth.middle, growth.to)
}

/// Enlarges the one free box of an atlas that has no other. Takes no slots.
pub fn grow_whole<A: Allocator>(store: &mut Store<A>, at: Link, size: Size)
    requires tree { IsOneBox store.old at.number }
    requires positive { IsPositive (sides_of size) }
    requires exact { size ≡ size_of (sides_of size) }
    ensures { IsBoxGrown store.old store.new (sides_of size) at.number }
{
    store.unlist(at);
    store.stretch_whole(at, size);
    store.list(at);
}
