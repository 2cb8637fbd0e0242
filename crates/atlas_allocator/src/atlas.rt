//! The atlas allocator.
ghost use Rattle.std.specs.Prelude.{◌≡◌, ◌≤◌, ◌<◌, ◌+◌, ◌-◌, ◌*◌, ◌↔◌, [], IsTrue, IfErr, IfOk, IfSome, OnErr};
ghost use Rattle.std.specs.Prelude.{IsOkUnless, OnOk, length, IsSome, option_map, None, Some, Ok, All, map};
ghost use Rattle.std.specs.Prelude.{◌≢◌, ◌⊎◌, Err};
ghost use Rattle.atlas_model.specs.Boxes.{area, Fits, IsPositive, IsWithin};
ghost use Rattle.atlas_model.specs.Choice.{rounded, AreValid};
ghost use Rattle.atlas_model.specs.Pixels.{sides_of, size_of, options_of, rectangle_of, box_of};
ghost use Rattle.atlas_model.specs.States.{live_in, used_in, started, after_freeing, IsSound, IsLive};
ghost use Rattle.atlas_store.specs.Visits.{AreFreeAreas, free_areas};
ghost use Rattle.atlas_store.specs.Slots.{nodes};
ghost use Rattle.atlas_store.specs.Stored.{state_of};
ghost use Rattle.atlas_store.specs.Store.Holdings.{shelf_of};
ghost use Rattle.atlas_model.specs.Changes.{only};
ghost use Rattle.atlas_model.specs.Laws.TreeLaws.{is_among};
ghost use Rattle.atlas_store.specs.Batches.{AreLiveOnce};
ghost use Rattle.atlas_model.specs.Laws.RunLaws.{IsTiled};
ghost use Rattle.atlas_model.specs.Steps.{Step};
ghost use Rattle.atlas_model.specs.Steps.AtlasCall.{Allocate, Deallocate, Grow, Clear, Reset, Rearrange};
ghost use Rattle.atlas_model.specs.Steps.AtlasCall.{ResizeAndRearrange};
ghost use Rattle.atlas_model.specs.Steps.AtlasReply.{Done};

pub mod image;
pub mod iter;
pub mod queries;
pub mod rearranging;
pub mod rehearsing;
pub mod requesting;
pub mod reserving;
pub mod room;
pub mod walks;

use crate::atlas::rearranging::{refit, sort_for_refit};
use atlas_model::{
    AllocId, Allocation, AllocatorOptions, AtlasError, ChangeList, DEFAULT_OPTIONS, MOST_SLOTS,
    Rectangle, Size, SlotCount,
};
use atlas_search::link::{Link, NO_SLOT};
use atlas_store::slots::NodeKind;
use atlas_store::slots::walks::{named_slot, slot_number};
use atlas_store::store::Store;
use atlas_tree::freeing::free_leaf;
use atlas_tree::growth::{grow_tree, grow_whole, growth_for, slots_for};
use std::alloc::{Allocator, Global};
use std::marker::Model;
use std::ops::Index;

/// Hands out rectangles inside one large rectangle, the atlas, takes them back and joins free space at once.
///
/// The atlas is a tree of cuts (docs/MODEL.md, "Trees of cuts"): its allocated and free rectangles are the leaves, and
/// tile it. Freeing takes no memory; allocating and growing take it only if more slots are used than at any time since the
/// last start, and never for slots that `reserve` made ready. A new atlas takes 44 bytes on the heap, for its one slot;
/// for a second one there are 352, for eight, and the memory for a ninth one comes with 11,656 for the table of its lists of
/// free rectangles, once.
#[derive(Drop)]
pub struct AtlasAllocator<A: Allocator + Copy = Global> {
    store: Store<A>,
    first: Link,
    used: u32,
    size: Size,
    limit: u32,
}

impl<A: Allocator + Copy> Model for AtlasAllocator<A> {
    ghost use Rattle.atlas_store.specs.Stored.{AtlasValue, IsAtlas};
    ghost use Rattle.atlas_store.specs.Store.Holdings.{capacity_in, shelf_of, turns_in};

    ghost Value = { AtlasValue };

    ghost view = { λ a. record {
      stored = record { shelf = shelf_of a.store; first = a.first; used = a.used; size = a.size; limit = a.limit };
      turns = (turns_in a.store).count;
      capacity = capacity_in a.store;
    } };

    ghost invariant = { λ a. IsAtlas
        (record { shelf = shelf_of a.store; first = a.first; used = a.used; size = a.size; limit = a.limit }) };
}

impl<A: Allocator + Copy> AtlasAllocator<A> {
    ghost use Rattle.atlas_store.specs.Stored.{state_of};
    ghost use Rattle.atlas_store.specs.Generations.{AreFirstGenerations};
    ghost use Rattle.atlas_store.specs.Reserves.{HasReserve, UsesAtMost};
    ghost use Rattle.atlas_model.specs.Replies.{allocate_reply, done_reply, grant_of, live_box, IsExact};
    ghost use Rattle.atlas_model.specs.Rearranging.{change_reply, rearrangement_of, AreExactChanges, KeepsSides};
    ghost use Rattle.atlas_model.specs.Laws.StepLaws.{IsRearrangingStep};
    ghost use Rattle.atlas_model.specs.Refits.{IsRefitOrder};
    ghost use Rattle.atlas_model.specs.Refits.Refitted.{HasExactRectangle};
    ghost use Rattle.atlas_model.specs.Callers.{AreGuarded, KeepsLive, AddsBox, JoinsGuarded, LeavesNoBox};
    ghost use Rattle.atlas_model.specs.Callers.{LeavesNoBoxes, KeepsAll, AllLieApart, AllLieWithin};
    ghost use Rattle.atlas_model.specs.Callers.{HasFrame, IsAnswer, IsShortage, KeepsFrame, LiesWithin};

    /// An atlas of this size, in pixels, with the default options: one free rectangle. Requires a size that isn't empty.
    /// `Memory` is the only error.
    pub fn new(alloc: A, size: Size) -> Result<Self, AtlasError>
        requires { IsPositive (sides_of size) }
        ensures unless { IsOkUnless result AtlasError.Memory }
        ensures state { IfOk result
            (λ it. state_of it ≡ started (sides_of size) (options_of DEFAULT_OPTIONS) MOST_SLOTS) }
        ensures anew { IfOk result AreFirstGenerations }
        ensures turns { IfOk result (λ it. it.turns ≡ 0) }
        ensures sound { IfOk result (λ it. IsSound (state_of it)) }
    {
        AtlasAllocator::with_options(alloc, size, &DEFAULT_OPTIONS)
    }

    /// An atlas of this size, in pixels, with these options: one free rectangle. Requires a size that isn't empty and valid options.
    pub fn with_options(
        alloc: A,
        size: Size,
        options: &AllocatorOptions,
    ) -> Result<Self, AtlasError>
        requires size { IsPositive (sides_of size) }
        requires options { AreValid (options_of options.now) }
        ensures unless { IsOkUnless result AtlasError.Memory }
        ensures state { IfOk result (λ it. state_of it ≡ started (sides_of size) (options_of options.now) MOST_SLOTS) }
        ensures anew { IfOk result AreFirstGenerations }
        ensures turns { IfOk result (λ it. it.turns ≡ 0) }
        ensures sound { IfOk result (λ it. IsSound (state_of it)) }
    {
        AtlasAllocator::with_slot_limit(alloc, size, options, MOST_SLOTS)
    }

    /// An atlas of this size with these options, and a limit on the slots that are used at once. Requires a size that isn't
    /// empty, valid options and a limit from 1 to 16777216.
    pub fn with_slot_limit(
        alloc: A,
        size: Size,
        options: &AllocatorOptions,
        limit: u32,
    ) -> Result<Self, AtlasError>
        requires size { IsPositive (sides_of size) }
        requires options { AreValid (options_of options.now) }
        requires least { 1 ≤ limit }
        requires most { limit ≤ MOST_SLOTS }
        ensures unless { IsOkUnless result AtlasError.Memory }
        ensures state { IfOk result (λ it. state_of it ≡ started (sides_of size) (options_of options.now) limit) }
        ensures anew { IfOk result AreFirstGenerations }
        ensures turns { IfOk result (λ it. it.turns ≡ 0) }
        ensures sound { IfOk result (λ it. IsSound (state_of it)) }
    {
        let store = Store::new(alloc, size, options)?;
        Ok(AtlasAllocator {
            store,
            first: Link { number: 0 },
            used: 1,
            size,
            limit,
        })
    }

    /// The size of the atlas, in pixels.
    pub fn size(&self) -> Size
        ensures size { result ≡ size_of (state_of self.now).size }
        ensures sound { IsSound (state_of self.now) }
    {
        self.size
    }

    /// States what always holds of an atlas, and does nothing: it is sound, live and free boxes tile it, and the rectangles of
    /// live ids lie within it and apart from one another. The empty list of held boxes is guarded.
    pub fn prove_sound(&self)
        ensures sound { IsSound (state_of self.now) }
        ensures tiled { IsTiled (state_of self.now) }
        ensures apart { AllLieApart (state_of self.now) }
        ensures within { AllLieWithin (state_of self.now) }
        ensures guarded { AreGuarded (state_of self.now) [] }
    {
        let _size = self.size();
    }

    /// Whether no id is live.
    pub fn is_empty(&self) -> bool
        ensures empty { IsTrue result ↔ (live_in (state_of self.now) ≡ []) }
        ensures count { IsTrue result ↔ (length (live_in (state_of self.now)) ≡ 0) }
    {
        let first = self.store.node(self.first);
        first.kind == NodeKind::Free && first.next.number == NO_SLOT
    }

    /// How many slots are used, the most that were used at once since the last start, and how many may be used. There
    /// is memory for the second number at least.
    pub fn slots(&self) -> SlotCount
        ensures used { result.used ≡ used_in (state_of self.now) }
        ensures kept { result.kept ≡ (state_of self.now).kept }
        ensures limit { result.limit ≡ (state_of self.now).limit }
        ensures memory { result.kept ≤ self.now.capacity }
    {
        SlotCount {
            used: self.used,
            kept: self.store.slots().len() as u32,
            limit: self.limit,
        }
    }

    /// The rectangle of a live id, in pixels; None for every other id.
    pub fn get(&self, id: AllocId) -> Option<Rectangle>
        ensures rectangle { result ≡ option_map rectangle_of (live_box (state_of self.now) id) }
        ensures live { IsSome result ↔ IsLive (state_of self.now) id }
        ensures within { IfSome result (λ rectangle. IsWithin (state_of self.now).size (box_of rectangle)) }
        ensures lies { IfSome result (LiesWithin (state_of self.now).size) }
    {
        let slots = self.store.slots();
        let at = named_slot(slots, id)?;
        Some(slots[at].area)
    }

    /// Grants a request: a rectangle of the rounded size, at the `min` of the free rectangle that is picked. None if the
    /// size is empty, if a rounded side passes 2147483647, or if the rounded size fits no free rectangle. `Slots` if more
    /// slots would be used than the limit allows; `Memory` if more would be used than at any time since the last start, and
    /// memory for them is refused. Unless something is granted, nothing changes. Takes no turns. At most 4 more slots are
    /// used: with 4 in reserve the answer is never `Memory`.
    pub fn allocate(&mut self, requested_size: Size) -> Result<Option<Allocation>, AtlasError>
        ensures step { Step (state_of self.old) (Allocate (sides_of requested_size)) (allocate_reply result)
            (state_of self.new) }
        ensures exact { IfOk result (λ granted. IfSome granted (λ allocation. IsExact allocation.rectangle)) }
        ensures none { result ≡ Ok None → self.new ≡ self.old }
        ensures refused { OnErr result (self.new ≡ self.old) }
        ensures turns { self.new.turns ≡ self.old.turns }
        ensures adds { IfOk result (λ granted. IfSome granted (λ a.
            AddsBox (state_of self.old) (state_of self.new) a.id (box_of a.rectangle))) }
        ensures guarded { IfOk result (λ granted. IfSome granted (λ a.
            JoinsGuarded (state_of self.old) (state_of self.new) (box_of a.rectangle))) }
        ensures keeps { KeepsLive (state_of self.old) (state_of self.new) }
        ensures slots { UsesAtMost 4 self.old self.new }
        ensures memory { HasReserve 4 self.old → result ≢ Err AtlasError.Memory }
        ensures answer { IsAnswer (state_of self.old) requested_size result }
        ensures past { (2147483647 < (rounded (state_of self.old).options (sides_of requested_size)).width)
            ⊎ (2147483647 < (rounded (state_of self.old).options (sides_of requested_size)).height) → result ≡ Ok None }
        ensures frame { KeepsFrame (state_of self.old) (state_of self.new) }
    {
        self.request(requested_size)
    }

    /// Frees the box of an id: it joins the free space next to it. `NotLive` if the id isn't live, and then nothing
    /// changes. Takes no memory, and one turn plus one for each member that disappears. A turn marks a leaf as free, joins it
    /// with the next one or lifts it into its container's place; links of lists are written in addition to the turns.
    pub fn deallocate(&mut self, id: AllocId) -> Result<(), AtlasError>
        ensures step { Step (state_of self.old) (Deallocate id) (done_reply result) (state_of self.new) }
        ensures refused { OnErr result (self.new ≡ self.old) }
        ensures unless { IsOkUnless result AtlasError.NotLive }
        ensures turns { OnOk result
            (self.new.turns + used_in (state_of self.new) ≡ self.old.turns + 1 + used_in (state_of self.old)) }
        ensures ok { (result ≡ Ok tt) ↔ IsLive (state_of self.old) id }
        ensures leaves { LeavesNoBox (state_of self.old) (state_of self.new) id }
        ensures count { OnOk result (length (live_in (state_of self.new)) + 1 ≡ length (live_in (state_of self.old))) }
        ensures slots { UsesAtMost 0 self.old self.new }
        ensures frame { KeepsFrame (state_of self.old) (state_of self.new) }
        ensures kept { (state_of self.new).kept ≡ (state_of self.old).kept }
    {
        if !self.is_live(id) {
            return Err(AtlasError::NotLive);
        }
        self.free(id);
        Ok(())
    }

    /// Frees the boxes of the ids of a list. The tree that is left doesn't depend on their order; the numbers of later
    /// ids may. `NotLive` if one of them isn't live or is listed twice, and then nothing changes. Takes no memory, time in
    /// proportion to the list, and one turn for each id plus one for each member that disappears.
    pub fn deallocate_all(&mut self, ids: &[AllocId]) -> Result<(), AtlasError>
        ensures freed { OnOk result (state_of self.new ≡ after_freeing (state_of self.old) (is_among ids.now)) }
        ensures ok { (result ≡ Ok tt) ↔ AreLiveOnce (state_of self.old) ids.now }
        ensures unless { IsOkUnless result AtlasError.NotLive }
        ensures refused { OnErr result (self.new ≡ self.old) }
        ensures none { ids.now ≡ [] → self.new ≡ self.old }
        ensures turns { OnOk result
            (self.new.turns + used_in (state_of self.new)
            ≡ self.old.turns + length ids.now + used_in (state_of self.old)) }
        ensures leaves { OnOk result (LeavesNoBoxes (state_of self.old) (state_of self.new) ids.now) }
        ensures sound { IsSound (state_of self.new) }
        ensures slots { UsesAtMost 0 self.old self.new }
        ensures frame { KeepsFrame (state_of self.old) (state_of self.new) }
        ensures kept { (state_of self.new).kept ≡ (state_of self.old).kept }
    {
        if !self.are_live_once(ids) {
            return Err(AtlasError::NotLive);
        }
        for id in ids {
            self.free(*id);
        }
        Ok(())
    }

    /// Makes the atlas larger; every live id keeps its rectangle. Requires that neither side shrinks. If the atlas is a single
    /// free rectangle, that is enlarged. Otherwise, first along the top sequence, a free last member is enlarged or a free strip is
    /// appended, and then, across it, a free strip along the whole side (docs/MODEL.md, "Changes of a tree"); each only
    /// if that side grows. `Slots` if more slots would be used than the limit allows; `Memory` if more would be used
    /// than at any time since the last start, and memory for them is refused; then nothing changes. Takes no turns, and one
    /// pass along the top sequence for each side that grows. At most 3 more slots are used: with 3 in reserve the
    /// answer is never `Memory`.
    pub fn grow(&mut self, new_size: Size) -> Result<(), AtlasError>
        requires { Fits (state_of self.old).size (sides_of new_size) }
        ensures step { Step (state_of self.old) (Grow (sides_of new_size)) (done_reply result) (state_of self.new) }
        ensures refused { OnErr result (self.new ≡ self.old) }
        ensures turns { self.new.turns ≡ self.old.turns }
        ensures keeps { KeepsAll (state_of self.old) (state_of self.new) }
        ensures slots { UsesAtMost 3 self.old self.new }
        ensures memory { HasReserve 3 self.old → result ≢ Err AtlasError.Memory }
        ensures errors { IfErr result IsShortage }
        ensures frame { OnOk result (HasFrame (state_of self.new) (sides_of new_size) (state_of self.old).options
            (state_of self.old).limit) }
    {
        if self.is_empty() {
            self.grow_box(new_size);
            return Ok(());
        }
        let growth = growth_for(&self.store, self.first, self.size, new_size);
        let added = slots_for(&self.store, growth);
        self.store.make_room(self.used, self.limit, added)?;
        self.first = grow_tree(&mut self.store, self.first, growth);
        self.used += added;
        self.size = new_size;
        Ok(())
    }

    /// `resize_and_rearrange` at the present size. Each slot is then in its first generation.
    pub fn rearrange(&mut self) -> Result<ChangeList<A>, AtlasError>
        ensures step { Step (state_of self.old) Rearrange (change_reply result) (state_of self.new) }
        ensures exact { IfOk result AreExactChanges }
        ensures sides { IfOk result (λ list. All KeepsSides list.changes.items) }
        ensures moves { IfOk result (λ list. IsRearrangingStep (state_of self.old) (rearrangement_of list)
            (state_of self.new)) }
        ensures anew { IfOk result (λ _. AreFirstGenerations self.new) }
        ensures refused { OnErr result (self.new ≡ self.old) }
        ensures turns { self.new.turns ≡ self.old.turns }
        ensures sound { IsSound (state_of self.new) }
        ensures errors { IfErr result IsShortage }
        ensures frame { KeepsFrame (state_of self.old) (state_of self.new) }
    {
        self.resize_and_rearrange(self.size)
    }

    /// Repacks what is allocated into an empty atlas of this size, the largest first; the options and the limit stay.
    /// Requires a size that isn't empty. The rectangles are taken in order of descending area, where areas count up to
    /// 2147483647, and of descending slot, the low 24 bits of the id, where areas are equal; each is placed where it
    /// then fits, or else listed as a failure, whose id is no longer live. All former ids are void, and each slot is in
    /// its first generation. `Slots` if on the way more slots would be used than the limit allows; `Memory` if memory
    /// is refused; then nothing changes. Takes no turns.
    pub fn resize_and_rearrange(&mut self, new_size: Size) -> Result<ChangeList<A>, AtlasError>
        requires { IsPositive (sides_of new_size) }
        ensures step { Step (state_of self.old) (ResizeAndRearrange (sides_of new_size)) (change_reply result)
            (state_of self.new) }
        ensures exact { IfOk result AreExactChanges }
        ensures sides { IfOk result (λ list. All KeepsSides list.changes.items) }
        ensures moves { IfOk result (λ list. IsRearrangingStep (state_of self.old) (rearrangement_of list)
            (state_of self.new)) }
        ensures anew { IfOk result (λ _. AreFirstGenerations self.new) }
        ensures refused { OnErr result (self.new ≡ self.old) }
        ensures turns { self.new.turns ≡ self.old.turns }
        ensures sound { IsSound (state_of self.new) }
        ensures errors { IfErr result IsShortage }
        ensures frame { OnOk result (HasFrame (state_of self.new) (sides_of new_size) (state_of self.old).options
            (state_of self.old).limit) }
    {
        let order = self.refit_order()?;
        let alloc = self.store.allocator();
        let options = self.store.options();
        let mut placed = AtlasAllocator::with_slot_limit(alloc, new_size, &options, self.limit)?;
        let list = refit(&mut placed, order)?;
        self.become_like(placed);
        Ok(list)
    }

    // What is allocated, in the order in which it is placed anew.
    fn refit_order(&self) -> Result<Vec<Allocation, A>, AtlasError>
        ensures unless { IsOkUnless result AtlasError.Memory }
        ensures order { IfOk result (λ boxes. IsRefitOrder (live_in (state_of self.now)) (map grant_of boxes.items)) }
        ensures exact { IfOk result (λ boxes. All HasExactRectangle boxes.items) }
    {
        let mut boxes = self.allocations()?;
        sort_for_refit(&mut boxes);
        Ok(boxes)
    }

    // Stores what another atlas stores. The turns stay.
    fn become_like(&mut self, other: AtlasAllocator<A>)
        ensures stored { self.new.stored ≡ other.stored }
        ensures turns { self.new.turns ≡ self.old.turns }
    {
        let AtlasAllocator {
            store,
            first,
            used,
            size,
            limit,
        } = other;
        self.store.replace(store);
        (self.first, self.used) = (first, used);
        (self.size, self.limit) = (size, limit);
    }

    /// Starts again at the present size, options and limit: one free rectangle, no id live, each slot in its first
    /// generation. Always Ok. Keeps the room of the slots, and takes no memory and no turns.
    pub fn clear(&mut self) -> Result<(), AtlasError>
        ensures ok { result ≡ Ok tt }
        ensures step { Step (state_of self.old) Clear (done_reply result) (state_of self.new) }
        ensures anew { AreFirstGenerations self.new }
        ensures turns { self.new.turns ≡ self.old.turns }
        ensures sound { IsSound (state_of self.new) }
        ensures idle { live_in (state_of self.new) ≡ [] }
        ensures slots { UsesAtMost 0 self.old self.new }
        ensures frame { KeepsFrame (state_of self.old) (state_of self.new) }
    {
        let size = self.size;
        let options = self.store.options();
        self.restart(size, &options);
        Ok(())
    }

    /// Starts again at this size, in pixels, and with these options; the limit stays. Requires a size that isn't empty and
    /// valid options. Always Ok. Keeps the room of the slots, and takes no memory and no turns.
    pub fn reset(&mut self, size: Size, options: &AllocatorOptions) -> Result<(), AtlasError>
        requires size { IsPositive (sides_of size) }
        requires options { AreValid (options_of options.now) }
        ensures ok { result ≡ Ok tt }
        ensures step { Step (state_of self.old) (Reset (sides_of size) (options_of options.now)) (done_reply result)
            (state_of self.new) }
        ensures anew { AreFirstGenerations self.new }
        ensures turns { self.new.turns ≡ self.old.turns }
        ensures sound { IsSound (state_of self.new) }
        ensures idle { live_in (state_of self.new) ≡ [] }
        ensures slots { UsesAtMost 0 self.old self.new }
        ensures frame { HasFrame (state_of self.new) (sides_of size) (options_of options.now)
            (state_of self.old).limit }
    {
        self.restart(size, options);
        Ok(())
    }

    /// A copy: the whole stored value is equal, slots, generations and lists included, and so are its answers to later
    /// calls, except where memory is refused. Its turns begin at 0. `Memory` is the only error.
    pub fn clone(&self) -> Result<Self, AtlasError>
        ensures unless { IsOkUnless result AtlasError.Memory }
        ensures equal { IfOk result (λ it. it.stored ≡ self.now.stored) }
        ensures turns { IfOk result (λ it. it.turns ≡ 0) }
    {
        let store = self.store.copy()?;
        let used = self.used;
        Ok(AtlasAllocator {
            store,
            first: self.first,
            used,
            size: self.size,
            limit: self.limit,
        })
    }

    // One free slot of this size, with these options; the limit stays.
    fn restart(&mut self, whole: Size, options: &AllocatorOptions)
        requires size { IsPositive (sides_of whole) }
        requires options { AreValid (options_of options.now) }
        ensures state { state_of self.new
            ≡ started (sides_of whole) (options_of options.now) (state_of self.old).limit }
        ensures anew { AreFirstGenerations self.new }
        ensures turns { self.new.turns ≡ self.old.turns }
        ensures sound { IsSound (state_of self.new) }
        ensures slots { UsesAtMost 0 self.old self.new }
    {
        self.store.start(whole, options);
        self.first = Link { number: 0 };
        self.used = 1;
        self.size = whole;
    }

    // Enlarges the one free box of an atlas in which nothing is live.
    fn grow_box(&mut self, size: Size)
        requires larger { Fits (state_of self.old).size (sides_of size) }
        requires idle { live_in (state_of self.old) ≡ [] }
        ensures step { Step (state_of self.old) (Grow (sides_of size)) Done (state_of self.new) }
        ensures turns { self.new.turns ≡ self.old.turns }
        ensures keeps { KeepsAll (state_of self.old) (state_of self.new) }
        ensures slots { UsesAtMost 3 self.old self.new }
    {
        grow_whole(&mut self.store, self.first, size);
        self.size = size;
    }

    // Whether each of these ids is live, and none is there twice.
    fn are_live_once(&mut self, ids: &[AllocId]) -> bool
        ensures live { IsTrue result ↔ AreLiveOnce (state_of self.old) ids.now }
        ensures same { self.new ≡ self.old }
        ensures sound { IsSound (state_of self.old) }
    {
        self.store.are_named_once(ids)
    }

    // Whether an id is live.
    fn is_live(&self, id: AllocId) -> bool
        ensures live { IsTrue result ↔ IsLive (state_of self.now) id }
        ensures sound { IsSound (state_of self.now) }
    {
        named_slot(self.store.slots(), id).is_some()
    }

    // Frees the box of a live id.
    fn free(&mut self, id: AllocId)
        requires { IsLive (state_of self.old) id }
        ensures state { state_of self.new ≡ after_freeing (state_of self.old) (only id) }
        ensures turns { self.new.turns + used_in (state_of self.new)
            ≡ self.old.turns + 1 + used_in (state_of self.old) }
        ensures slots { UsesAtMost 0 self.old self.new }
    {
        let number = slot_number(id);
        let given = free_leaf(&mut self.store, Link { number });
        self.used -= given;
    }
}

/// The slots and the options, for a simple allocator that takes over the free rectangles. `guillotiere` doesn't
/// re-export this function.
pub fn store_of<A: Allocator + Copy>(atlas: &AtlasAllocator<A>) -> &Store<A>
    ensures options { options_of (shelf_of result.now).options ≡ (state_of atlas.now).options }
    ensures areas { AreFreeAreas (state_of atlas.now) (free_areas (nodes (shelf_of result.now).slots)) }
{
    &atlas.store
}

impl<A: Allocator + Copy> Index<AllocId> for AtlasAllocator<A> {
    ghost use Rattle.atlas_store.specs.Stored.{state_of};
    ghost use Rattle.atlas_model.specs.Replies.{live_box};

    type Output = Rectangle;

    ghost can_index = { λ atlas id. IsSome (live_box (state_of atlas) id) };

    ghost index_gives = { λ atlas id area. option_map rectangle_of (live_box (state_of atlas) id) ≡ Some area };

    /// The rectangle of an id. Requires that the id is live, which `get` tests.
    fn index(&self, id: AllocId) -> &Rectangle {
        let slots = self.store.slots();
        match named_slot(slots, id) {
            Some(at) => &slots[at].area,
            None => unreachable!(),
        }
    }
}
