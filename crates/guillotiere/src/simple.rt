//! An allocator that hands out boxes and never takes one back.
ghost use Rattle.std.specs.Prelude.{◌≡◌, ◌↔◌, ◌⊎◌, Any, IsTrue, None, Ok, true, ◌+◌, ◌<◌, ◌≤◌, ◌++◌, [], ◌∷◌, List};
ghost use Rattle.std.specs.Prelude.{OnOk, OnErr, IfOk, IfSome, IsOkUnless, length, min, vec_capacity};
ghost use Rattle.atlas_model.specs.Boxes.{AreSameBoxes, Box, Fits, IsPositive, Sides, box_sides};
ghost use Rattle.atlas_model.specs.Choice.{AreValid, rounded};
ghost use Rattle.guillotiere.specs.FreeBoxes.BoxCalls.{AreFiledBoxes, HasEntriesFor, HasTakenEntries, IsFoundFor};
ghost use Rattle.guillotiere.specs.FreeBoxes.BoxShelves.{AddsWhatIsUsed, AreKept, box_shelf, free_item_boxes};
ghost use Rattle.guillotiere.specs.FreeBoxes.FreeLists.{kept_of, state_of_items};
ghost use Rattle.atlas_model.specs.Pixels.{allocator_options_of, box_of, options_of, rectangle_of, sides_of, size_of};
ghost use Rattle.atlas_search.specs.Rectangles.{IsUnsigned};
ghost use Rattle.atlas_model.specs.Simple.{IsGuarded, IsSimple, SimpleStep, is_kept, kept_rest, simple_answer};
ghost use Rattle.atlas_model.specs.Simple.{simple_start};
ghost use Rattle.atlas_model.specs.Simple.SimpleAtlasCall.{Allocate};
ghost use Rattle.guillotiere.specs.SimpleStored.{LacksEntries};

mod apart;
pub mod boxes;
mod changes;
pub mod image;

use crate::simple::boxes::{FreeBox, FreeBoxes, MOST_BOXES};
use atlas_model::{AllocatorOptions, AtlasError, DEFAULT_OPTIONS, Rectangle, Size, SlotCount};
use atlas_search::bands::Scale;
use atlas_search::best::Found;
use atlas_search::choice::rounded;
use atlas_search::cut::{Rest, granted, guillotine};
use atlas_search::search::pick;
use std::alloc::{Allocator, Global};
use std::marker::Model;

/// A simpler allocator, which hands out boxes and never takes one back: its free boxes make up no tree, and a part that
/// is narrower or lower than the alignment is lost (docs/MODEL.md, "The simple allocator").
///
/// It keeps the memory allocator that it was made with. Contracts see what it stores, and for how many entries it has memory;
/// `simple_state_of` reads its free boxes, its size and its options there.
///
/// Each entry for a free box takes 32 bytes on the heap. Where a second one is needed there are eight, and the memory for a
/// ninth one comes with 11,656 for the table of its lists of free boxes, once. Entries
/// that aren't used any more are used first by later calls, and the room for entries is kept until a start from an atlas. There are at
/// most 4,261,412,864 entries: where more would be used, `Memory` is the answer.
#[derive(Drop)]
pub struct SimpleAtlasAllocator<A: Allocator + Copy = Global> {
    boxes: FreeBoxes<A>,
    size: Size,
    options: Scale,
}

impl<A: Allocator + Copy> Model for SimpleAtlasAllocator<A> {
    ghost use Rattle.std.specs.Prelude.{vec_capacity};
    ghost use Rattle.guillotiere.specs.FreeBoxes.BoxShelves.{box_shelf};
    ghost use Rattle.guillotiere.specs.FreeBoxes.FreeLists.{IsSimpleStored};
    ghost use Rattle.guillotiere.specs.SimpleStored.{SimpleValue};

    ghost Value = { SimpleValue };

    ghost view = { λ a. record {
      shelf = box_shelf a.boxes;
      size = a.size;
      options = a.options;
      capacity = vec_capacity a.boxes.entries;
    } };

    ghost invariant = { λ a. IsSimpleStored a.boxes a.size a.options };
}

impl<A: Allocator + Copy> SimpleAtlasAllocator<A> {
    ghost use Rattle.guillotiere.specs.SimpleStored.{MayAskMemory, UsesEachEntry, UsesOldEntries, kept_entries, room_of};
    ghost use Rattle.guillotiere.specs.SimpleStored.{simple_state_of, used_entries};

    /// An allocator of one free box of this size, in pixels, with `DEFAULT_OPTIONS`. Requires a size that isn't empty. The
    /// only error is `Memory`.
    pub fn new(alloc: A, size: Size) -> Result<Self, AtlasError>
        requires { IsPositive (sides_of size) }
        ensures unless { IsOkUnless result AtlasError.Memory }
        ensures start { IfOk result
            (λ it. simple_state_of it ≡ simple_start (sides_of size) (options_of DEFAULT_OPTIONS)) }
        ensures guarded { IfOk result (λ it. IsGuarded (simple_state_of it) []) }
        ensures entries { IfOk result UsesEachEntry }
    {
        Self::with_options(alloc, size, &DEFAULT_OPTIONS)
    }

    /// An allocator of one free box of this size, in pixels, with these options. Requires a size that isn't empty and valid
    /// options. The only error is `Memory`.
    pub fn with_options(
        alloc: A,
        size: Size,
        options: &AllocatorOptions,
    ) -> Result<Self, AtlasError>
        requires nonempty { IsPositive (sides_of size) }
        requires valid { AreValid (options_of options.now) }
        ensures unless { IsOkUnless result AtlasError.Memory }
        ensures start { IfOk result
            (λ it. simple_state_of it ≡ simple_start (sides_of size) (options_of options.now)) }
        ensures guarded { IfOk result (λ it. IsGuarded (simple_state_of it) []) }
        ensures entries { IfOk result UsesEachEntry }
    {
        let mut boxes = FreeBoxes::new(alloc)?;
        let options = Scale::new(options);
        boxes.restart(Rectangle::from(size), &options);
        Ok(SimpleAtlasAllocator {
            boxes,
            size,
            options,
        })
    }

    /// A copy: the whole stored value is equal, entries and lists included, with as much room for entries, and so are its answers to
    /// later calls, except where memory is refused. `Memory` is the only error.
    pub fn clone(&self) -> Result<Self, AtlasError>
        ensures unless { IsOkUnless result AtlasError.Memory }
        ensures equal { IfOk result (λ it. it ≡ self.now) }
    {
        let boxes = self.boxes.copy()?;
        Ok(SimpleAtlasAllocator {
            boxes,
            size: self.size,
            options: self.options.copy(),
        })
    }

    /// Grants a request: the box of the rounded size at the `min` of the free box that is picked. None if the size is
    /// empty, if a rounded side passes 2147483647, or if the rounded size fits no free box; then no memory is asked
    /// for. The only error is `Memory`, if more entries would be used than there is room for and memory for them is refused.
    /// Unless something is granted, nothing changes. Keeps the room of the entries.
    pub fn allocate(&mut self, requested_size: Size) -> Result<Option<Rectangle>, AtlasError>
        ensures unless { IsOkUnless result AtlasError.Memory }
        ensures step { SimpleStep (simple_state_of self.old) (Allocate (sides_of requested_size))
            (simple_answer result) (simple_state_of self.new) }
        ensures exact { IfOk result
            (λ granted. IfSome granted (λ rectangle. rectangle ≡ rectangle_of (box_of rectangle))) }
        ensures none { result ≡ Ok None → self.new ≡ self.old }
        ensures refused { OnErr result (self.new ≡ self.old) }
        ensures entries { UsesOldEntries self.old self.new }
        ensures memory { OnErr result (MayAskMemory self.old (Allocate (sides_of requested_size))) }
        ensures capacity { self.old.capacity ≤ self.new.capacity }
        ensures past { (2147483647 < (rounded (simple_state_of self.old).options (sides_of requested_size)).width)
            ⊎ (2147483647 < (rounded (simple_state_of self.old).options (sides_of requested_size)).height)
            → result ≡ Ok None }

        // Boxes that are held stay apart from each other, from the granted box and from the free boxes.
        ensures guarded { (held : List Box) → IsGuarded (simple_state_of self.old) held → IfOk result
            (λ granted. IfSome granted (λ rectangle. IsGuarded (simple_state_of self.new) (box_of rectangle ∷ held))) }
        ensures simple { IsSimple (simple_state_of self.new) }
    {
        grant(&mut self.boxes, requested_size, &self.options)
    }

    /// The size of the allocator.
    pub fn size(&self) -> Size
        ensures size { result ≡ size_of (simple_state_of self.now).size }
        ensures simple { IsSimple (simple_state_of self.now) }
    {
        self.size
    }

    /// The options of the allocator.
    pub fn options(&self) -> AllocatorOptions
        ensures options { result ≡ allocator_options_of (simple_state_of self.now).options }
        ensures valid { AreValid (options_of result) }
    {
        self.options.plain()
    }

    /// Whether `grow` may be called with this size: neither side is less than the allocator's.
    pub fn can_grow_to(&self, new_size: Size) -> bool
        ensures { IsTrue result ↔ Fits (simple_state_of self.now).size (sides_of new_size) }
    {
        let size = self.size();
        size.width <= new_size.width && size.height <= new_size.height
    }

    /// Whether one free box has the allocator's size.
    pub fn is_empty(&self) -> bool
        ensures { IsTrue result
            ↔ Any (λ b. box_sides b ≡ (simple_state_of self.now).size) (simple_state_of self.now).free }
    {
        is_listed(&self.boxes.entries, &Rectangle::from(self.size))
    }

    /// How many entries are used, one for each free box, how many there are, and how many there may be: 4,261,412,864. There is
    /// room for the second number at least.
    pub fn slots(&self) -> SlotCount
        ensures used { result.used ≡ used_entries self.now }
        ensures kept { result.kept ≡ kept_entries self.now }
        ensures limit { result.limit ≡ 4261412864 }
        ensures counted { used_entries self.now ≤ kept_entries self.now }
        ensures room { kept_entries self.now ≤ room_of self.now }
    {
        SlotCount {
            used: self.boxes.used,
            kept: self.boxes.entries.len() as u32,
            limit: MOST_BOXES,
        }
    }
}

// Whether a box is one of the entries.
fn is_listed(entries: &[FreeBox], rectangle: &Rectangle) -> bool
    ensures { IsTrue result ↔ Any (λ b. b.area ≡ rectangle.now) entries.now }
{
    for entry in entries {
        if entry.area == *rectangle {
            return true;
        }
    }
    false
}

// Whether a part is neither narrower nor lower than the alignment.
fn is_kept(part: Rectangle, options: &Scale) -> bool
    requires valid { AreValid (options_of options.now) }
    requires unsigned { IsUnsigned part }
    ensures { result ≡ is_kept (options_of options.now) (box_of part) }
{
    let size = part.size();
    let least = options.plain().alignment;
    size.width >= least.width && size.height >= least.height
}

// Adds a part if it is kept.
fn keep<A: Allocator>(boxes: &mut FreeBoxes<A>, part: Rectangle, options: &Scale)
    requires unsigned { IsUnsigned part }
    requires kept { AreKept (options_of options.now) (box_shelf boxes.old) }
    requires room { is_kept (options_of options.now) (box_of part) ≡ true → HasEntriesFor 1 boxes.old }
    ensures boxes { AreFiledBoxes (options_of options.now) (kept_of (options_of options.now) (box_of part)) boxes.old
        boxes.new }
    ensures entries { HasTakenEntries (length (kept_of (options_of options.now) (box_of part))) boxes.old boxes.new }
{
    if is_kept(part, options) {
        boxes.add(part, options);
    }
}

// How many parts of a rest are kept.
fn kept_count(rest: &Rest, options: &Scale) -> u32
    requires valid { AreValid (options_of options.now) }
    requires split { IsUnsigned rest.now.split }
    requires leftover { IsUnsigned rest.now.leftover }
    ensures { result ≡ length (kept_of (options_of options.now) (box_of rest.now.split))
        + length (kept_of (options_of options.now) (box_of rest.now.leftover)) }
{
    let split = if is_kept(rest.split, options) { 1 } else { 0 };
    let leftover = if is_kept(rest.leftover, options) {
        1
    } else {
        0
    };
    split + leftover
}

// Cuts a picked box: it gives way to what is kept of it, and its entry is used again.
fn cut_picked<A: Allocator>(
    boxes: &mut FreeBoxes<A>,
    found: Found,
    size: Size,
    options: &Scale,
) -> Result<(), AtlasError>
    requires { IsFoundFor (options_of options.now) found (sides_of size) boxes.old }
    ensures unless { IsOkUnless result AtlasError.Memory }
    ensures kept { AreKept (options_of options.now) (box_shelf boxes.new) }
    ensures ok { OnOk result
        (AreSameBoxes (box_of found.rectangle ∷ free_item_boxes (box_shelf boxes.new).entries)
        (kept_rest (options_of options.now) (box_of found.rectangle) (sides_of size)
        ++ free_item_boxes (box_shelf boxes.old).entries)) }
    ensures err { OnErr result (box_shelf boxes.new ≡ box_shelf boxes.old) }
    ensures entries { AddsWhatIsUsed (box_shelf boxes.old) (box_shelf boxes.new) }
    ensures needed { OnErr result (min (vec_capacity boxes.old.entries) 4261412864 + 1 < boxes.old.used
        + length (kept_rest (options_of options.now) (box_of found.rectangle) (sides_of size))) }
    ensures stays { OnErr result (vec_capacity boxes.new.entries ≡ vec_capacity boxes.old.entries) }
    ensures capacity { vec_capacity boxes.old.entries ≤ vec_capacity boxes.new.entries }
{
    let rest = guillotine(found.rectangle, size);
    boxes.make_room(kept_count(&rest, options).saturating_sub(1))?;
    boxes.remove(found);
    keep(boxes, rest.split, options);
    keep(boxes, rest.leftover, options);
    Ok(())
}

// Grants a request from the boxes, if there is room.
fn grant<A: Allocator>(
    boxes: &mut FreeBoxes<A>,
    requested_size: Size,
    options: &Scale,
) -> Result<Option<Rectangle>, AtlasError>
    requires { AreKept (options_of options.now) (box_shelf boxes.old) }
    ensures unless { IsOkUnless result AtlasError.Memory }
    ensures kept { AreKept (options_of options.now) (box_shelf boxes.new) }
    ensures unsigned { IfOk result (λ granted. IfSome granted IsUnsigned) }

    // The boxes are those of an atlas of any size that an `i32` can hold.
    ensures step { (size : Sides) → size.width ≤ 2147483647 → size.height ≤ 2147483647
        → IsSimple (state_of_items (box_shelf boxes.old).entries size options.now)
        → SimpleStep (state_of_items (box_shelf boxes.old).entries size options.now)
        (Allocate (sides_of requested_size)) (simple_answer result)
        (state_of_items (box_shelf boxes.new).entries size options.now) }
    ensures none { result ≡ Ok None → box_shelf boxes.new ≡ box_shelf boxes.old }
    ensures refused { OnErr result (box_shelf boxes.new ≡ box_shelf boxes.old) }
    ensures entries { AddsWhatIsUsed (box_shelf boxes.old) (box_shelf boxes.new) }
    ensures needed { OnErr result (LacksEntries (min (vec_capacity boxes.old.entries) 4261412864)
        (free_item_boxes (box_shelf boxes.old).entries) (options_of options.now) (sides_of requested_size)) }
    ensures stays { OnErr result (vec_capacity boxes.new.entries ≡ vec_capacity boxes.old.entries) }
    ensures idle { result ≡ Ok None → vec_capacity boxes.new.entries ≡ vec_capacity boxes.old.entries }
    ensures capacity { vec_capacity boxes.old.entries ≤ vec_capacity boxes.new.entries }
{
    let Some(size) = rounded(requested_size, options) else {
        return Ok(None);
    };
    let Some(found) = pick(&boxes.entries, &boxes.table, options, size) else {
        return Ok(None);
    };
    let rectangle = granted(found.rectangle, size);
    cut_picked(boxes, found, size, options)?;
    Ok(Some(rectangle))
}
