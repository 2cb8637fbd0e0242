//! A simple allocator that grows or begins anew.
ghost use Rattle.std.specs.Prelude.{◌≡◌, ◌+◌, ◌<◌, ◌≤◌, ◌++◌, ◌∷◌, [], List, All, map, Ok, OnOk, OnErr, IsOkUnless};
ghost use Rattle.std.specs.Prelude.{length, min, vec_capacity};
ghost use Rattle.atlas_model.specs.Boxes.{AreSameBoxes, Box, Fits, IsNonempty, IsPositive};
ghost use Rattle.atlas_model.specs.Choice.{AreValid};
ghost use Rattle.guillotiere.specs.FreeBoxes.BoxCalls.{AreFiledBoxes};
ghost use Rattle.guillotiere.specs.FreeBoxes.BoxShelves.{AddsWhatIsUsed, AreKept, box_shelf, free_item_boxes};
ghost use Rattle.guillotiere.specs.FreeBoxes.FreeLists.{kept_beyond};
ghost use Rattle.atlas_model.specs.Pixels.{box_of, options_of, sides_of};
ghost use Rattle.atlas_search.specs.Rectangles.{IsUnsigned};
ghost use Rattle.atlas_model.specs.Simple.{IsGuarded, IsSimple, SimpleStep, live_boxes, simple_done};
ghost use Rattle.atlas_model.specs.Simple.SimpleAtlasCall.{Clear, Grow, Reset, Start};
ghost use Rattle.atlas_store.specs.Slots.{nodes};
ghost use Rattle.atlas_store.specs.Stored.{state_of};
ghost use Rattle.atlas_store.specs.Visits.{free_areas};

use super::{SimpleAtlasAllocator, keep, kept_count};
use crate::simple::boxes::FreeBoxes;
use atlas_allocator::{AtlasAllocator, store_of};
use atlas_model::{AllocatorOptions, AtlasError, Rectangle, Size};
use atlas_search::bands::Scale;
use atlas_search::cut::guillotine;
use atlas_store::slots::{NodeKind, Slot};
use std::alloc::Allocator;

impl<A: Allocator + Copy> SimpleAtlasAllocator<A> {
    ghost use Rattle.guillotiere.specs.SimpleStored.{MayAskMemory, UsesEachEntry, UsesOldEntries, simple_state_of};

    /// Makes the allocator larger: the new size is cut for the old one, and the split and the leftover are added, except that one
    /// that is narrower or lower than the alignment is dropped. Nothing is merged; at an equal size nothing changes. Requires
    /// that neither side shrinks. The only error is `Memory`, if more entries would be used than there is room for and memory
    /// for them is refused; then nothing changes. Keeps the room of the entries.
    pub fn grow(&mut self, new_size: Size) -> Result<(), AtlasError>
        requires { Fits (simple_state_of self.old).size (sides_of new_size) }
        ensures unless { IsOkUnless result AtlasError.Memory }
        ensures step { SimpleStep (simple_state_of self.old) (Grow (sides_of new_size)) (simple_done result)
            (simple_state_of self.new) }
        ensures equal { sides_of new_size ≡ (simple_state_of self.old).size
            → (result ≡ Ok tt) × (self.new ≡ self.old) }
        ensures refused { OnErr result (self.new ≡ self.old) }
        ensures entries { UsesOldEntries self.old self.new }
        ensures memory { OnErr result (MayAskMemory self.old (Grow (sides_of new_size))) }
        ensures capacity { self.old.capacity ≤ self.new.capacity }

        // Boxes that are held stay apart from each other and from the free boxes.
        ensures guarded { (held : List Box) → IsGuarded (simple_state_of self.old) held
            → IsGuarded (simple_state_of self.new) held }
        ensures simple { IsSimple (simple_state_of self.new) }
    {
        if new_size == self.size {
            return Ok(());
        }
        add_rest(&mut self.boxes, self.size, new_size, &self.options)?;
        self.size = new_size;
        Ok(())
    }

    /// Begins anew with one free box of the allocator's size. Always Ok. Keeps the room of the entries, and takes no
    /// memory.
    pub fn clear(&mut self) -> Result<(), AtlasError>
        ensures ok { result ≡ Ok tt }
        ensures step { SimpleStep (simple_state_of self.old) Clear (simple_done result) (simple_state_of self.new) }
        ensures entries { UsesEachEntry self.new }
        ensures capacity { self.old.capacity ≤ self.new.capacity }
        ensures guarded { IsGuarded (simple_state_of self.new) [] }
        ensures simple { IsSimple (simple_state_of self.new) }
    {
        let options = self.options.plain();
        self.reset(self.size, &options)
    }

    /// Begins anew with one free box of this size and with these options. Requires a size that isn't empty and valid
    /// options. Always Ok. Keeps the room of the entries, and takes no memory.
    pub fn reset(&mut self, size: Size, options: &AllocatorOptions) -> Result<(), AtlasError>
        requires nonempty { IsPositive (sides_of size) }
        requires valid { AreValid (options_of options.now) }
        ensures ok { result ≡ Ok tt }
        ensures step { SimpleStep (simple_state_of self.old) (Reset (sides_of size) (options_of options.now))
            (simple_done result) (simple_state_of self.new) }
        ensures entries { UsesEachEntry self.new }
        ensures capacity { self.old.capacity ≤ self.new.capacity }
        ensures guarded { IsGuarded (simple_state_of self.new) [] }
        ensures simple { IsSimple (simple_state_of self.new) }
    {
        self.options.set(options);
        self.boxes.restart(Rectangle::from(size), &self.options);
        self.size = size;
        Ok(())
    }

    /// Takes over an atlas's size, its options and each of its free rectangles, whatever their size. Live rectangles of
    /// the atlas are never granted. The room is that of new entries then. The only error is `Memory`, and after it everything is as
    /// before.
    pub fn init_from_allocator(&mut self, source: &AtlasAllocator<A>) -> Result<(), AtlasError>
        ensures unless { IsOkUnless result AtlasError.Memory }
        ensures step { SimpleStep (simple_state_of self.old) (Start (state_of source.now)) (simple_done result)
            (simple_state_of self.new) }
        ensures refused { OnErr result (self.new ≡ self.old) }
        ensures entries { OnOk result (UsesEachEntry self.new) }
        ensures guarded { OnOk result (IsGuarded (simple_state_of self.new) (live_boxes (state_of source.now))) }
        ensures simple { IsSimple (simple_state_of self.new) }
    {
        let size = source.size();
        let store = store_of(source);
        let options = store.scale();
        let mut boxes = FreeBoxes::new(*self.boxes.entries.allocator())?;
        file_free(&mut boxes, store.slots(), &options)?;
        self.boxes = boxes;
        self.size = size;
        self.options = options;
        Ok(())
    }
}

// Adds what is kept of a size cut for another that fits it.
fn add_rest<A: Allocator>(
    boxes: &mut FreeBoxes<A>,
    size: Size,
    new_size: Size,
    options: &Scale,
) -> Result<(), AtlasError>
    requires sizes { IsPositive (sides_of size) × Fits (sides_of size) (sides_of new_size) }
    requires kept { AreKept (options_of options.now) (box_shelf boxes.old) }
    ensures unless { IsOkUnless result AtlasError.Memory }
    ensures ok { OnOk result (AreFiledBoxes (options_of options.now) (kept_beyond options.now size new_size) boxes.old
        boxes.new) }
    ensures err { OnErr result (box_shelf boxes.new ≡ box_shelf boxes.old) }
    ensures entries { AddsWhatIsUsed (box_shelf boxes.old) (box_shelf boxes.new) }
    ensures needed { OnErr result (min (vec_capacity boxes.old.entries) 4261412864
        < boxes.old.used + length (kept_beyond options.now size new_size)) }
    ensures stays { OnErr result (vec_capacity boxes.new.entries ≡ vec_capacity boxes.old.entries) }
    ensures capacity { vec_capacity boxes.old.entries ≤ vec_capacity boxes.new.entries }
{
    let rest = guillotine(Rectangle::from(new_size), size);
    boxes.make_room(kept_count(&rest, options))?;
    keep(boxes, rest.split, options);
    keep(boxes, rest.leftover, options);
    Ok(())
}

/// Adds a rectangle, and room for it.
pub fn file_area<A: Allocator>(
    boxes: &mut FreeBoxes<A>,
    area: Rectangle,
    options: &Scale,
) -> Result<(), AtlasError>
    requires exact { IsUnsigned area × IsNonempty (box_of area) }
    requires kept { AreKept (options_of options.now) (box_shelf boxes.old) }
    requires used { boxes.old.used ≡ length (box_shelf boxes.old).entries }
    ensures unless { IsOkUnless result AtlasError.Memory }
    ensures kept { OnOk result (AreKept (options_of options.now) (box_shelf boxes.new)) }
    ensures boxes { OnOk result (AreSameBoxes (free_item_boxes (box_shelf boxes.new).entries)
        (box_of area ∷ free_item_boxes (box_shelf boxes.old).entries)) }
    ensures used { OnOk result (boxes.new.used ≡ length (box_shelf boxes.new).entries) }
    ensures capacity { vec_capacity boxes.old.entries ≤ vec_capacity boxes.new.entries }
{
    boxes.make_room(1)?;
    boxes.add(area, options);
    Ok(())
}

// Adds the rectangle of each free slot.
fn file_free<A: Allocator>(
    boxes: &mut FreeBoxes<A>,
    slots: &[Slot],
    options: &Scale,
) -> Result<(), AtlasError>
    requires areas { All (λ r. IsUnsigned r × IsNonempty (box_of r)) (free_areas (nodes slots.now)) }
    requires kept { AreKept (options_of options.now) (box_shelf boxes.old) }
    requires used { boxes.old.used ≡ length (box_shelf boxes.old).entries }
    ensures unless { IsOkUnless result AtlasError.Memory }
    ensures kept { OnOk result (AreKept (options_of options.now) (box_shelf boxes.new)) }
    ensures boxes { OnOk result
        (AreSameBoxes (free_item_boxes (box_shelf boxes.new).entries)
        (map box_of (free_areas (nodes slots.now)) ++ free_item_boxes (box_shelf boxes.old).entries)) }
    ensures used { OnOk result (boxes.new.used ≡ length (box_shelf boxes.new).entries) }
    ensures capacity { vec_capacity boxes.old.entries ≤ vec_capacity boxes.new.entries }
{
    for slot in slots {
        if slot.kind == NodeKind::Free {
            file_area(boxes, slot.area, options)?;
        }
    }
    Ok(())
}
