//! A simple allocator as plain data, and one made of such data, whoever gives them.
ghost use Rattle.std.specs.Prelude.{◌≡◌, ◌↔◌, ◌≤◌, ◌++◌, IsTrue, All, IfOk, IfSome, IsOkUnless, IsSome, OnOk, length, map};
ghost use Rattle.std.specs.Prelude.{vec_capacity};
ghost use Rattle.atlas_model.specs.Boxes.{AreSameBoxes, IsNonempty};
ghost use Rattle.atlas_model.specs.Pixels.{box_of, options_of};
ghost use Rattle.atlas_search.specs.Rectangles.{IsUnsigned};
ghost use Rattle.guillotiere.specs.FreeBoxes.BoxShelves.{AreKept, box_shelf, free_item_boxes, has_width};
ghost use Rattle.guillotiere.specs.FreeBoxes.FreeEntries.{free_entry_areas};
ghost use Rattle.guillotiere.specs.SimpleImages.{IsImageOf, IsSimpleImage};

use super::SimpleAtlasAllocator;
use super::changes::file_area;
use crate::simple::apart::{are_disjoint, are_within};
use crate::simple::boxes::{FreeBox, FreeBoxes};
use atlas_model::{AllocatorOptions, AtlasError, Rectangle, Size};
use atlas_search::bands::Scale;
use std::alloc::{AllocError, Allocator, Global};

/// A simple allocator's size, its options and its free boxes, whose order has no meaning.
#[derive(Drop)]
pub struct SimpleImage<A: Allocator = Global> {
    pub size: Size,
    pub options: AllocatorOptions,
    pub free: Vec<Rectangle, A>,
}

// Whether data are those of a simple allocator.
fn is_simple<A: Allocator + Copy>(alloc: A, image: &SimpleImage<A>) -> Result<bool, AllocError>
    ensures { IfOk result (λ simple. IsTrue simple ↔ IsSimpleImage image.now) }
{
    if !image.size.is_positive() {
        return Ok(false);
    }
    if !image.options.is_valid() {
        return Ok(false);
    }
    if !are_within(&image.free, image.size) {
        return Ok(false);
    }
    are_disjoint(alloc, &image.free, image.size)
}

// Whether an entry is a free box.
fn is_free(entry: &FreeBox) -> bool
    ensures { result ≡ has_width entry.now.area }
{
    entry.area.min.x < entry.area.max.x
}

// The rectangles of the free entries.
fn free_entry_areas<A: Allocator>(
    alloc: A,
    entries: &[FreeBox],
) -> Result<Vec<Rectangle, A>, AllocError>
    ensures { IfOk result (λ it. it.items ≡ free_entry_areas entries.now) }
{
    let mut areas = Vec::new(alloc);
    for entry in entries {
        if is_free(entry) {
            areas.push(entry.area)?;
        }
    }
    Ok(areas)
}

// Adds rectangles, and room for them.
fn file_areas<A: Allocator>(
    boxes: &mut FreeBoxes<A>,
    areas: &[Rectangle],
    options: &Scale,
) -> Result<(), AtlasError>
    requires exact { All (λ r. IsUnsigned r × IsNonempty (box_of r)) areas.now }
    requires kept { AreKept (options_of options.now) (box_shelf boxes.old) }
    requires used { boxes.old.used ≡ length (box_shelf boxes.old).entries }
    ensures unless { IsOkUnless result AtlasError.Memory }
    ensures kept { OnOk result (AreKept (options_of options.now) (box_shelf boxes.new)) }
    ensures boxes { OnOk result (AreSameBoxes (free_item_boxes (box_shelf boxes.new).entries)
        (map box_of areas.now ++ free_item_boxes (box_shelf boxes.old).entries)) }
    ensures used { OnOk result (boxes.new.used ≡ length (box_shelf boxes.new).entries) }
    ensures capacity { vec_capacity boxes.old.entries ≤ vec_capacity boxes.new.entries }
{
    for area in areas {
        file_area(boxes, *area, options)?;
    }
    Ok(())
}

impl<A: Allocator + Copy> SimpleAtlasAllocator<A> {
    ghost use Rattle.guillotiere.specs.SimpleStored.{UsesEachEntry, simple_state_of};

    /// The allocator as plain data. `Memory` is the only error.
    pub fn image(&self) -> Result<SimpleImage<A>, AtlasError>
        ensures unless { IsOkUnless result AtlasError.Memory }
        ensures image { IfOk result (λ it. IsImageOf it (simple_state_of self.now)) }
        ensures simple { IfOk result IsSimpleImage }
    {
        let free = free_entry_areas(*self.boxes.entries.allocator(), &self.boxes.entries)?;
        Ok(SimpleImage {
            size: self.size,
            options: self.options.plain(),
            free,
        })
    }

    /// The allocator that data describe; None if they are those of none. Later calls have the answers that they have of the allocator
    /// that the data are of, except where memory is refused. Takes time in proportion to the boxes and the digits of the width, and to
    /// sort them. `Memory` is the only error.
    pub fn from_image(alloc: A, image: &SimpleImage<A>) -> Result<Option<Self>, AtlasError>
        ensures unless { IsOkUnless result AtlasError.Memory }
        ensures accepted { IfOk result (λ found. IsSome found ↔ IsSimpleImage image.now) }
        ensures image { IfOk result (λ found. IfSome found (λ it. IsImageOf image.now (simple_state_of it))) }
        ensures entries { IfOk result (λ found. IfSome found UsesEachEntry) }
    {
        if !is_simple(alloc, image)? {
            return Ok(None);
        }
        let options = Scale::new(&image.options);
        let mut boxes = FreeBoxes::new(alloc)?;
        file_areas(&mut boxes, &image.free, &options)?;
        Ok(Some(SimpleAtlasAllocator {
            boxes,
            size: image.size,
            options,
        }))
    }
}
