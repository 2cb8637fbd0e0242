//! Walks over the slots of an atlas: a look at the slot that an id names, and passes over the leaves.
ghost use Rattle.std.specs.Prelude.{◌≡◌, ◌<◌, ◌≤◌, ◌^◌, true, false, IfOk, IfSome, IfNone, IsOkUnless, length, All};
ghost use Rattle.std.specs.List.{FoldsTo};
ghost use Rattle.std.specs.Fn.{CalledAt};
ghost use Rattle.atlas_store.specs.Slots.{nodes};
ghost use Rattle.atlas_model.specs.Trees.{slot_of};
ghost use Rattle.atlas_store.specs.Slots.Numbered.{id_of};
ghost use Rattle.atlas_store.specs.Visits.{CalledAtGrant, allocated_from, free_areas, is_named};
ghost use Rattle.atlas_store.specs.Walks.{IsCallableAlong, IsCallableAlongGrants, IsShownArea};
ghost use Rattle.atlas_store.specs.Slots.Areas.{live_areas, area_sum};
ghost use Rattle.atlas_model.specs.Boxes.{area};
ghost use Rattle.atlas_model.specs.Pixels.{box_of};

use crate::slots::{NodeKind, Slot};
use atlas_model::{AllocId, Allocation, AtlasError, MOST_SLOTS, Rectangle};
use std::alloc::Allocator;

/// The id of the slot with this number in this generation.
pub fn slot_id(number: usize, generation: u8) -> AllocId
    requires { number < MOST_SLOTS }
    ensures { result ≡ id_of number generation }
{
    AllocId::deserialize(number as u32 + MOST_SLOTS * u32::from(generation))
}

/// The number of the slot that an id names.
pub fn slot_number(id: AllocId) -> u32
    ensures { result ≡ slot_of id }
{
    id.serialize() % MOST_SLOTS
}

/// The slot that an id names, if it is allocated under that id now.
pub fn named_slot(slots: &[Slot], id: AllocId) -> Option<usize>
    ensures found { IfSome result (λ at. at ≡ slot_of id) }
    ensures inside { IfSome result (λ at. at < length slots.now) }
    ensures named { IfSome result (λ at. is_named (nodes slots.now) id ≡ true) }
    ensures none { IfNone result (is_named (nodes slots.now) id ≡ false) }
{
    let at = slot_number(id) as usize;
    let slot = slots.get(at)?;
    if slot.kind == NodeKind::Alloc && u32::from(slot.generation) == id.serialize() / MOST_SLOTS {
        Some(at)
    } else {
        None
    }
}

/// Calls `visit` on each allocated slot, by rising number.
pub fn visit_allocated<F: FnMut(AllocId, &Rectangle)>(slots: &[Slot], mut visit: F)
    requires short { length slots.now ≤ MOST_SLOTS }
    requires callable { IsCallableAlongGrants F.FnMut (λ _. Unit {0}) visit (allocated_from 0 (nodes slots.now)) }
    ensures { (last : F) × FoldsTo (CalledAtGrant F.FnMut) visit (allocated_from 0 (nodes slots.now)) last }
{
    for (number, slot) in slots.iter().enumerate() {
        if slot.kind == NodeKind::Alloc {
            visit(slot_id(number, slot.generation), &slot.area);
        }
    }
}

/// Calls `visit` on the rectangle of each free slot, by rising number.
pub fn visit_free<F: FnMut(&Rectangle)>(slots: &[Slot], mut visit: F)
    requires { IsCallableAlong F.FnMut (λ _. Unit {0}) visit (free_areas (nodes slots.now)) }
    ensures { (last : F) × FoldsTo (λ p x q. CalledAt F.FnMut p x tt q) visit (free_areas (nodes slots.now)) last }
{
    for slot in slots {
        if slot.kind == NodeKind::Free {
            visit(&slot.area);
        }
    }
}

/// The allocated slots, by rising number. `Memory` is the only error.
pub fn gather_allocated<A: Allocator>(
    alloc: A,
    slots: &[Slot],
) -> Result<Vec<Allocation, A>, AtlasError>
    requires { length slots.now ≤ MOST_SLOTS }
    ensures unless { IsOkUnless result AtlasError.Memory }
    ensures list { IfOk result (λ found. found.items ≡ allocated_from 0 (nodes slots.now)) }
{
    let mut found = Vec::new(alloc);
    for (number, slot) in slots.iter().enumerate() {
        if slot.kind == NodeKind::Alloc {
            found.push(Allocation {
                id: slot_id(number, slot.generation),
                rectangle: slot.area,
            })?;
        }
    }
    Ok(found)
}

/// The rectangles of the free slots, by rising number. `Memory` is the only error.
pub fn gather_free<A: Allocator>(alloc: A, slots: &[Slot]) -> Result<Vec<Rectangle, A>, AtlasError>
    ensures unless { IsOkUnless result AtlasError.Memory }
    ensures list { IfOk result (λ found. found.items ≡ free_areas (nodes slots.now)) }
{
    let mut found = Vec::new(alloc);
    for slot in slots {
        if slot.kind == NodeKind::Free {
            found.push(slot.area)?;
        }
    }
    Ok(found)
}

// The area of a rectangle, in unit squares.
fn area_of(rectangle: &Rectangle) -> u64
    requires { IsShownArea rectangle.now }
    ensures { result ≡ area (box_of rectangle.now) }
{
    rectangle.width() as u64 * rectangle.height() as u64
}

/// The area of all free slots together, in unit squares.
pub fn free_sum(slots: &[Slot]) -> u64
    requires shown { All IsShownArea (free_areas (nodes slots.now)) }
    requires fits { area_sum (free_areas (nodes slots.now)) < 2 ^ 64 }
    ensures { result ≡ area_sum (free_areas (nodes slots.now)) }
{
    let mut sum = 0;
    for slot in slots {
        if slot.kind == NodeKind::Free {
            sum += area_of(&slot.area);
        }
    }
    sum
}

/// The area of all allocated slots together, in unit squares.
pub fn live_sum(slots: &[Slot]) -> u64
    requires shown { All IsShownArea (live_areas (nodes slots.now)) }
    requires fits { area_sum (live_areas (nodes slots.now)) < 2 ^ 64 }
    ensures { result ≡ area_sum (live_areas (nodes slots.now)) }
{
    let mut sum = 0;
    for slot in slots {
        if slot.kind == NodeKind::Alloc {
            sum += area_of(&slot.area);
        }
    }
    sum
}
