//! Repacking what is allocated: the order in which it is taken, and the placing itself.
ghost use Rattle.std.specs.Prelude.{◌≡◌, ◌-◌, All, IfErr, IfOk, IsPermutation, map};
ghost use Rattle.atlas_model.specs.Boxes.{area, box_sides};
ghost use Rattle.atlas_model.specs.Cuts.{cap};
ghost use Rattle.atlas_model.specs.Pixels.{box_of, natural, sides_of};
ghost use Rattle.atlas_model.specs.Refits.{IsRanked};
ghost use Rattle.atlas_model.specs.Replies.{AreRising, IsExact, grant_of};
ghost use Rattle.atlas_model.specs.Rearranging.{AreExactChanges, rearrangement_of};
ghost use Rattle.atlas_model.specs.Refits.Refitted.{HasExactRectangle, IsRefitOf, IsRefitRefusal};
ghost use Rattle.atlas_store.specs.Generations.{AreFirstGenerations};
ghost use Rattle.atlas_store.specs.Stored.{state_of};
ghost use Rattle.atlas_model.specs.Trees.{slot_of};

use crate::atlas::AtlasAllocator;
use atlas_model::{Allocation, AtlasError, Change, ChangeList, Rectangle, Size};
use atlas_store::slots::walks::slot_number;
use std::alloc::Allocator;
use std::cmp::Reverse;

// How far `to` lies beyond `from`, where a number below 0 counts as 0.
fn extent(from: i32, to: i32) -> u64
    ensures { result ≡ natural to - natural from }
{
    (to.max(0) as u64).saturating_sub(from.max(0) as u64)
}

// The area of an allocated rectangle, counted up to 2147483647, and its slot.
fn rank(allocation: &Allocation) -> (u64, u32)
    ensures area { result.0 ≡ cap (area (box_of allocation.now.rectangle)) }
    ensures slot { result.1 ≡ slot_of allocation.now.id }
{
    let rectangle = allocation.rectangle;
    let width = extent(rectangle.min.x, rectangle.max.x);
    let height = extent(rectangle.min.y, rectangle.max.y);
    let slot = slot_number(allocation.id);
    ((width * height).min(2147483647), slot)
}

/// Puts allocations of different slots into the order in which they are placed anew: by descending area, and by
/// descending slot where areas are equal.
pub fn sort_for_refit<A: Allocator>(boxes: &mut Vec<Allocation, A>)
    ensures permuted { IsPermutation boxes.old.items boxes.new.items }
    ensures ranked { AreRising (map grant_of boxes.old.items) → IsRanked (map grant_of boxes.new.items) }
{
    boxes.sort_unstable_by_key(|allocation| Reverse(rank(allocation)));
}

// The size of an allocated rectangle.
fn size_of_box(rectangle: Rectangle) -> Size
    requires { IsExact rectangle }
    ensures { sides_of result ≡ box_sides (box_of rectangle) }
{
    rectangle.size()
}

/// Places boxes in an atlas, in this order, and lists which were granted and which found no room. After a refusal the
/// boxes up to the refused one are placed. The failures are kept in the room of the boxes. Slots in their first
/// generations stay so.
pub fn refit<A: Allocator + Copy>(
    atlas: &mut AtlasAllocator<A>,
    order: Vec<Allocation, A>,
) -> Result<ChangeList<A>, AtlasError>
    requires exact { All HasExactRectangle order.items }
    ensures refits { IfOk result (λ list. IsRefitOf (state_of atlas.old) (map grant_of order.items)
        (rearrangement_of list) (state_of atlas.new)) }
    ensures exact { IfOk result AreExactChanges }
    ensures refused { IfErr result (IsRefitRefusal (state_of atlas.old) (map grant_of order.items)) }
    ensures first { IfOk result (λ _. AreFirstGenerations atlas.old → AreFirstGenerations atlas.new) }
{
    let mut failures = order;
    let mut changes = Vec::new(*failures.allocator());
    let mut failed = 0;
    for at in 0..failures.len() {
        let old = failures[at];
        match atlas.request(size_of_box(old.rectangle))? {
            Some(new) => changes.push(Change { old, new })?,
            None => {
                failures[failed] = old;
                failed += 1;
            }
        }
    }
    failures.truncate(failed);
    Ok(ChangeList { changes, failures })
}
