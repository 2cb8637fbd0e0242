//! Whether boxes are disjoint, by halving the slab that they lie in.
ghost use Rattle.std.specs.Prelude.{◌≡◌, ◌-ℤ◌, ◌≤ℤ◌, ◌<ℤ◌, ◌↔◌, IsTrue, true, false, All, AllPairs, IfOk, IsPermutation, map, filter, pos};
ghost use Rattle.atlas_model.specs.Boxes.{AreDisjoint, IsPositive};
ghost use Rattle.atlas_model.specs.Pixels.{box_of, natural, sides_of};
ghost use Rattle.atlas_search.specs.Rectangles.{IsSolid};
ghost use Rattle.guillotiere.specs.Apart.{AreApartIn, AreFrom, AreHalves, AreStacked, IsEndWith, IsSlab, IsSolidWithin};
ghost use Rattle.guillotiere.specs.Apart.{LiesAcross, LiesAcrossAndAlong, LiesAlong, TellsApart, is_full, is_part};

use atlas_model::{Rectangle, Size};
use std::alloc::{AllocError, Allocator};

// The columns from `low` on and before `high`.
#[derive(Clone, Copy)]
struct Slab {
    low: i32,
    high: i32,
}

// Two parts of a slab.
#[derive(Clone, Copy)]
struct Halves {
    first: Slab,
    second: Slab,
}

// Whether a box goes through a slab from side to side.
fn is_full(area: &Rectangle, slab: Slab) -> bool
    ensures { result ≡ is_full slab.low slab.high area.now }
{
    area.min.x <= slab.low && slab.high <= area.max.x
}

// Whether a box that doesn't go through a slab reaches into a part of it.
fn is_part(area: &Rectangle, slab: Slab, part: Slab) -> bool
    ensures { result ≡ is_part slab.low slab.high part.low part.high area.now }
{
    !is_full(area, slab) && area.min.x < part.high && part.low < area.max.x
}

// Whether a slab has one column.
fn is_one(slab: Slab) -> bool
    requires { IsSlab slab.low slab.high }
    ensures { IsTrue result ↔ ((slab.high -ℤ slab.low) <ℤ pos 2) }
{
    slab.high - slab.low < 2
}

// A column inside a slab of two or more.
fn middle(slab: Slab) -> i32
    requires slab { IsSlab slab.low slab.high }
    requires more { pos 2 ≤ℤ (slab.high -ℤ slab.low) }
    ensures low { slab.low <ℤ result }
    ensures high { result <ℤ slab.high }
{
    slab.low + (slab.high - slab.low) / 2
}

// A slab of two columns or more, in two.
fn halve(slab: Slab) -> Halves
    requires slab { IsSlab slab.low slab.high }
    requires more { pos 2 ≤ℤ (slab.high -ℤ slab.low) }
    ensures { AreHalves slab.low slab.high result.first.low result.first.high result.second.low result.second.high }
{
    let middle = middle(slab);
    Halves {
        first: Slab {
            low: slab.low,
            high: middle,
        },
        second: Slab {
            low: middle,
            high: slab.high,
        },
    }
}

// The slab of a whole size.
fn whole(size: Size) -> Slab
    ensures low { result.low ≡ pos 0 }
    ensures high { result.high ≡ size.width }
{
    Slab {
        low: 0,
        high: size.width,
    }
}

// Whether a box begins above the end that it has to lie below: that of all boxes before it if it goes through, otherwise that of those
// that go through.
fn is_above(area: &Rectangle, is_full: bool, all: i32, full: i32) -> bool
    ensures all { is_full ≡ true → IsTrue result ↔ (area.now.min.y <ℤ all) }
    ensures full { is_full ≡ false → IsTrue result ↔ (area.now.min.y <ℤ full) }
{
    if is_full {
        area.min.y < all
    } else {
        area.min.y < full
    }
}

// The end of some boxes and of one more, if that one counts.
fn end_with(end: i32, area: &Rectangle, counts: bool) -> i32
    ensures { IsEndWith end counts area.now result }
{
    if counts && end < area.max.y {
        area.max.y
    } else {
        end
    }
}

// Whether of boxes in this order each that goes through a slab lies below all before it, and each of the others below those before it
// that go through. It is so of disjoint boxes that come from the top down.
fn are_stacked(boxes: &[Rectangle], slab: Slab) -> bool
    requires slab { IsSlab slab.low slab.high }
    requires solid { All IsSolid boxes.now }
    ensures stacked { result ≡ true → AreStacked slab.low slab.high boxes.now }
    ensures crossed { result ≡ false → AreFrom slab.low slab.high boxes.now
        → AreApartIn (natural slab.low) (natural slab.high) (map box_of boxes.now) → ⊥ }
{
    let mut all = 0;
    let mut full = 0;
    for area in boxes {
        let is_full = is_full(area, slab);
        if is_above(area, is_full, all, full) {
            return false;
        }
        all = end_with(all, area, true);
        full = end_with(full, area, is_full);
    }
    true
}

// The boxes of a slab that don't go through it and reach into a part of it, in their order.
fn parts<A: Allocator>(
    alloc: A,
    boxes: &[Rectangle],
    slab: Slab,
    part: Slab,
) -> Result<Vec<Rectangle, A>, AllocError>
    ensures { IfOk result (λ it. it.items ≡ filter (is_part slab.low slab.high part.low part.high) boxes.now) }
{
    let mut parts = Vec::new(alloc);
    for area in boxes {
        if is_part(area, slab, part) {
            parts.push(*area)?;
        }
    }
    Ok(parts)
}

// Whether no unit square of a slab lies in two of these boxes, each of which reaches into it, in their order from the top. The slab is
// halved until each of its boxes goes through, at most 31 times.
fn are_apart_in<A: Allocator + Copy>(
    alloc: A,
    boxes: &[Rectangle],
    slab: Slab,
) -> Result<bool, AllocError>
    requires slab { IsSlab slab.low slab.high }
    requires solid { All IsSolid boxes.now }
    ensures { IfOk result (TellsApart slab.low slab.high boxes.now) }
{
    if boxes.len() < 2 {
        return Ok(true);
    }
    if !are_stacked(boxes, slab) {
        return Ok(false);
    }
    if is_one(slab) {
        return Ok(true);
    }
    let halves = halve(slab);
    let left = parts(alloc, boxes, slab, halves.first)?;
    if !are_apart_in(alloc, &left, halves.first)? {
        return Ok(false);
    }
    let right = parts(alloc, boxes, slab, halves.second)?;
    are_apart_in(alloc, &right, halves.second)
}

// Whether a box begins at the left side of a size or later, has a width, and doesn't pass the right side.
fn is_across(area: &Rectangle, size: Size) -> bool
    ensures { IsTrue result ↔ LiesAcross area.now size }
{
    area.min.x >= 0 && area.min.x < area.max.x && area.max.x <= size.width
}

// Whether a box begins at the upper side of a size or later, has a height, and doesn't pass the lower side.
fn is_along(area: &Rectangle, size: Size) -> bool
    ensures { IsTrue result ↔ LiesAlong area.now size }
{
    area.min.y >= 0 && area.min.y < area.max.y && area.max.y <= size.height
}

// Whether a box has sides above 0, and lies within a size.
fn is_within(area: &Rectangle, size: Size) -> bool
    ensures { IsTrue result ↔ LiesAcrossAndAlong area.now size }
{
    is_across(area, size) && is_along(area, size)
}

/// Whether each of these boxes has sides above 0, and lies within a size.
pub fn are_within(boxes: &[Rectangle], size: Size) -> bool
    ensures { IsTrue result ↔ All (IsSolidWithin (sides_of size)) boxes.now }
{
    for area in boxes {
        if !is_within(area, size) {
            return false;
        }
    }
    true
}

// Boxes in their order from the top.
fn in_order<A: Allocator>(alloc: A, boxes: &[Rectangle]) -> Result<Vec<Rectangle, A>, AllocError>
    ensures order { IfOk result (λ it. AllPairs (λ r s. r.min.y ≤ℤ s.min.y) it.items) }
    ensures same { IfOk result (λ it. IsPermutation boxes.now it.items) }
{
    let mut sorted = Vec::from_slice(alloc, boxes)?;
    sorted.sort_unstable_by_key(|area| area.min.y);
    Ok(sorted)
}

/// Whether boxes within a size are disjoint.
pub fn are_disjoint<A: Allocator + Copy>(
    alloc: A,
    boxes: &[Rectangle],
    size: Size,
) -> Result<bool, AllocError>
    requires size { IsPositive (sides_of size) }
    requires within { All (IsSolidWithin (sides_of size)) boxes.now }
    ensures { IfOk result (λ apart. IsTrue apart ↔ AreDisjoint (map box_of boxes.now)) }
{
    let sorted = in_order(alloc, boxes)?;
    are_apart_in(alloc, &sorted, whole(size))
}
