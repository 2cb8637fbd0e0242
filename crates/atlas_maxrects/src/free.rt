//! Free boxes: every box that may still lie in the sheet lies inside one of them.
ghost use Rattle.std.specs.Prelude.{◌≡◌, ◌↔◌, ◌⊎◌, All, Contains, IfOk, IsOkUnless, IsTrue, OnOk};
ghost use Rattle.atlas_model.specs.Boxes.{Box, IsInside, IsNonempty};
ghost use Rattle.atlas_model.specs.declared.error.AtlasError.TheVariants.{Memory};
ghost use Rattle.atlas_maxrects.specs.Free.{AddsParts, AreLeftOver, LiesInOne, free_box};
ghost use Rattle.atlas_maxrects.specs.Placing.{LieApart};

use atlas_model::AtlasError;
use std::alloc::Allocator;

/// A free box, in pixels.
#[derive(Clone, Copy)]
pub struct FreeBox {
    pub left: u32,
    pub top: u32,
    pub right: u32,
    pub bottom: u32,
}

// Whether a pixel lies in the box.
fn has_pixels(part: FreeBox) -> bool
    ensures { IsTrue result ↔ IsNonempty (free_box part) }
{
    part.left < part.right && part.top < part.bottom
}

// Whether the first box lies inside the second.
fn lies_in(part: FreeBox, whole: FreeBox) -> bool
    ensures { IsTrue result ↔ IsInside (free_box part) (free_box whole) }
{
    whole.left <= part.left
        && whole.top <= part.top
        && part.right <= whole.right
        && part.bottom <= whole.bottom
}

// Whether a pixel or more lies between two boxes.
fn is_far(one: FreeBox, other: FreeBox) -> bool
    ensures { IsTrue result → LieApart (free_box one) (free_box other) }
{
    one.right < other.left
        || other.right < one.left
        || one.bottom < other.top
        || other.bottom < one.top
}

// Whether a box lies inside one of these.
fn lies_in_one(boxes: &[FreeBox], part: FreeBox) -> bool
    ensures { IsTrue result → LiesInOne boxes.now (free_box part) }
{
    for other in boxes {
        if lies_in(part, *other) {
            return true;
        }
    }
    false
}

// Those of these boxes that don't lie inside another.
fn without<A: Allocator>(
    alloc: A,
    boxes: &[FreeBox],
    part: FreeBox,
) -> Result<Vec<FreeBox, A>, AtlasError>
    ensures kept { IfOk result (λ kept. (b : Box) → LiesInOne boxes.now b
        → LiesInOne kept.items b ⊎ IsInside b (free_box part)) }
    ensures every { IfOk result (λ kept. All (Contains boxes.now) kept.items) }
    ensures unless { IsOkUnless result Memory }
{
    let mut kept = Vec::new(alloc);
    for other in boxes {
        if !lies_in(*other, part) {
            kept.push(*other)?;
        }
    }
    Ok(kept)
}

// Adds a box in place of those inside it, unless it is empty or lies inside one that is there.
fn add<A: Allocator + Copy>(boxes: &mut Vec<FreeBox, A>, part: FreeBox) -> Result<(), AtlasError>
    ensures kept { OnOk result ((b : Box) → LiesInOne boxes.old.items b → LiesInOne boxes.new.items b) }
    ensures added { OnOk result ((b : Box) → IsNonempty b → IsInside b (free_box part)
        → LiesInOne boxes.new.items b) }
    ensures every { OnOk result (All (λ f. Contains boxes.old.items f ⊎ (f ≡ part)) boxes.new.items) }
    ensures unless { IsOkUnless result Memory }
{
    if !has_pixels(part) || lies_in_one(boxes, part) {
        return Ok(());
    }
    let mut kept = without(*boxes.allocator(), boxes, part)?;
    kept.push(part)?;
    *boxes = kept;
    Ok(())
}

// Adds what is left of a free box beside, above and below a box that is taken.
fn add_parts<A: Allocator + Copy>(
    boxes: &mut Vec<FreeBox, A>,
    whole: FreeBox,
    taken: FreeBox,
) -> Result<(), AtlasError>
    ensures parts { OnOk result (AddsParts boxes.old.items whole taken boxes.new.items) }
    ensures unless { IsOkUnless result Memory }
{
    let right = whole.right.min(taken.left);
    add(boxes, FreeBox { right, ..whole })?;
    let left = whole.left.max(taken.right);
    add(boxes, FreeBox { left, ..whole })?;
    let bottom = whole.bottom.min(taken.top);
    add(boxes, FreeBox { bottom, ..whole })?;
    let top = whole.top.max(taken.bottom);
    add(boxes, FreeBox { top, ..whole })?;
    Ok(())
}

/// What is left of free boxes where one is taken: a box that lies inside one of them, and apart from the taken one, lies
/// inside one of those that are left.
pub fn left_over<A: Allocator + Copy>(
    alloc: A,
    free: &[FreeBox],
    taken: FreeBox,
) -> Result<Vec<FreeBox, A>, AtlasError>
    ensures left { IfOk result (λ left. AreLeftOver free.now taken left.items) }
    ensures unless { IsOkUnless result Memory }
{
    let mut left = Vec::with_capacity(alloc, free.len())?;
    let mut near = Vec::new(alloc);
    for whole in free {
        if is_far(*whole, taken) {
            left.push(*whole)?;
        } else {
            add_parts(&mut near, *whole, taken)?;
        }
    }
    left.extend_from_slice(&near)?;
    Ok(left)
}
