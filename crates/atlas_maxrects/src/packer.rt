//! The packer.
ghost use Rattle.std.specs.Prelude.{◌≡◌, ◌+◌, ◌<◌, ◌≤◌, map, [], All, IfOk, IsOkUnless, OnErr};
ghost use Rattle.atlas_model.specs.Boxes.{AreDisjoint, IsPositive, IsWithin, box_at, whole_box};
ghost use Rattle.atlas_model.specs.Pixels.{box_of, sides_of};
ghost use Rattle.atlas_model.specs.Replies.{IsExact};
ghost use Rattle.atlas_model.specs.declared.error.AtlasError.TheVariants.{Memory};
ghost use Rattle.atlas_maxrects.specs.Free.{corner_position, free_box, sides_by};
ghost use Rattle.atlas_maxrects.specs.Placing.{PlacesTopmost};

use crate::corners::{Corner, best_corner};
use crate::free::{FreeBox, left_over};
use atlas_model::{AtlasError, Rectangle, Size, point2};
use std::alloc::{Allocator, Global};
use std::marker::Model;

/// A sheet in which boxes are placed one after another: each at the topmost position at which it lies in the sheet and on
/// no other, and of these at the leftmost. No box is taken back.
///
/// It keeps the boxes that it placed, and the maximal free boxes: all that may still lie in the sheet lies inside one of
/// these.
#[derive(Drop)]
pub struct TopmostPacker<A: Allocator + Copy = Global> {
    size: Size,
    free: Vec<FreeBox, A>,
    placed: Vec<Rectangle, A>,
}

impl<A: Allocator + Copy> Model for TopmostPacker<A> {
    ghost use Rattle.atlas_model.specs.Pixels.{sides_of};
    ghost use Rattle.atlas_maxrects.specs.Free.{IsStored, placing};
    ghost use Rattle.atlas_maxrects.specs.Placing.{Placing};

    ghost Value = { Placing };

    ghost view = { λ p. placing (sides_of p.size) p.placed.items };

    ghost invariant = { λ p. IsStored (sides_of p.size) p.free.items p.placed.items };
}

// The width and the height.
fn sides_in(size: Size) -> (u32, u32)
    requires { IsPositive (sides_of size) }
    ensures same { sides_by result.0 result.1 ≡ sides_of size }
    ensures wide { 0 < result.0 }
    ensures high { 0 < result.1 }
{
    (size.width as u32, size.height as u32)
}

// The box with these sides at a corner.
fn taken_at(corner: Corner, width: u32, height: u32) -> FreeBox
    requires wide { corner.x + width ≤ 2147483647 }
    requires high { corner.y + height ≤ 2147483647 }
    ensures { free_box result ≡ box_at (corner_position corner) (sides_by width height) }
{
    FreeBox {
        left: corner.x,
        top: corner.y,
        right: corner.x + width,
        bottom: corner.y + height,
    }
}

// A box of these coordinates.
fn rectangle_in(taken: FreeBox) -> Rectangle
    requires left { taken.left ≤ 2147483647 }
    requires top { taken.top ≤ 2147483647 }
    requires right { taken.right ≤ 2147483647 }
    requires bottom { taken.bottom ≤ 2147483647 }
    ensures same { box_of result ≡ free_box taken }
    ensures exact { IsExact result }
{
    Rectangle {
        min: point2(taken.left as i32, taken.top as i32),
        max: point2(taken.right as i32, taken.bottom as i32),
    }
}

// The box of a whole sheet. A side below 0 counts as 0.
fn whole(size: Size) -> FreeBox
    ensures { free_box result ≡ whole_box (sides_of size) }
{
    FreeBox {
        left: 0,
        top: 0,
        right: size.width.max(0) as u32,
        bottom: size.height.max(0) as u32,
    }
}

impl<A: Allocator + Copy> TopmostPacker<A> {
    /// A sheet of this size, in pixels, in which nothing lies. The only error is `Memory`.
    pub fn new(alloc: A, size: Size) -> Result<Self, AtlasError>
        ensures empty { IfOk result (λ it. it ≡ record { sheet = sides_of size; placed = [] }) }
        ensures unless { IsOkUnless result Memory }
    {
        let mut free = Vec::new(alloc);
        free.push(whole(size))?;
        Ok(TopmostPacker {
            size,
            free,
            placed: Vec::new(alloc),
        })
    }

    /// Places a box of this size, in pixels, at the topmost position that is free for it, and of these at the leftmost.
    /// None if the size is empty, or if the box has no room anywhere. The only error is `Memory`. Unless something is
    /// placed, nothing changes.
    pub fn place(&mut self, size: Size) -> Result<Option<Rectangle>, AtlasError>
        ensures placed { IfOk result (λ found. PlacesTopmost self.old (sides_of size) found self.new) }
        ensures refused { OnErr result (self.new ≡ self.old) }
        ensures unless { IsOkUnless result Memory }
    {
        if !size.is_positive() {
            return Ok(None);
        }
        let (width, height) = sides_in(size);
        match best_corner(&self.free, width, height) {
            None => Ok(None),
            Some(corner) => {
                let taken = taken_at(corner, width, height);
                let free = left_over(*self.free.allocator(), &self.free, taken)?;
                let rectangle = rectangle_in(taken);
                self.placed.push(rectangle)?;
                self.free = free;
                Ok(Some(rectangle))
            }
        }
    }

    /// The size of the sheet.
    pub fn size(&self) -> Size
        ensures { sides_of result ≡ self.now.sheet }
    {
        self.size
    }

    /// The boxes that were placed, the first one first. They lie in the sheet, and no pixel lies in two.
    pub fn placed(&self) -> &[Rectangle]
        ensures placed { map box_of result.now ≡ self.now.placed }
        ensures within { All (IsWithin self.now.sheet) self.now.placed }
        ensures apart { AreDisjoint self.now.placed }
        ensures exact { All IsExact result.now }
    {
        &self.placed
    }
}
