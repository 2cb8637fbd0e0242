//! Rounded sizes, and what a search compares of the boxes that it is shown.
ghost use Rattle.std.specs.Prelude.{◌≡◌, ◌-◌, ◌<◌, ◌≤◌, pos, ◌<ℤ◌, ◌≤ℤ◌, ◌↔◌, IsTrue, SomeIff};
ghost use Rattle.atlas_model.specs.Boxes.{Fits, IsNonempty, IsPositive, box_sides};
ghost use Rattle.atlas_model.specs.Choice.{AreValid, least_margin, rounded, up};
ghost use Rattle.atlas_model.specs.Pixels.{box_of, natural, options_of, sides_of, size_of};
ghost use Rattle.atlas_search.specs.Rectangles.{IsUnsigned};
ghost use Rattle.atlas_search.specs.Requests.{CanBeRounded};

use crate::bands::Scale;
use atlas_model::{Rectangle, Size};

// The least multiple of the alignment that is at least `side`, if an `i32` can hold it.
fn rounded_side(side: i32, alignment: i32) -> Option<i32>
    requires { pos 0 <ℤ alignment }
    ensures { SomeIff result ((0 < natural side) × (up (natural side) (natural alignment) ≤ 2147483647))
        (pos (up (natural side) (natural alignment))) }
{
    if side <= 0 {
        return None;
    }
    if alignment == 1 {
        return Some(side);
    }
    let divisor = alignment as u32;
    let multiple = (side as u32 + (divisor - 1)) / divisor * divisor;
    if multiple <= 2147483647 {
        Some(multiple as i32)
    } else {
        None
    }
}

/// The size with both sides rounded up to multiples of the alignment; None if a side is 0 or less, or if a rounded side
/// passes 2147483647.
pub fn rounded(size: Size, options: &Scale) -> Option<Size>
    requires { AreValid (options_of options.now) }
    ensures { SomeIff result (CanBeRounded (options_of options.now) (sides_of size))
        (size_of (rounded (options_of options.now) (sides_of size))) }
{
    let alignment = options.plain().alignment;
    let width = rounded_side(size.width, alignment.width)?;
    let height = rounded_side(size.height, alignment.height)?;
    Some(Size { width, height })
}

// What a side leaves of a stretch, which is below 0 exactly if it does not fit.
fn spare(from: i32, to: i32, side: i32) -> i32
    requires unsigned { pos 0 ≤ℤ from }
    requires nonempty { from <ℤ to }
    requires positive { pos 0 <ℤ side }
    ensures fits { (pos 0 ≤ℤ result) ↔ (natural side ≤ natural to - natural from) }
    ensures value { pos 0 ≤ℤ result → result ≡ pos (natural to - natural from - natural side) }
{
    to - from - side
}

// The smaller of the two side differences, which is below 0 exactly if the size does not fit.
pub fn margin_in(rectangle: Rectangle, size: Size) -> i32
    requires unsigned { IsUnsigned rectangle }
    requires nonempty { IsNonempty (box_of rectangle) }
    requires positive { IsPositive (sides_of size) }
    ensures fits { (pos 0 ≤ℤ result) ↔ Fits (sides_of size) (box_sides (box_of rectangle)) }
    ensures margin { pos 0 ≤ℤ result → result ≡ pos (least_margin (sides_of size) (box_of rectangle)) }
{
    let width = spare(rectangle.min.x, rectangle.max.x, size.width);
    let height = spare(rectangle.min.y, rectangle.max.y, size.height);
    if width < height { width } else { height }
}
