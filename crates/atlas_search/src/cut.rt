//! How a rectangle is cut for a request that fits it.
ghost use Rattle.std.specs.Prelude.{◌≡◌, ◌≤ℤ◌, ◌*◌, [], ◌∷◌, pos};
ghost use Rattle.atlas_model.specs.Boxes.{Box, IsPositive, box_at, box_sides};
ghost use Rattle.atlas_model.specs.Cuts.{cap, cut_axis};
ghost use Rattle.atlas_model.specs.Pixels.{IsMeasurable, box_of, natural, rectangle_of, sides_of};
ghost use Rattle.atlas_search.specs.Rectangles.{FitsInto, IsRestOf, IsSolid, IsUnsigned, Tile, axis_of, back_in};
ghost use Rattle.atlas_search.specs.Rectangles.{beyond_in, flipped, front_in, granted_in, length_in, measured, rest_in};

use atlas_model::{Point, Rectangle, Size};

/// Which way members of a sequence lie next to each other.
#[derive(Clone, Copy, Debug, PartialEq, Eq, Hash)]
pub enum Orientation {
    Horizontal,
    Vertical,
}

/// The other axis.
pub fn across(axis: Orientation) -> Orientation
    ensures { result ≡ flipped axis }
{
    match axis {
        Orientation::Horizontal => Orientation::Vertical,
        Orientation::Vertical => Orientation::Horizontal,
    }
}

/// What is left of a rectangle once a request is taken from its `min`: along an axis the split, as wide across as the
/// rectangle, and next to the request the leftover. Either may be empty.
#[derive(Clone, Copy, Debug, PartialEq, Eq, Hash)]
pub struct Rest {
    pub orientation: Orientation,
    pub split: Rectangle,
    pub leftover: Rectangle,
}

// The area, or 2147483647 if it is larger.
fn capped_area(width: i32, height: i32) -> u64
    requires wide { pos 0 ≤ℤ width }
    requires high { pos 0 ≤ℤ height }
    ensures { result ≡ cap (natural width * natural height) }
{
    let area = width as u64 * height as u64;
    if area < 2147483647 { area } else { 2147483647 }
}

/// The axis on which the greater part remains, counted by areas up to 2147483647.
pub fn orientation_of(whole: Size, size: Size) -> Orientation
    requires wide { pos 0 ≤ℤ size.width }
    requires high { pos 0 ≤ℤ size.height }
    requires width { size.width ≤ℤ whole.width }
    requires height { size.height ≤ℤ whole.height }
    ensures { axis_of result ≡ cut_axis (sides_of whole) (sides_of size) }
{
    let beside = capped_area(whole.width - size.width, size.height);
    let below = capped_area(size.width, whole.height - size.height);
    if below < beside {
        Orientation::Horizontal
    } else {
        Orientation::Vertical
    }
}

// Where a request that lies at `min` ends.
fn corner_of(chosen: Rectangle, size: Size) -> Point
    requires measurable { IsMeasurable chosen }
    requires fits { FitsInto size chosen }
    ensures { result ≡ (granted_in chosen size).max }
{
    Point {
        x: chosen.min.x + size.width,
        y: chosen.min.y + size.height,
    }
}

/// The part of `chosen` that a request of this size takes: at its `min`.
pub fn granted(chosen: Rectangle, size: Size) -> Rectangle
    requires measurable { IsMeasurable chosen }
    requires fits { FitsInto size chosen }
    ensures granted { result ≡ granted_in chosen size }

    // What this is on the boxes of the model.
    ensures boxes { (f : Box) → chosen ≡ rectangle_of f → result ≡ rectangle_of (box_at f.min (sides_of size)) }
{
    Rectangle {
        min: chosen.min,
        max: corner_of(chosen, size),
    }
}

/// The size of an exact rectangle.
pub fn exact_size(area: Rectangle) -> Size
    requires { IsSolid area }
    ensures positive { IsPositive (sides_of result) }
    ensures sides { sides_of result ≡ box_sides (box_of area) }
{
    area.size()
}

/// The first `extent` pixels of a rectangle along an axis.
pub fn front(area: Rectangle, axis: Orientation, extent: i32) -> Rectangle
    requires least { pos 0 ≤ℤ extent }
    requires most { extent ≤ℤ length_in axis area }
    ensures { result ≡ front_in axis extent area }
{
    let Rectangle { min, max } = area;
    match axis {
        Orientation::Horizontal => Rectangle {
            min,
            max: Point {
                x: min.x + extent,
                y: max.y,
            },
        },
        Orientation::Vertical => Rectangle {
            min,
            max: Point {
                x: max.x,
                y: min.y + extent,
            },
        },
    }
}

/// What is left of a rectangle after the first `extent` pixels along an axis.
pub fn back(area: Rectangle, axis: Orientation, extent: i32) -> Rectangle
    requires least { pos 0 ≤ℤ extent }
    requires most { extent ≤ℤ length_in axis area }
    ensures { result ≡ back_in axis extent area }
{
    let Rectangle { min, max } = area;
    match axis {
        Orientation::Horizontal => Rectangle {
            min: Point {
                x: min.x + extent,
                y: min.y,
            },
            max,
        },
        Orientation::Vertical => Rectangle {
            min: Point {
                x: min.x,
                y: min.y + extent,
            },
            max,
        },
    }
}

/// What lies beyond a rectangle along an axis, to the far corner of a size.
pub fn beyond(area: Rectangle, axis: Orientation, size: Size) -> Rectangle
    ensures { result ≡ beyond_in axis area size }
{
    let min = match axis {
        Orientation::Horizontal => Point {
            x: area.max.x,
            y: area.min.y,
        },
        Orientation::Vertical => Point {
            x: area.min.x,
            y: area.max.y,
        },
    };
    let max = Point {
        x: size.width,
        y: size.height,
    };
    Rectangle { min, max }
}

// What is left along an axis: the leftover is cut from the strip beside the split.
fn rest_along(orientation: Orientation, chosen: Rectangle, size: Size) -> Rest
    requires { FitsInto size chosen }
    ensures { result ≡ rest_in orientation chosen size }
{
    let Size { width, height } = size;
    match orientation {
        Orientation::Horizontal => Rest {
            orientation,
            split: back(chosen, orientation, width),
            leftover: back(
                front(chosen, orientation, width),
                Orientation::Vertical,
                height,
            ),
        },
        Orientation::Vertical => Rest {
            orientation,
            split: back(chosen, orientation, height),
            leftover: back(
                front(chosen, orientation, height),
                Orientation::Horizontal,
                width,
            ),
        },
    }
}

/// What is left of `chosen` for a request of this size: along the axis on which the greater part remains, counted by
/// areas up to 2147483647.
pub fn guillotine(chosen: Rectangle, size: Size) -> Rest
    requires measurable { IsMeasurable chosen }
    requires fits { FitsInto size chosen }
    ensures axis { axis_of result.orientation ≡ cut_axis (sides_of (measured chosen)) (sides_of size) }
    ensures rest { result ≡ rest_in result.orientation chosen size }
    ensures tiling { Tile (granted_in chosen size ∷ result.split ∷ result.leftover ∷ []) chosen }

    // What this is on the boxes of the model.
    ensures boxes { (f : Box) → chosen ≡ rectangle_of f → IsRestOf f (sides_of size) result }
{
    rest_along(orientation_of(chosen.size(), size), chosen, size)
}
