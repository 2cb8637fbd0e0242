//! How tables of tests write sizes, boxes and options.

use atlas_model::{AllocatorOptions, Point, Rectangle, Size};

/// A width and a height.
pub type Sides = (i32, i32);

/// The `min` and the `max` of a box.
pub type Corners = (i32, i32, i32, i32);

pub fn size((width, height): Sides) -> Size {
    Size { width, height }
}

pub fn rectangle((left, top, right, bottom): Corners) -> Rectangle {
    Rectangle {
        min: Point { x: left, y: top },
        max: Point {
            x: right,
            y: bottom,
        },
    }
}

/// Requests are rounded up to multiples of 8.
pub const ALIGNED_TO_8: AllocatorOptions = AllocatorOptions {
    alignment: Size {
        width: 8,
        height: 8,
    },
    small_size_threshold: 32,
    large_size_threshold: 256,
};

/// Widths are rounded up to multiples of 2.
pub const ALIGNED_TO_2: AllocatorOptions = AllocatorOptions {
    alignment: Size {
        width: 2,
        height: 1,
    },
    small_size_threshold: 32,
    large_size_threshold: 256,
};
