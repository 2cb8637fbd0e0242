//! Places of entries.
ghost use Rattle.std.specs.Prelude.{◌≡◌, ◌+◌, ◌<◌, ◌^◌, ◌≤ℤ◌, pos};
ghost use Rattle.guillotiere.specs.Pixels.{natural};
ghost use Rattle.atlas_cache.specs.Asking.{IsBorderedBy, inner_of, no_pixels};

use guillotiere::{Point, Rectangle, Size, point2};

/// A rectangle with no pixel.
pub const NO_PIXELS: Rectangle = Rectangle {
    min: Point { x: 0, y: 0 },
    max: Point { x: 0, y: 0 },
};

/// Where an entry lies, in pixels. A blank entry, that of a key with an empty size, lies on no page: both of its rectangles
/// are empty.
#[derive(Clone, Copy, Debug, PartialEq, Eq)]
pub struct Place {
    /// The number of the entry. It stays until the entry is gone, and no other entry has it meanwhile. Numbers of entries that
    /// are gone are given out again before new ones, which of them isn't said: so what a caller keeps of each entry fits a list
    /// of `numbers` elements.
    pub number: u32,
    /// The page, counted from 0; of a blank entry 0, also where there is no page yet.
    pub page: u32,
    /// The rectangle with its padding, which no other entry of the page overlaps. The border of a new entry shows what lay
    /// there before: it is to be cleared.
    pub rectangle: Rectangle,
    /// The rectangle that has the sides that were asked for. The padding lies to its left and above it; to its
    /// right and below it `rectangle` has the padding as well, and more where an alignment rounds up.
    pub inner: Rectangle,
}

// A position so many pixels farther.
fn moved_by(at: i32, by: i32) -> i32
    requires at { pos 0 ≤ℤ at }
    requires by { pos 0 ≤ℤ by }
    requires fits { natural at + natural by < 2 ^ 31 }
    ensures { result ≡ pos (natural at + natural by) }
{
    at + by
}

impl Place {
    /// The place of a blank entry: nothing is drawn there. Its page is 0, so that a caller who draws an empty rectangle on
    /// a page needs no case for it.
    pub fn blank(number: u32) -> Place
        ensures { result ≡ record { number = number; page = 0; rectangle = no_pixels; inner = no_pixels } }
    {
        Place {
            number,
            page: 0,
            rectangle: NO_PIXELS,
            inner: NO_PIXELS,
        }
    }

    /// The place of an entry of this size, in pixels, in a rectangle that it was given with this padding.
    pub fn new(number: u32, page: u32, rectangle: Rectangle, size: Size, padding: i32) -> Place
        requires { IsBorderedBy padding size rectangle }
        ensures { result ≡ record {
          number = number;
          page = page;
          rectangle = rectangle;
          inner = inner_of padding size rectangle;
        } }
    {
        let x = moved_by(rectangle.min.x, padding);
        let y = moved_by(rectangle.min.y, padding);
        Place {
            number,
            page,
            rectangle,
            inner: Rectangle {
                min: point2(x, y),
                max: point2(moved_by(x, size.width), moved_by(y, size.height)),
            },
        }
    }
}
