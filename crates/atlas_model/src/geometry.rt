//! Points, sizes and rectangles in pixels.
ghost use Rattle.std.specs.Prelude.{◌≡◌, ◌↔◌, ◌⊎◌, ◌-ℤ◌, ◌≤ℤ◌, pos, IsTrue, FitsSigned};
ghost use Rattle.std.specs.Int.{w32};
ghost use Rattle.atlas_model.specs.Boxes.{IsPositive};
ghost use Rattle.atlas_model.specs.Pixels.{IsMeasurable, sides_of};

/// A point, in pixels; y grows downwards.
#[derive(Clone, Copy, Debug, PartialEq, Eq, Hash)]
pub struct Point {
    pub x: i32,
    pub y: i32,
}

/// The size of a request, of a rectangle or of an atlas, in pixels.
#[derive(Clone, Copy, Debug, PartialEq, Eq, Hash)]
pub struct Size {
    pub width: i32,
    pub height: i32,
}

/// A rectangle: the unit squares from `min` up to, but not including, `max`.
#[derive(Clone, Copy, Debug, PartialEq, Eq, Hash)]
pub struct Rectangle {
    pub min: Point,
    pub max: Point,
}

/// The point with these coordinates.
pub fn point2(x: i32, y: i32) -> Point
    ensures { result ≡ record { x = x; y = y } }
{
    Point { x, y }
}

/// The size with these sides.
pub fn size2(width: i32, height: i32) -> Size
    ensures { result ≡ record { width = width; height = height } }
{
    Size { width, height }
}

// Whether `to - from` fits an `i32`.
fn has_length(from: i32, to: i32) -> bool
    ensures { IsTrue result ↔ FitsSigned w32 (to -ℤ from) }
{
    to.checked_sub(from).is_some()
}

impl Size {
    /// Whether a side is 0 or less.
    pub fn is_empty(&self) -> bool
        ensures { IsTrue result ↔ ((self.now.width ≤ℤ pos 0) ⊎ (self.now.height ≤ℤ pos 0)) }
    {
        self.width <= 0 || self.height <= 0
    }

    /// Whether both sides are above 0: what each allocator asks of the size that it is made with or started again at.
    pub fn is_positive(&self) -> bool
        ensures { IsTrue result ↔ IsPositive (sides_of self.now) }
    {
        self.width > 0 && self.height > 0
    }
}

impl Rectangle {
    /// Whether no unit square lies in the rectangle.
    pub fn is_empty(&self) -> bool
        ensures { IsTrue result ↔ ((self.now.max.x ≤ℤ self.now.min.x) ⊎ (self.now.max.y ≤ℤ self.now.min.y)) }
    {
        self.max.x <= self.min.x || self.max.y <= self.min.y
    }

    /// Whether `width` and `height` both fit an `i32`.
    pub fn is_measurable(&self) -> bool
        ensures { IsTrue result ↔ IsMeasurable self.now }
    {
        has_length(self.min.x, self.max.x) && has_length(self.min.y, self.max.y)
    }

    /// `max.x - min.x`, in pixels, which is negative where `max` lies left of `min`. Requires that the rectangle is
    /// measurable: `is_measurable` is the test.
    pub fn width(&self) -> i32
        requires { IsMeasurable self.now }
        ensures { result ≡ self.now.max.x -ℤ self.now.min.x }
    {
        self.max.x - self.min.x
    }

    /// `max.y - min.y`, in pixels, which is negative where `max` lies above `min`. Requires that the rectangle is
    /// measurable.
    pub fn height(&self) -> i32
        requires { IsMeasurable self.now }
        ensures { result ≡ self.now.max.y -ℤ self.now.min.y }
    {
        self.max.y - self.min.y
    }

    /// `width` and `height`. Requires that the rectangle is measurable.
    pub fn size(&self) -> Size
        requires { IsMeasurable self.now }
        ensures { result
            ≡ record { width = self.now.max.x -ℤ self.now.min.x; height = self.now.max.y -ℤ self.now.min.y } }
    {
        Size {
            width: self.width(),
            height: self.height(),
        }
    }
}

impl From<Size> for Rectangle {
    ghost use Rattle.std.specs.Prelude.{◌≡◌, pos};

    ghost from_gives = { λ size rectangle. rectangle
        ≡ record { min = record { x = pos 0; y = pos 0 }; max = record { x = size.width; y = size.height } } };

    /// The rectangle from (0, 0) to the width and the height. It is empty where a side is 0 or less, and always
    /// measurable.
    fn from(size: Size) -> Rectangle {
        Rectangle {
            min: point2(0, 0),
            max: point2(size.width, size.height),
        }
    }
}
