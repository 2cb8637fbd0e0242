//! How a cache is made.
ghost use Rattle.std.specs.Prelude.{◌≡◌, ◌↔◌, ◌+◌, ◌*◌, ◌<◌, ◌≤◌, pos, ◌<ℤ◌, ◌≤ℤ◌, IfErr, IsTrue, Ok, SomeIff};
ghost use Rattle.atlas_cache.specs.Asking.{AreUsable, CanStand, IsFaultIn, bordered};
ghost use Rattle.guillotiere.specs.Boxes.{Fits, IsPositive};
ghost use Rattle.guillotiere.specs.Choice.{up, AreValid};
ghost use Rattle.guillotiere.specs.Pixels.{natural, options_of, sides_of, size_of};

use crate::error::OptionsError;
use guillotiere::{AllocatorOptions, Size};

/// How a cache is made.
#[derive(Clone, Copy, Debug, PartialEq, Eq)]
pub struct CacheOptions {
    /// The size of a new page, in pixels; it isn't empty.
    pub page: Size,
    /// The size up to which pages grow, in pixels; neither side is less than that of `page`.
    pub largest_page: Size,
    /// The most pages; at least 1.
    pub pages: u32,
    /// The width of the border on all four sides of an entry, in pixels; at least 0.
    pub padding: i32,
    /// The options of each page's atlas; they are valid.
    pub atlas: AllocatorOptions,
}

// Whether neither side of a size passes that of another.
fn is_within(size: Size, other: Size) -> bool
    requires { IsPositive (sides_of size) }
    ensures { IsTrue result ↔ Fits (sides_of size) (sides_of other) }
{
    size.width <= other.width && size.height <= other.height
}

// A side with the padding at both ends, if that, rounded up to a multiple of the alignment, is at most `most`.
fn asked_side(side: i32, padding: i32, alignment: i32, most: i32) -> Option<i32>
    requires padding { pos 0 ≤ℤ padding }
    requires alignment { pos 0 <ℤ alignment }
    requires most { pos 0 ≤ℤ most }
    ensures { SomeIff result
        ((0 < natural side) × (up (natural side + 2 * natural padding) (natural alignment) ≤ natural most))
        (pos (natural side + 2 * natural padding)) }
{
    if side <= 0 {
        return None;
    }
    let asked = side as u64 + 2 * (padding as u64);
    let step = alignment as u64;
    let rounded = (asked + (step - 1)) / step * step;
    if rounded <= most as u64 {
        Some(asked as i32)
    } else {
        None
    }
}

// The least size that isn't empty.
const ONE_PIXEL: Size = Size {
    width: 1,
    height: 1,
};

impl CacheOptions {
    // What `asked` gives.
    fn asked_of(&self, size: Size) -> Option<Size>
        requires padding { pos 0 ≤ℤ self.now.padding }
        requires atlas { AreValid (options_of self.now.atlas) }
        requires largest { IsPositive (sides_of self.now.largest_page) }
        ensures { SomeIff result (CanStand self.now size) (size_of (bordered self.now size)) }
    {
        let width = asked_side(
            size.width,
            self.padding,
            self.atlas.alignment.width,
            self.largest_page.width,
        )?;
        let height = asked_side(
            size.height,
            self.padding,
            self.atlas.alignment.height,
            self.largest_page.height,
        )?;
        Some(Size { width, height })
    }

    /// Whether a cache can be made with these options: Ok, or else the first thing that is wrong, in the order of `OptionsError`.
    pub fn check(&self) -> Result<(), OptionsError>
        ensures ok { (result ≡ Ok tt) ↔ AreUsable self.now }
        ensures fault { IfErr result (IsFaultIn self.now) }
    {
        if !self.page.is_positive() {
            return Err(OptionsError::EmptyPage);
        }
        if !is_within(self.page, self.largest_page) {
            return Err(OptionsError::LargestPage);
        }
        if self.pages == 0 {
            return Err(OptionsError::NoPages);
        }
        if self.padding < 0 {
            return Err(OptionsError::Padding);
        }
        if !self.atlas.is_valid() {
            return Err(OptionsError::Atlas);
        }
        if self.asked_of(ONE_PIXEL).is_none() {
            return Err(OptionsError::NothingFits);
        }
        Ok(())
    }

    /// The size that a page is asked for, for an entry of this size: with the padding at both ends of each side, in pixels.
    /// None if the size is empty, or if an empty page of the largest size has no room for that, rounded up to the
    /// alignment of the atlas. Requires options of which `check` is Ok.
    pub fn asked(&self, size: Size) -> Option<Size>
        requires { AreUsable self.now }
        ensures { SomeIff result (CanStand self.now size) (size_of (bordered self.now size)) }
    {
        self.asked_of(size)
    }
}
