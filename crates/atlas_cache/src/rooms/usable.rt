//! How much of a page's free area is of use for entries of a size.
ghost use Rattle.std.specs.Prelude.{◌≡◌, ◌+◌, ◌*◌, ◌-◌, ◌<◌, ◌≤◌, ◌≤ℤ◌, ◌<ℤ◌, pos, length, slice_get, sum_by, IfOk, IsOkUnless, Some};
ghost use Rattle.guillotiere.specs.Boxes.{area};
ghost use Rattle.guillotiere.specs.Choice.{rounded, up};
ghost use Rattle.guillotiere.specs.Pixels.{box_of, natural, options_of};
ghost use Rattle.guillotiere.specs.States.{free_in};
ghost use Rattle.guillotiere.specs.Stored.{state_of};
ghost use Rattle.atlas_cache.specs.Asking.{bordered};
ghost use Rattle.atlas_allocator.specs.Room.{lost};
ghost use Rattle.atlas_cache.specs.Usable.{unusable_by_page};

use crate::rooms::Rooms;
use atlas_entries::error::CacheError;
use guillotiere::{AtlasAllocator, Rectangle, Size};
use std::alloc::Allocator;

// A side with the padding at both ends, rounded up to a multiple of the alignment. A side below 0 counts as 0.
fn taken_side(side: i32, padding: i32, alignment: i32) -> u64
    requires padding { pos 0 ≤ℤ padding }
    requires alignment { pos 0 <ℤ alignment }
    ensures { result ≡ up (natural side + 2 * natural padding) (natural alignment) }
{
    let asked = side.max(0) as u64 + 2 * (padding as u64);
    let step = alignment as u64;
    (asked + (step - 1)) / step * step
}

/// How far `to` lies beyond `from`, where a position below 0 counts as 0.
pub fn extent(from: i32, to: i32) -> u64
    ensures { result ≡ natural to - natural from }
{
    (to.max(0) as u64).saturating_sub(from.max(0) as u64)
}

/// How many pixels a size has. A side below 0 counts as 0.
pub fn pixels_of(size: Size) -> u64
    ensures { result ≡ natural size.width * natural size.height }
{
    extent(0, size.width) * extent(0, size.height)
}

// The area of a free rectangle, if one of these sides doesn't fit it.
fn unusable_of(free: &Rectangle, width: u64, height: u64) -> u64
    ensures { result ≡ lost (record { width = width; height = height }) (box_of free.now) }
{
    let wide = extent(free.min.x, free.max.x);
    let high = extent(free.min.y, free.max.y);
    if width <= wide && height <= high {
        return 0;
    }
    wide * high
}

// The area of several free rectangles that one of these sides doesn't fit, together.
fn unusable_sum(free: &[Rectangle], width: u64, height: u64) -> u64
    requires { sum_by (λ r. area (box_of r)) free.now < 18446744073709551616 }
    ensures { result ≡ sum_by (λ r. lost (record { width = width; height = height }) (box_of r)) free.now }
{
    let mut sum = 0;
    for at in 0..free.len() {
        sum += unusable_of(&free[at], width, height);
    }
    sum
}

// The area of a page's free rectangles that one of these sides doesn't fit.
fn unusable_on<A: Allocator + Copy>(
    page: &AtlasAllocator<A>,
    width: u64,
    height: u64,
) -> Result<u64, CacheError>
    ensures area { IfOk result (λ area. area
        ≡ sum_by (lost (record { width = width; height = height })) (free_in (state_of page.now))) }
    ensures unless { IsOkUnless result CacheError.Memory }
{
    let _all = page.free_area();
    let Ok(free) = page.free_rectangles() else {
        return Err(CacheError::Memory);
    };
    let lost = unusable_sum(&free, width, height);
    Ok(lost)
}

impl<A: Allocator + Copy> Rooms<A> {
    /// The area of a page, in pixels, that is free in rectangles which have no room for an entry of this size, with its
    /// padding and rounded up to the alignment. Requires that there is such a page. A side below 0 counts as 0. Takes memory
    /// for a list of the page's free rectangles: `Memory` if that is refused.
    pub fn unusable_area(&self, page: u32, size: Size) -> Result<u64, CacheError>
        requires { page < length self.now.pages }
        ensures area { IfOk result (λ lost. slice_get (unusable_by_page self.now.options size self.now.pages) page ≡ Some lost) }
        ensures unless { IsOkUnless result CacheError.Memory }
    {
        let options = &self.options;
        let alignment = options.atlas.alignment;
        let width = taken_side(size.width, options.padding, alignment.width);
        let height = taken_side(size.height, options.padding, alignment.height);
        unusable_on(&self.pages[page as usize], width, height)
    }
}
