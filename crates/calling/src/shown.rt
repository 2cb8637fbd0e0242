//! The rectangles that an atlas shows can be measured.
use guillotiere::{AllocId, AtlasAllocator, AtlasError};
use std::alloc::Allocator;

/// The width of an id's rectangle.
pub fn width<A: Allocator + Copy>(atlas: &AtlasAllocator<A>, id: AllocId) -> i32 {
    match atlas.get(id) {
        Some(rectangle) => rectangle.width(),
        None => 0,
    }
}

/// The widths of all live rectangles, added up.
pub fn widths<A: Allocator + Copy>(atlas: &AtlasAllocator<A>) -> Result<i32, AtlasError> {
    let mut sum: i32 = 0;
    for a in &atlas.allocations()? {
        sum = sum.wrapping_add(a.rectangle.width());
    }
    Ok(sum)
}

/// The height of the first live rectangle.
pub fn first_height<A: Allocator + Copy>(atlas: &AtlasAllocator<A>) -> Result<i32, AtlasError> {
    let found = atlas.allocations()?;
    if found.len() > 0 {
        return Ok(found[0].rectangle.height());
    }
    Ok(0)
}

/// The heights of all free rectangles, added up.
pub fn free_heights<A: Allocator + Copy>(atlas: &AtlasAllocator<A>) -> Result<i32, AtlasError> {
    let mut sum: i32 = 0;
    for area in &atlas.free_rectangles()? {
        sum = sum.wrapping_add(area.size().height);
    }
    Ok(sum)
}

/// The widths of all free rectangles, added up by a walk.
pub fn walked_widths<A: Allocator + Copy>(atlas: &AtlasAllocator<A>) -> i32 {
    let mut sum: i32 = 0;
    atlas.for_each_free_rectangle(|area| sum = sum.wrapping_add(area.width()));
    sum
}

/// The heights of all live rectangles, by a walk.
pub fn walked_heights<A: Allocator + Copy>(atlas: &AtlasAllocator<A>) -> i32 {
    let mut sum: i32 = 0;
    atlas.for_each_allocated_rectangle(|_id, area| sum = sum.wrapping_add(area.height()));
    sum
}
