//! What is asked of an atlas first, so that the call after it is allowed, or its answer known.
ghost use Rattle.std.specs.Prelude.{◌≡◌, IfOk, IfSome};
ghost use Rattle.guillotiere.specs.Boxes.{IsPositive};
ghost use Rattle.guillotiere.specs.Pixels.{sides_of};
ghost use Rattle.guillotiere.specs.Stored.{state_of};

use guillotiere::{
    AllocatorOptions, AtlasAllocator, AtlasError, DEFAULT_OPTIONS, SimpleAtlasAllocator, Size,
};
use std::alloc::Allocator;

/// Whether more than half of what is free is of no use for boxes of the usual size: then it is time to rearrange.
pub fn is_worn<A: Allocator + Copy>(atlas: &AtlasAllocator<A>, usual: Size) -> bool {
    atlas.free_area() / 2 < atlas.unusable_area(usual)
}

/// The size of the largest free box, if anything is free.
pub fn largest<A: Allocator + Copy>(atlas: &AtlasAllocator<A>) -> Option<Size> {
    let free = atlas.largest_free()?;
    Some(free.size())
}

/// An atlas of any size; None where that is empty.
pub fn made<A: Allocator + Copy>(
    alloc: A,
    size: Size,
) -> Result<Option<AtlasAllocator<A>>, AtlasError> {
    if !size.is_positive() {
        return Ok(None);
    }
    Ok(Some(AtlasAllocator::new(alloc, size)?))
}

/// A simple allocator of any size and options; None where they aren't allowed.
pub fn made_simple<A: Allocator + Copy>(
    alloc: A,
    size: Size,
    options: &AllocatorOptions,
) -> Result<Option<SimpleAtlasAllocator<A>>, AtlasError> {
    if !size.is_positive() || !options.is_valid() {
        return Ok(None);
    }
    Ok(Some(SimpleAtlasAllocator::with_options(alloc, size, options)?))
}

/// Starts again, if the size and the options allow it.
pub fn started_again<A: Allocator + Copy>(
    atlas: &mut AtlasAllocator<A>,
    size: Size,
    options: &AllocatorOptions,
) -> Result<bool, AtlasError> {
    let allowed = size.is_positive() && options.is_valid();
    if allowed {
        atlas.reset(size, options)?;
    }
    Ok(allowed)
}

/// Packs what is live into a size, unless that is empty.
pub fn packed_into<A: Allocator + Copy>(
    atlas: &mut AtlasAllocator<A>,
    size: Size,
) -> Result<bool, AtlasError> {
    if !size.is_positive() {
        return Ok(false);
    }
    let _list = atlas.resize_and_rearrange(size)?;
    Ok(true)
}

/// Grows to a size, unless a side would shrink.
pub fn grown<A: Allocator + Copy>(
    atlas: &mut AtlasAllocator<A>,
    size: Size,
) -> Result<bool, AtlasError> {
    if !atlas.can_grow_to(size) {
        return Ok(false);
    }
    atlas.grow(size)?;
    Ok(true)
}

/// Grows a simple allocator to a size, unless a side would shrink.
pub fn grown_simple<A: Allocator + Copy>(
    simple: &mut SimpleAtlasAllocator<A>,
    size: Size,
) -> Result<bool, AtlasError> {
    if !simple.can_grow_to(size) {
        return Ok(false);
    }
    simple.grow(size)?;
    Ok(true)
}

/// A page like the first one: of the same size and with the same options.
pub fn page_like<A: Allocator + Copy>(
    alloc: A,
    first: &AtlasAllocator<A>,
) -> Result<AtlasAllocator<A>, AtlasError>
    ensures { IfOk result (λ it. (state_of it).options ≡ (state_of first.now).options) }
{
    AtlasAllocator::with_options(alloc, first.size(), &first.options())
}

/// A new atlas has the default options.
pub fn default_options<A: Allocator + Copy>(alloc: A, size: Size) -> Result<(), AtlasError>
    requires { IsPositive (sides_of size) }
{
    let atlas = AtlasAllocator::new(alloc, size)?;
    let options = atlas.options();
    prove!(options == DEFAULT_OPTIONS);
    Ok(())
}

/// Grants in whole cells: a side of the alignment divides, since it is above 0.
pub fn columns<A: Allocator + Copy>(atlas: &AtlasAllocator<A>) -> i32 {
    atlas.size().width / atlas.options().alignment.width
}

/// The options of a simple allocator start another one.
pub fn simple_like<A: Allocator + Copy>(
    alloc: A,
    first: &SimpleAtlasAllocator<A>,
    size: Size,
) -> Result<Option<SimpleAtlasAllocator<A>>, AtlasError> {
    if !size.is_positive() {
        return Ok(None);
    }
    let options = first.options();
    Ok(Some(SimpleAtlasAllocator::with_options(alloc, size, &options)?))
}

/// A request that has room is granted, unless memory or slots are refused.
pub fn granted<A: Allocator + Copy>(
    atlas: &mut AtlasAllocator<A>,
    size: Size,
) -> Result<(), AtlasError> {
    if atlas.can_fit(size) {
        let granted = atlas.allocate(size)?;
        prove!(granted.is_some());
    }
    Ok(())
}

/// A request that has no room is answered with None, whatever memory there is.
pub fn not_granted<A: Allocator + Copy>(atlas: &mut AtlasAllocator<A>, size: Size) {
    if !atlas.can_fit(size) {
        let granted = atlas.allocate(size);
        prove!(matches!(&granted, Ok(None)));
    }
}
