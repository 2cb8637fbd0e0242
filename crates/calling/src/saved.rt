//! Allocators that are kept as plain data, and made again.
ghost use Rattle.std.specs.Prelude.{◌≡◌, ◌≢◌, None, Ok, IfOk, IfSome};
ghost use Rattle.guillotiere.specs.Stored.{state_of};

use guillotiere::{AtlasAllocator, AtlasError, SimpleAtlasAllocator};
use std::alloc::Allocator;

// What was kept of an atlas is accepted, and makes the same one again.
fn atlas_kept_and_made<A: Allocator + Copy>(
    alloc: A,
    atlas: &AtlasAllocator<A>,
) -> Result<Option<AtlasAllocator<A>>, AtlasError>
    ensures accepted { result ≢ Ok None }
    ensures same { IfOk result (λ made. IfSome made (λ it. state_of it ≡ state_of atlas.now)) }
{
    let image = atlas.image()?;
    AtlasAllocator::from_image(alloc, &image)
}

// What was kept of a simple allocator is accepted.
fn kept_and_made<A: Allocator + Copy>(
    alloc: A,
    atlas: &SimpleAtlasAllocator<A>,
) -> Result<Option<SimpleAtlasAllocator<A>>, AtlasError>
    ensures { result ≢ Ok None }
{
    let image = atlas.image()?;
    SimpleAtlasAllocator::from_image(alloc, &image)
}
