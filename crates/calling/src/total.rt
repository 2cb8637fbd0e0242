//! Sizes from outside, of which nothing is known: an error says which condition fails.
use guillotiere::{AtlasAllocator, AtlasError, Size};
use guillotiere_total::{CallError, atlas};
use std::alloc::Allocator;

/// An atlas of any size, or why there is none.
pub fn opened<A: Allocator + Copy>(
    alloc: A,
    size: Size,
) -> Result<AtlasAllocator<A>, &'static str> {
    match atlas::new(alloc, size) {
        Ok(made) => {
            prove!(size.width > 0);
            Ok(made)
        }
        Err(CallError::EmptySize) => {
            prove!(size.width < 1 || size.height < 1);
            Err("empty")
        }
        Err(CallError::Refused(AtlasError::Memory)) => Err("no memory"),
        Err(_) => unreachable!(),
    }
}

/// Grows an atlas to any size, and says whether it did.
pub fn grown<A: Allocator + Copy>(atlas: &mut AtlasAllocator<A>, new_size: Size) -> bool {
    let size = atlas.size();
    match atlas::grow(atlas, new_size) {
        Ok(()) => {
            prove!(size.width <= new_size.width);
            true
        }
        Err(CallError::Shrinks) => {
            prove!(new_size.width < size.width || new_size.height < size.height);
            false
        }
        Err(CallError::Refused(_)) => false,
        Err(_) => unreachable!(),
    }
}
