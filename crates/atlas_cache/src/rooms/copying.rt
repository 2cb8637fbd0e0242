//! Copies of the pages.
ghost use Rattle.std.specs.Prelude.{◌≡◌, IfOk};
ghost use Rattle.atlas_cache.specs.Rooms.{stored_on};

use crate::rooms::Rooms;
use guillotiere::AtlasAllocator;
use std::alloc::{AllocError, Allocator};

// A copy of each atlas.
fn copied_pages<A: Allocator + Copy>(
    pages: &[AtlasAllocator<A>],
    alloc: A,
) -> Result<Vec<AtlasAllocator<A>, A>, AllocError>
    ensures { IfOk result (λ copies. stored_on copies.items ≡ stored_on pages.now) }
{
    let mut copies = Vec::with_capacity(alloc, pages.len())?;
    for page in pages {
        let Ok(copy) = page.clone() else {
            return Err(AllocError);
        };
        copies.push(copy)?;
    }
    Ok(copies)
}

impl<A: Allocator + Copy> Rooms<A> {
    /// A copy, in new memory of the same allocator: each atlas stores the same. What pages have in reserve isn't copied.
    pub fn copy(&self) -> Result<Self, AllocError>
        ensures options { IfOk result (λ copy. copy.options ≡ self.now.options) }
        ensures stored { IfOk result (λ copy. stored_on copy.pages ≡ stored_on self.now.pages) }
    {
        let alloc = *self.pages.allocator();
        let pages = copied_pages(&self.pages, alloc)?;
        let known = Vec::from_slice(alloc, &self.known)?;
        Ok(Rooms {
            pages,
            known,
            options: self.options,
        })
    }
}
