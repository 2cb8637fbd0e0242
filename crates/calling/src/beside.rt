//! Rectangles alongside those of an atlas, which stays as it is.
ghost use Rattle.std.specs.Prelude.{◌∷◌, IfOk, IfSome};
ghost use Rattle.guillotiere.specs.Boxes.{AreDisjoint};
ghost use Rattle.guillotiere.specs.Pixels.{box_of};
ghost use Rattle.guillotiere.specs.Simple.{live_boxes};
ghost use Rattle.guillotiere.specs.Stored.{state_of};

use guillotiere::{AtlasAllocator, AtlasError, Rectangle, SimpleAtlasAllocator, Size, laws, size2};
use std::alloc::Allocator;

fn unit<'a, B: Allocator>(alloc: &'a B) -> Result<SimpleAtlasAllocator<&'a B>, AtlasError> {
    SimpleAtlasAllocator::new(alloc, size2(1, 1))
}

/// A rectangle apart from all that an atlas holds live, or none.
pub fn place_beside<'a, B: Allocator>(
    alloc: &'a B,
    atlas: &AtlasAllocator<&'a B>,
    request: Size,
) -> Result<Option<Rectangle>, AtlasError>
    ensures { IfOk result (λ granted. IfSome granted (λ rectangle.
        AreDisjoint (box_of rectangle ∷ live_boxes (state_of atlas.now)))) }
{
    laws::guarded_are_disjoint();
    let mut simple = unit(alloc)?;
    simple.init_from_allocator(atlas)?;
    match simple.allocate(request) {
        Ok(Some(rectangle)) => Ok(Some(rectangle)),
        Ok(None) => Ok(None),
        Err(error) => Err(error),
    }
}
