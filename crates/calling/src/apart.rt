//! Live rectangles lie apart, within the atlas.
ghost use Rattle.std.specs.Prelude.{◌≢◌, ◌∷◌, [], IfOk, IfSome};
ghost use Rattle.guillotiere.specs.Boxes.{IsPositive, IsWithin, AreDisjoint};
ghost use Rattle.guillotiere.specs.Pixels.{sides_of, box_of};
ghost use Rattle.guillotiere.specs.States.{IsSound};
ghost use Rattle.guillotiere.specs.Stored.{state_of};
ghost use Rattle.guillotiere.specs.Callers.{RectanglesLieApart};

use guillotiere::{AllocId, AtlasAllocator, AtlasError, Rectangle, Size};
use std::alloc::Allocator;

/// The rectangles of two ids lie apart.
pub fn pair<A: Allocator + Copy>(
    atlas: &AtlasAllocator<A>,
    id: AllocId,
    other: AllocId,
) -> Option<(Rectangle, Rectangle)>
    requires { id ≢ other }
    ensures { IfSome result (λ pair. RectanglesLieApart pair.0 pair.1) }
{
    atlas.prove_sound();
    let first = atlas.get(id)?;
    let second = atlas.get(other)?;
    Some((first, second))
}

/// The rectangle of an id lies within the atlas.
pub fn inside<A: Allocator + Copy>(atlas: &AtlasAllocator<A>, id: AllocId) -> Option<Rectangle>
    ensures { IfSome result (λ rectangle. IsWithin (state_of atlas.now).size (box_of rectangle)) }
{
    atlas.get(id)
}

/// Two grants of a new atlas are disjoint. Its one answer joins the two grants to no held box.
pub fn two<A: Allocator + Copy>(
    alloc: A,
    sheet: Size,
    first: Size,
    second: Size,
) -> Result<Option<(Rectangle, Rectangle)>, AtlasError>
    requires { IsPositive (sides_of sheet) }
    ensures { IfOk result (λ found. IfSome found (λ pair. AreDisjoint (box_of pair.1 ∷ box_of pair.0 ∷ []))) }
{
    let mut atlas = AtlasAllocator::new(alloc, sheet)?;
    atlas.prove_sound();
    let Some(a) = atlas.allocate(first)? else {
        return Ok(None);
    };
    let Some(b) = atlas.allocate(second)? else {
        return Ok(None);
    };
    Ok(Some((a.rectangle, b.rectangle)))
}

/// An atlas is sound after a call, with nothing else said.
pub fn sound<A: Allocator + Copy>(
    atlas: &mut AtlasAllocator<A>,
    size: Size,
) -> Result<(), AtlasError>
    ensures { IsSound (state_of atlas.new) }
{
    let granted = atlas.allocate(size)?;
    if let Some(a) = granted {
        atlas.deallocate(a.id)?;
    }
    Ok(())
}
