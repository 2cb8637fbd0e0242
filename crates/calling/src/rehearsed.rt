//! Which box would come free, were a rectangle freed.
ghost use Rattle.std.specs.Prelude.{◌≡◌, ℕ, Bool, true, false, Contains, IfOk, IfSome};
ghost use Rattle.guillotiere.specs.Boxes.{box_sides, Fits};
ghost use Rattle.guillotiere.specs.Changes.{and_id};
ghost use Rattle.guillotiere.specs.Choice.{rounded};
ghost use Rattle.guillotiere.specs.Pixels.{box_of, sides_of};
ghost use Rattle.guillotiere.specs.States.{after_freeing, free_in, IsLive};
ghost use Rattle.guillotiere.specs.Stored.{state_of};

use guillotiere::{AllocId, AtlasAllocator, Rectangle, Size};
use std::alloc::{AllocError, Allocator};

/// The free rectangle that there would be around that of an id, were it freed, if a request fits it. Nothing is freed.
pub fn room_without<A: Allocator + Copy>(
    alloc: A,
    atlas: &AtlasAllocator<A>,
    id: AllocId,
    size: Size,
) -> Result<Option<Rectangle>, AllocError>
    requires { IsLive (state_of atlas.now) id }
    ensures free { IfOk result (λ found. IfSome found (λ area.
        Contains (free_in (after_freeing (state_of atlas.now) (and_id (λ (_ : ℕ). false) id))) (box_of area))) }
    ensures fits { IfOk result (λ found. IfSome found (λ area.
        Fits (rounded (state_of atlas.now).options (sides_of size)) (box_sides (box_of area)))) }
{
    let mut marks = Vec::new(alloc);
    marks.resize(atlas.slots().kept as usize, false)?;
    atlas.prove_none_shown(&marks);
    let area = atlas.rehearse(&mut marks, id);
    if atlas.fits(size, &area) {
        return Ok(Some(area));
    }
    Ok(None)
}
