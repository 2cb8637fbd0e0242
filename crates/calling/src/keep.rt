//! A sprite that is put into an atlas and taken out again.
ghost use Rattle.std.specs.Prelude.{◌≡◌, IfOk, IfSome, Some};
ghost use Rattle.guillotiere.specs.Callers.{KeepsLive, rectangle_in};
ghost use Rattle.guillotiere.specs.Stored.{state_of};

use guillotiere::{AllocId, AtlasAllocator, AtlasError, Rectangle, Size};
use std::alloc::Allocator;

/// Puts a sprite into an atlas. No other sprite moves.
pub fn put<A: Allocator + Copy>(
    atlas: &mut AtlasAllocator<A>,
    size: Size,
) -> Result<Option<(AllocId, Rectangle)>, AtlasError>
    ensures placed { IfOk result (λ put. IfSome put (λ sprite.
        rectangle_in (state_of atlas.new) sprite.0 ≡ Some sprite.1)) }
    ensures keeps { KeepsLive (state_of atlas.old) (state_of atlas.new) }
{
    let Some(a) = atlas.allocate(size)? else {
        return Ok(None);
    };
    Ok(Some((a.id, atlas[a.id])))
}

/// How wide a sprite is; then it is taken out.
pub fn take<A: Allocator + Copy>(atlas: &mut AtlasAllocator<A>, id: AllocId) -> Option<i32> {
    let width = atlas.get(id)?.width();
    let done = atlas.deallocate(id);
    prove!(done.is_ok() && atlas.get(id).is_none());
    Some(width)
}
