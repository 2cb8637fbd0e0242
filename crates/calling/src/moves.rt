//! Rearranging an atlas, and moving the pixels of what it holds.
ghost use Rattle.std.specs.Prelude.{◌≡◌, IfOk, OnErr};
ghost use Rattle.guillotiere.specs.Boxes.{IsPositive, box_sides};
ghost use Rattle.guillotiere.specs.Pixels.{sides_of, box_of};
ghost use Rattle.guillotiere.specs.Stored.{state_of};
ghost use Rattle.guillotiere.specs.Laws.StepLaws.{IsRearrangingStep};

use guillotiere::{AtlasAllocator, AtlasError, Rectangle, Size};
use std::alloc::Allocator;

// Stands for what a texture does: it copies pixels between two rectangles of the same sides.
fn copy_pixels(old: Rectangle, new: Rectangle)
    requires { box_sides (box_of old) ≡ box_sides (box_of new) }
{
    let _both = (old, new);
}

/// Packs the atlas anew and moves the pixels of each picture; how many pictures are lost.
pub fn repack<A: Allocator + Copy>(atlas: &mut AtlasAllocator<A>) -> Result<usize, AtlasError>
    ensures step { IfOk result (λ _. (list : _) × IsRearrangingStep (state_of atlas.old) list (state_of atlas.new)) }
    ensures refused { OnErr result (atlas.new ≡ atlas.old) }
{
    let list = atlas.rearrange()?;
    for change in &list.changes {
        copy_pixels(change.old.rectangle, change.new.rectangle);
    }
    Ok(list.failures.len())
}

/// Packs what is live into another size and moves the pixels of each picture; whether nothing was lost.
pub fn resized<A: Allocator + Copy>(
    atlas: &mut AtlasAllocator<A>,
    size: Size,
) -> Result<bool, AtlasError>
    requires { IsPositive (sides_of size) }
    ensures refused { OnErr result (atlas.new ≡ atlas.old) }
{
    let list = atlas.resize_and_rearrange(size)?;
    for change in &list.changes {
        copy_pixels(change.old.rectangle, change.new.rectangle);
    }
    Ok(list.failures.is_empty())
}
