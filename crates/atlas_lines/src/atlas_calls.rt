//! The calls of an atlas, each answered by a reply.
ghost use Rattle.std.specs.Prelude.{IfOk, IsOkUnless};
ghost use Rattle.std.specs.Result.{ForOk};
ghost use Rattle.guillotiere.specs.declared.AtlasError.TheVariants as error;
ghost use Rattle.guillotiere.specs.Pixels.{sides_of};
ghost use Rattle.guillotiere.specs.Rearranging.{AreExactChanges, change_reply};
ghost use Rattle.guillotiere.specs.Steps.AtlasCall.{Allocate, Deallocate, Grow, Clear, Rearrange, ResizeAndRearrange};
ghost use Rattle.guillotiere.specs.Stored.{state_of};
ghost use Rattle.atlas_lines.specs.Answers.{shown_by};
ghost use Rattle.atlas_lines.specs.Machine.{AnswersCall, AnswersRearranging, ShowsRearranging, ShowsLive, ShowsHoles};
ghost use Rattle.atlas_lines.specs.Machine.{HoldsHoles};

use crate::replies::{Answer, Reply};
use guillotiere::{AllocId, AtlasAllocator, AtlasError, ChangeList, Rectangle, Size};
use std::alloc::Allocator;

// The free rectangles from above to below and from left to right.
fn ordered_holes<A: Allocator + Copy>(
    atlas: &AtlasAllocator<A>,
) -> Result<Vec<Rectangle, A>, AtlasError>
    ensures unless { IsOkUnless result error.Memory }
    ensures list { IfOk result (λ found. HoldsHoles (state_of atlas.now) found.items) }
{
    let mut areas = atlas.free_rectangles()?;
    areas.sort_by_key(|area| (area.min.y, area.min.x))?;
    Ok(areas)
}

// The lines of what a rearrangement answers.
fn answer_changes<A: Allocator + Copy>(changed: Result<ChangeList<A>, AtlasError>) -> Answer<A>
    requires { ForOk changed AreExactChanges }
    ensures { ShowsRearranging (change_reply changed) (shown_by result) }
{
    match changed {
        Ok(list) => Answer::ChangeLines(list),
        Err(error) => Answer::OneLine(Reply::Declined(error)),
    }
}

/// Requests a rectangle.
pub fn request<A: Allocator + Copy>(atlas: &mut AtlasAllocator<A>, size: Size) -> Reply
    ensures { AnswersCall (state_of atlas.old) (Allocate (sides_of size)) result (state_of atlas.new) }
{
    match atlas.allocate(size) {
        Ok(Some(allocation)) => Reply::Allocated(allocation),
        Ok(None) => Reply::NotPlaced,
        Err(error) => Reply::Declined(error),
    }
}

/// Gives a rectangle back.
pub fn give_back<A: Allocator + Copy>(atlas: &mut AtlasAllocator<A>, id: AllocId) -> Reply
    ensures { AnswersCall (state_of atlas.old) (Deallocate id) result (state_of atlas.new) }
{
    match atlas.deallocate(id) {
        Ok(()) => Reply::Completed,
        Err(error) => Reply::Declined(error),
    }
}

/// Makes the atlas larger.
pub fn grow<A: Allocator + Copy>(atlas: &mut AtlasAllocator<A>, new_size: Size) -> Reply
    ensures { AnswersCall (state_of atlas.old) (Grow (sides_of new_size)) result (state_of atlas.new) }
{
    if !atlas.can_grow_to(new_size) {
        return Reply::Invalid;
    }
    match atlas.grow(new_size) {
        Ok(()) => Reply::Completed,
        Err(error) => Reply::Declined(error),
    }
}

/// Makes the atlas one free rectangle again.
pub fn clear<A: Allocator + Copy>(atlas: &mut AtlasAllocator<A>) -> Reply
    ensures { AnswersCall (state_of atlas.old) Clear result (state_of atlas.new) }
{
    match atlas.clear() {
        Ok(()) => Reply::Completed,
        Err(error) => Reply::Declined(error),
    }
}

/// Places what is allocated anew.
pub fn rearrange<A: Allocator + Copy>(atlas: &mut AtlasAllocator<A>) -> Answer<A>
    ensures { AnswersRearranging (state_of atlas.old) Rearrange (shown_by result) (state_of atlas.new) }
{
    answer_changes(atlas.rearrange())
}

/// Places what is allocated anew in this size.
pub fn resize<A: Allocator + Copy>(atlas: &mut AtlasAllocator<A>, new_size: Size) -> Answer<A>
    ensures { AnswersRearranging (state_of atlas.old) (ResizeAndRearrange (sides_of new_size)) (shown_by result)
        (state_of atlas.new) }
{
    if !new_size.is_positive() {
        return Answer::OneLine(Reply::Invalid);
    }
    answer_changes(atlas.resize_and_rearrange(new_size))
}

/// Lists the allocated rectangles.
pub fn list_live<A: Allocator + Copy>(atlas: &AtlasAllocator<A>) -> Answer<A>
    ensures { ShowsLive (state_of atlas.now) (shown_by result) }
{
    match atlas.allocations() {
        Ok(found) => Answer::LiveLines(found),
        Err(error) => Answer::OneLine(Reply::Declined(error)),
    }
}

/// Lists the free rectangles.
pub fn list_holes<A: Allocator + Copy>(atlas: &AtlasAllocator<A>) -> Answer<A>
    ensures { ShowsHoles (state_of atlas.now) (shown_by result) }
{
    match ordered_holes(atlas) {
        Ok(found) => Answer::HoleLines(found),
        Err(error) => Answer::OneLine(Reply::Declined(error)),
    }
}
