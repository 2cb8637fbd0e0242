//! The calls of a recorded session, each answered by a reply.
ghost use Rattle.std.specs.Prelude.{◌≡◌, ⊤, IfOk, IsOkUnless};
ghost use Rattle.guillotiere.specs.Boxes.{IsPositive};
ghost use Rattle.guillotiere.specs.Pixels.{sides_of};
ghost use Rattle.guillotiere.specs.Steps.AtlasCall.{Rearrange, ResizeAndRearrange};
ghost use Rattle.guillotiere_recording.specs.declared.error.RecordingError.TheVariants as error;
ghost use Rattle.guillotiere_recording.specs.Events.{EventValue};
ghost use Rattle.atlas_lines.specs.Answers.{shown_by};
ghost use Rattle.atlas_lines.specs.Machine.{RecordsRequest, RecordsFreeing, RecordsGrowth, RecordsRearranging};
ghost use Rattle.atlas_lines.specs.Machine.{ShowsNames, ShowsHoles, HoldsHoles, ShowsReplay, session_in, declined_line};

use crate::replies::{Answer, ReplayCounts, Reply};
use guillotiere::{AllocId, AtlasError, Rectangle, Size};
use guillotiere_recording::{RecordingAllocator, RecordingError};
use std::alloc::Allocator;

/// The line of a refusal.
pub fn declined(error: RecordingError) -> Reply
    ensures { result ≡ declined_line error }
{
    match error {
        RecordingError::Memory => Reply::Declined(AtlasError::Memory),
        RecordingError::Slots => Reply::Declined(AtlasError::Slots),
        RecordingError::NotLive => Reply::Declined(AtlasError::NotLive),
        RecordingError::Names => Reply::NoNames,
    }
}

// The free rectangles from above to below and from left to right.
fn ordered_holes<A: Allocator + Copy>(
    session: &RecordingAllocator<A>,
) -> Result<Vec<Rectangle, A>, RecordingError>
    ensures unless { IsOkUnless result error.Memory }
    ensures list { IfOk result (λ found. HoldsHoles (session_in session.now).named.state found.items) }
{
    let mut areas = session.free_rectangles()?;
    areas.sort_by_key(|area| (area.min.y, area.min.x))?;
    Ok(areas)
}

/// Requests a rectangle.
pub fn request<A: Allocator + Copy>(session: &mut RecordingAllocator<A>, size: Size) -> Reply
    ensures { RecordsRequest (session_in session.old) size result (session_in session.new) }
{
    match session.allocate(size) {
        Ok(Some(allocation)) => Reply::Allocated(allocation),
        Ok(None) => Reply::NotPlaced,
        Err(error) => declined(error),
    }
}

/// Gives the rectangle of a name back.
pub fn give_back<A: Allocator + Copy>(session: &mut RecordingAllocator<A>, name: AllocId) -> Reply
    ensures { RecordsFreeing (session_in session.old) name result (session_in session.new) }
{
    match session.deallocate(name) {
        Ok(()) => Reply::Completed,
        Err(error) => declined(error),
    }
}

/// Makes the session's atlas larger.
pub fn grow<A: Allocator + Copy>(session: &mut RecordingAllocator<A>, new_size: Size) -> Reply
    ensures { RecordsGrowth (session_in session.old) new_size result (session_in session.new) }
{
    if !session.can_grow_to(new_size) {
        return Reply::Invalid;
    }
    match session.grow(new_size) {
        Ok(()) => Reply::Completed,
        Err(error) => declined(error),
    }
}

/// Places what is allocated anew.
pub fn rearrange<A: Allocator + Copy>(session: &mut RecordingAllocator<A>) -> Answer<A>
    ensures { RecordsRearranging (session_in session.old) Rearrange ⊤ EventValue.Rearrange (shown_by result)
        (session_in session.new) }
{
    match session.rearrange() {
        Ok(list) => Answer::ChangeLines(list),
        Err(error) => Answer::OneLine(declined(error)),
    }
}

/// Places what is allocated anew in this size.
pub fn resize<A: Allocator + Copy>(session: &mut RecordingAllocator<A>, new_size: Size) -> Answer<A>
    ensures { RecordsRearranging (session_in session.old) (ResizeAndRearrange (sides_of new_size))
        (IsPositive (sides_of new_size)) (EventValue.ResizeAndRearrange new_size) (shown_by result)
        (session_in session.new) }
{
    if !new_size.is_positive() {
        return Answer::OneLine(Reply::Invalid);
    }
    match session.resize_and_rearrange(new_size) {
        Ok(list) => Answer::ChangeLines(list),
        Err(error) => Answer::OneLine(declined(error)),
    }
}

/// Lists the live names with their rectangles.
pub fn list_live<A: Allocator + Copy>(session: &RecordingAllocator<A>) -> Answer<A>
    ensures { ShowsNames (session_in session.now) (shown_by result) }
{
    match session.allocations() {
        Ok(found) => Answer::LiveLines(found),
        Err(error) => Answer::OneLine(declined(error)),
    }
}

/// Lists the free rectangles.
pub fn list_holes<A: Allocator + Copy>(session: &RecordingAllocator<A>) -> Answer<A>
    ensures { ShowsHoles (session_in session.now).named.state (shown_by result) }
{
    match ordered_holes(session) {
        Ok(found) => Answer::HoleLines(found),
        Err(error) => Answer::OneLine(declined(error)),
    }
}

/// Ends the session, and carries out what it recorded once more.
pub fn replay<A: Allocator + Copy>(session: RecordingAllocator<A>) -> Reply
    ensures { ShowsReplay session.recording result }
{
    let recording = session.finish();
    match recording.replay() {
        Ok(stats) => Reply::Replayed(Ok(ReplayCounts {
            allocations: stats.allocations,
            deallocations: stats.deallocations,
            failed_allocations: stats.failed_allocations,
            live: stats.live.len() as u64,
        })),
        Err(fault) => Reply::Replayed(Err(fault)),
    }
}
