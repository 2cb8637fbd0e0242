//! Calls of a recording allocator and of a recorder.
ghost use Rattle.std.specs.Prelude.{◌≡◌, [], Err, IfErr, IfOk, OnErr, OnOk};
ghost use Rattle.guillotiere.specs.Boxes.{IsPositive};
ghost use Rattle.guillotiere.specs.Callers.{IsShortage};
ghost use Rattle.guillotiere.specs.Choice.{AreValid};
ghost use Rattle.guillotiere.specs.Pixels.{options_of, sides_of};
ghost use Rattle.guillotiere.specs.Reserves.{UsesAtMost};
ghost use Rattle.guillotiere.specs.Steps as atlas;
ghost use Rattle.guillotiere.specs.Steps.{Step};
ghost use Rattle.guillotiere.specs.Stored.{state_of};
ghost use Rattle.guillotiere_recording.specs.Events.{list_value_of};
ghost use Rattle.guillotiere_recording.specs.Events.EventValue.{Grow, ResizeAndRearrange};
ghost use Rattle.guillotiere_recording.specs.Logs.{with_event};
ghost use Rattle.guillotiere_recording.specs.Recordings.{session_of, IsNew};
ghost use Rattle.guillotiere_recording.specs.Sessions.{Leads};
ghost use Rattle.guillotiere_total.specs.Faults.{call_error, IsGrowthFault, IsOptionsFault, IsSizeFault};

use crate::conditions::{check_size, check_start};
use crate::error::CallError;
use guillotiere::{AllocatorOptions, AtlasError, ChangeList, Size};
use guillotiere_recording::{Recorder, RecordingAllocator, RecordingError};
use std::alloc::Allocator;

// A refusal; no call here lacks names.
fn refused(error: RecordingError) -> CallError
    ensures { result ≡ call_error error }
{
    CallError::Refused(match error {
        RecordingError::Memory => AtlasError::Memory,
        RecordingError::Slots | RecordingError::Names => AtlasError::Slots,
        RecordingError::NotLive => AtlasError::NotLive,
    })
}

/// `RecordingAllocator::with_options` at any size and with any options. `EmptySize`, `Alignment` or `Thresholds`; or
/// `Memory` if memory is refused.
pub fn with_options<A: Allocator + Copy>(
    alloc: A,
    size: Size,
    options: &AllocatorOptions,
) -> Result<RecordingAllocator<A>, CallError>
    ensures size { OnOk result (IsPositive (sides_of size)) }
    ensures options { OnOk result (AreValid (options_of options.now)) }
    ensures fault { IfErr result (IsOptionsFault (sides_of size) (options_of options.now)) }
    ensures new { IfOk result (IsNew size options.now) }
{
    check_start(size, options)?;
    match RecordingAllocator::with_options(alloc, size, options) {
        Ok(session) => Ok(session),
        Err(error) => Err(refused(error)),
    }
}

/// `RecordingAllocator::grow` to any size. `Shrinks`; or `Slots` or `Memory`, as `grow` says.
pub fn grow<A: Allocator + Copy>(
    session: &mut RecordingAllocator<A>,
    new_size: Size,
) -> Result<(), CallError>
    ensures recorded { OnOk result (session.new.recording ≡ with_event (Grow new_size) session.old.recording) }
    ensures led { OnOk result (Leads (session_of session.old) (Grow new_size) (session_of session.new)) }
    ensures fault { IfErr result
        (IsGrowthFault IsShortage (state_of session.old.atlas).size (sides_of new_size)) }
    ensures slots { result ≡ Err (CallError.Refused AtlasError.Slots)
        → Step (state_of session.old.atlas) (atlas.Grow (sides_of new_size))
        (atlas.Refused AtlasError.Slots) (state_of session.old.atlas) }
    ensures given { session.new.given ≡ session.old.given }
    ensures reserve { UsesAtMost 3 session.old.atlas session.new.atlas }
    ensures refused { OnErr result (session.new ≡ session.old) }
{
    if !session.can_grow_to(new_size) {
        return Err(CallError::Shrinks);
    }
    match session.grow(new_size) {
        Ok(()) => Ok(()),
        Err(error) => Err(refused(error)),
    }
}

/// `RecordingAllocator::resize_and_rearrange` to any size. `EmptySize`; or `Slots` or `Memory`, as
/// `resize_and_rearrange` says.
pub fn resize_and_rearrange<A: Allocator + Copy>(
    session: &mut RecordingAllocator<A>,
    new_size: Size,
) -> Result<ChangeList<A>, CallError>
    ensures recorded { IfOk result (λ list. session.new.recording
        ≡ with_event (ResizeAndRearrange new_size (list_value_of list)) session.old.recording) }
    ensures led { IfOk result (λ list. Leads (session_of session.old)
        (ResizeAndRearrange new_size (list_value_of list)) (session_of session.new)) }
    ensures fault { IfErr result (IsSizeFault IsShortage (sides_of new_size)) }
    ensures slots { result ≡ Err (CallError.Refused AtlasError.Slots)
        → Step (state_of session.old.atlas) (atlas.ResizeAndRearrange (sides_of new_size))
        (atlas.Refused AtlasError.Slots) (state_of session.old.atlas) }
    ensures given { session.new.given ≡ session.old.given }
    ensures refused { OnErr result (session.new ≡ session.old) }
{
    check_size(new_size)?;
    match session.resize_and_rearrange(new_size) {
        Ok(list) => Ok(list),
        Err(error) => Err(refused(error)),
    }
}

/// `Recorder::new` at any size and with any options. `EmptySize`, `Alignment` or `Thresholds`. Takes no memory.
pub fn recorder<A: Allocator + Copy>(
    alloc: A,
    size: Size,
    options: &AllocatorOptions,
) -> Result<Recorder<A>, CallError>
    ensures size { OnOk result (IsPositive (sides_of size)) }
    ensures options { OnOk result (AreValid (options_of options.now)) }
    ensures fault { IfErr result (IsOptionsFault (sides_of size) (options_of options.now)) }
    ensures new { IfOk result (λ it. it ≡ record { size = size; options = options.now; events = [] }) }
{
    check_start(size, options)?;
    Ok(Recorder::new(alloc, size, options))
}
