//! A recorded session taken up again: its events are carried out by a new recording allocator, which compares its answers.
ghost use Rattle.std.specs.Prelude.{◌≡◌, ◌↔◌, IfErr, IfOk, IsTrue, OnOk};
ghost use Rattle.guillotiere_recording.specs.Events.{event_of, list_value_of};
ghost use Rattle.guillotiere_recording.specs.Events.EventValue.{Allocate, Deallocate, Grow, Rearrange};
ghost use Rattle.guillotiere_recording.specs.Events.EventValue.{ResizeAndRearrange};
ghost use Rattle.guillotiere_recording.specs.Halting.{stop_of, IsHalted};
ghost use Rattle.guillotiere_recording.specs.Logs.{recording_of, with_event};

use crate::allocator::RecordingAllocator;
use crate::error::RecordingError;
use crate::event::Event;
use crate::follow::are_equal;
use crate::log::Log;
use crate::replay::{ReplayFault, fault_at};
use crate::steps::{EventFault, are_same};
use guillotiere::{AllocId, Allocation, ChangeList, Size};
use std::alloc::Allocator;

impl From<RecordingError> for EventFault {
    ghost from_gives = { λ error e. e ≡ stop_of error };

    fn from(error: RecordingError) -> EventFault {
        match error {
            RecordingError::Memory => EventFault::Memory,
            RecordingError::Slots => EventFault::Slots,
            RecordingError::NotLive | RecordingError::Names => EventFault::Bad,
        }
    }
}

impl<A: Allocator + Copy> Log<A> {
    ghost use Rattle.guillotiere_recording.specs.Recordings.{IsFaithful};
    ghost use Rattle.guillotiere_recording.specs.Resuming.{IsResumeFault};

    /// A session that carried out the events. The first fault ends it.
    pub fn resume(&self) -> Result<RecordingAllocator<A>, ReplayFault>
        ensures resumed { IfOk result (λ session. session.recording ≡ recording_of self.now) }
        ensures faithful { IfOk result IsFaithful }
        ensures fault { IfErr result (IsResumeFault (recording_of self.now)) }
    {
        let alloc = *self.events.allocator();
        let Ok(mut session) = RecordingAllocator::with_options(alloc, self.size, &self.options)
        else {
            return Err(ReplayFault::Memory);
        };
        for (at, event) in self.events.iter().enumerate() {
            let _size = session.size();
            if let Err(fault) = carry_on(&mut session, event) {
                return Err(fault_at(fault, at));
            }
        }
        let _size = session.size();
        Ok(session)
    }
}

// Carries out an event as a call, and compares its answer.
fn carry_on<A: Allocator + Copy>(
    session: &mut RecordingAllocator<A>,
    event: &Event<A>,
) -> Result<(), EventFault>
    ensures ok { OnOk result (session.new.recording ≡ with_event (event_of event.now) session.old.recording) }
    ensures fault { IfErr result (IsHalted session.old (event_of event.now)) }
{
    match event {
        Event::Allocate(size, Some(recorded)) => grant_on(session, *size, recorded),
        Event::Allocate(size, None) => deny_on(session, *size),
        Event::Deallocate(name) => Ok(session.deallocate(*name)?),
        Event::Grow(size) => grow_on(session, *size),
        Event::Rearrange(recorded) => rearrange_on(session, recorded),
        Event::ResizeAndRearrange(size, recorded) => resize_on(session, *size, recorded),
    }
}

// A request that was granted.
fn grant_on<A: Allocator + Copy>(
    session: &mut RecordingAllocator<A>,
    size: Size,
    recorded: &Allocation,
) -> Result<(), EventFault>
    ensures ok { OnOk result
        (session.new.recording ≡ with_event (Allocate size (Some recorded.now)) session.old.recording) }
    ensures fault { IfErr result (IsHalted session.old (Allocate size (Some recorded.now))) }
{
    if !session.gives(recorded.id) {
        return Err(EventFault::Bad);
    }
    match session.allocate(size)? {
        Some(granted) => {
            if !are_same(&granted.rectangle, &recorded.rectangle) {
                return Err(EventFault::Differs);
            }
            Ok(())
        }
        None => Err(EventFault::Differs),
    }
}

// A request that had no room.
fn deny_on<A: Allocator + Copy>(
    session: &mut RecordingAllocator<A>,
    size: Size,
) -> Result<(), EventFault>
    ensures ok { OnOk result (session.new.recording ≡ with_event (Allocate size None) session.old.recording) }
    ensures fault { IfErr result (IsHalted session.old (Allocate size None)) }
{
    match session.allocate(size)? {
        Some(_) => Err(EventFault::Differs),
        None => Ok(()),
    }
}

// A growth.
fn grow_on<A: Allocator + Copy>(
    session: &mut RecordingAllocator<A>,
    size: Size,
) -> Result<(), EventFault>
    ensures ok { OnOk result (session.new.recording ≡ with_event (Grow size) session.old.recording) }
    ensures fault { IfErr result (IsHalted session.old (Grow size)) }
{
    if !session.can_grow_to(size) {
        return Err(EventFault::Bad);
    }
    Ok(session.grow(size)?)
}

// A rearrangement.
fn rearrange_on<A: Allocator + Copy>(
    session: &mut RecordingAllocator<A>,
    recorded: &ChangeList<A>,
) -> Result<(), EventFault>
    ensures ok { OnOk result
        (session.new.recording ≡ with_event (Rearrange (list_value_of recorded.now)) session.old.recording) }
    ensures fault { IfErr result (IsHalted session.old (Rearrange (list_value_of recorded.now))) }
{
    let list = session.rearrange()?;
    if !are_equal(&list, recorded) {
        return Err(EventFault::Differs);
    }
    Ok(())
}

// A rearrangement into another size.
fn resize_on<A: Allocator + Copy>(
    session: &mut RecordingAllocator<A>,
    size: Size,
    recorded: &ChangeList<A>,
) -> Result<(), EventFault>
    ensures ok { OnOk result (session.new.recording
        ≡ with_event (ResizeAndRearrange size (list_value_of recorded.now)) session.old.recording) }
    ensures fault { IfErr result (IsHalted session.old (ResizeAndRearrange size (list_value_of recorded.now))) }
{
    if !size.is_positive() {
        return Err(EventFault::Bad);
    }
    let list = session.resize_and_rearrange(size)?;
    if !are_equal(&list, recorded) {
        return Err(EventFault::Differs);
    }
    Ok(())
}
