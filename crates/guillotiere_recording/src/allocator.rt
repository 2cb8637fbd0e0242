//! The recording allocator: an atlas that hands out names in place of ids, and records its calls.
ghost use Rattle.std.specs.Prelude.{◌≡◌, ◌+◌, ◌<◌, ◌^◌, ◌↔◌, ◌⊎◌, OnErr, OnOk, IfErr, IfOk, IfSome};
ghost use Rattle.std.specs.Prelude.{IsOkUnless, List, if◌then◌else◌, None, Some, Ok, Err};
ghost use Rattle.std.specs.List.{FoldsTo};
ghost use Rattle.std.specs.Fn.{CalledAt};
ghost use Rattle.guillotiere.specs.declared.Rectangle.{Rectangle as Area};
ghost use Rattle.guillotiere.specs.declared.Allocation.{Allocation as Grant};
ghost use Rattle.guillotiere.specs.TheConstants.{DEFAULT_OPTIONS as DEFAULT};
ghost use Rattle.guillotiere.specs.declared.AtlasError.{AtlasError};
ghost use Rattle.guillotiere.specs.Boxes.{Fits, IsPositive};
ghost use Rattle.guillotiere.specs.Choice.{AreValid};
ghost use Rattle.guillotiere.specs.Pixels.{sides_of, size_of, options_of};
ghost use Rattle.guillotiere.specs.Visits.{AreFreeAreas, CalledAtGrant};
ghost use Rattle.guillotiere.specs.Walks.{IsCallableAlong, IsCallableAlongGrants, IsShownArea};
ghost use Rattle.guillotiere.specs.Reserves.{UsesAtMost};
ghost use Rattle.guillotiere.specs.States.{IsSound};
ghost use Rattle.guillotiere.specs.Steps as atlas;
ghost use Rattle.guillotiere.specs.Steps.{Step};
ghost use Rattle.guillotiere_recording.specs.Events.EventValue.{Allocate, Deallocate, Grow, Rearrange};
ghost use Rattle.guillotiere_recording.specs.Events.EventValue.{ResizeAndRearrange};
ghost use Rattle.guillotiere_recording.specs.Events.{list_value_of};
ghost use Rattle.guillotiere_recording.specs.Sessions.{IsLiveName, Leads};
ghost use Rattle.guillotiere_recording.specs.Logs.{with_event};

mod queries;

use crate::error::RecordingError;
use crate::event::Event;
use crate::log::Log;
use crate::moves::{Moved, under_names};
use crate::names::{LiveName, append, find, under_name};
use crate::recording::Recording;
use crate::walks::{gather_names, visit_names};
use guillotiere::{
    AllocId, Allocation, AllocatorOptions, AtlasAllocator, ChangeList, DEFAULT_OPTIONS, Rectangle,
    Size,
};
use std::alloc::{Allocator, Global};
use std::marker::Model;

// How many names there are.
const NAMES: u64 = 4294967296;

/// An atlas that hands out names in place of ids, and records each of its calls that isn't refused.
///
/// A name is an `AllocId` whose number is 0, 1, 2, .. in the order of the grants; none is given twice.
#[derive(Drop)]
pub struct RecordingAllocator<A: Allocator + Copy = Global> {
    atlas: AtlasAllocator<A>,
    names: Vec<LiveName, A>,
    given: u64,
    log: Log<A>,
}

impl<A: Allocator + Copy> Model for RecordingAllocator<A> {
    ghost use Rattle.guillotiere_recording.specs.Logs.{recording_of};
    ghost use Rattle.guillotiere_recording.specs.Recordings.{SessionValue, IsRecordedSession};

    ghost Value = { SessionValue };

    ghost view = { λ a.
        record { atlas = a.atlas; names = a.names.items; given = a.given; recording = recording_of a.log } };

    ghost invariant = { λ a. IsRecordedSession
        (record { atlas = a.atlas; names = a.names.items; given = a.given; recording = recording_of a.log }) };
}

impl<A: Allocator + Copy> RecordingAllocator<A> {
    ghost use Rattle.guillotiere.specs.Stored.{state_of};
    ghost use Rattle.guillotiere_recording.specs.Recordings.{IsFaithful, IsNew, AreBooked, session_of};
    ghost use Rattle.guillotiere_recording.specs.Replays.{IsRecorded};
    ghost use Rattle.guillotiere_recording.specs.Resuming.{IsOwnRecording};

    /// A recording atlas of this size, in pixels, with the default options: one free rectangle. Requires a size that isn't
    /// empty. `Memory` is the only error.
    pub fn new(alloc: A, size: Size) -> Result<Self, RecordingError>
        requires { IsPositive (sides_of size) }
        ensures unless { IsOkUnless result RecordingError.Memory }
        ensures new { IfOk result (IsNew size DEFAULT) }
    {
        RecordingAllocator::with_options(alloc, size, &DEFAULT_OPTIONS)
    }

    /// A recording atlas of this size with these options: one free rectangle. Requires a size that isn't empty and valid options.
    pub fn with_options(
        alloc: A,
        size: Size,
        options: &AllocatorOptions,
    ) -> Result<Self, RecordingError>
        requires size { IsPositive (sides_of size) }
        requires options { AreValid (options_of options.now) }
        ensures unless { IsOkUnless result RecordingError.Memory }
        ensures new { IfOk result (IsNew size options.now) }
    {
        let atlas = AtlasAllocator::with_options(alloc, size, options)?;
        Ok(RecordingAllocator {
            atlas,
            names: Vec::new(alloc),
            given: 0,
            log: Log::new(alloc, size, options),
        })
    }

    /// The size of the atlas, in pixels.
    pub fn size(&self) -> Size
        ensures size { result ≡ size_of (state_of self.now.atlas).size }
        ensures faithful { IsFaithful self.now }
        ensures sound { IsSound (state_of self.now.atlas) }
    {
        let _log = &self.log;
        self.atlas.size()
    }

    /// Grants a request as the atlas does, under a new name. `Names` for every request once all 4294967296 names were
    /// given out; None where the atlas gives None, which is recorded; `Memory` if memory for the event, for the name or for slots is
    /// refused, even where the answer would otherwise be `Slots` or None; `Slots` where the atlas gives `Slots`. At most 4
    /// more slots are used, and what is in reserve beside them stays so.
    pub fn allocate(&mut self, requested_size: Size) -> Result<Option<Allocation>, RecordingError>
        ensures recorded { IfOk result (λ answer. self.new.recording
            ≡ with_event (Allocate requested_size answer) self.old.recording) }
        ensures led { IfOk result
            (λ answer. Leads (session_of self.old) (Allocate requested_size answer) (session_of self.new)) }
        ensures given { IfOk result (λ answer. IfSome answer (λ granted. granted.id ≡ self.old.given)) }
        ensures next { IfOk result (λ answer. IfSome answer (λ _. self.new.given ≡ self.old.given + 1)) }
        ensures none { result ≡ Ok None → self.new.given ≡ self.old.given }
        ensures reserve { UsesAtMost 4 self.old.atlas self.new.atlas }
        ensures names { (result ≡ Err RecordingError.Names) ↔ (self.old.given ≡ 2 ^ 32) }
        ensures slots { result ≡ Err RecordingError.Slots
            → Step (state_of self.old.atlas) (atlas.Allocate (sides_of requested_size))
            (atlas.Refused AtlasError.Slots) (state_of self.old.atlas) }
        ensures only { IfErr result (λ e. (e ≡ RecordingError.Names) ⊎ ((e ≡ RecordingError.Slots)
            ⊎ (e ≡ RecordingError.Memory))) }
        ensures refused { OnErr result (self.new ≡ self.old) }
    {
        if self.given == NAMES {
            return Err(RecordingError::Names);
        }
        self.names.reserve(1)?;
        self.log.make_room()?;
        match self.atlas.allocate(requested_size)? {
            Some(granted) => {
                let name = self.given as u32;
                append(
                    &mut self.names,
                    LiveName {
                        name,
                        id: granted.id,
                    },
                );
                self.given += 1;
                let answer = under_name(name, &granted);
                self.log.note(Event::Allocate(requested_size, Some(answer)));
                Ok(Some(under_name(name, &granted)))
            }
            None => {
                self.log.note(Event::Allocate(requested_size, None));
                Ok(None)
            }
        }
    }

    /// Frees the box of a name. `NotLive` if the name isn't live; `Memory` only where memory for the event is refused. What
    /// is in reserve stays so.
    pub fn deallocate(&mut self, id: AllocId) -> Result<(), RecordingError>
        ensures recorded { OnOk result (self.new.recording ≡ with_event (Deallocate id) self.old.recording) }
        ensures led { OnOk result (Leads (session_of self.old) (Deallocate id) (session_of self.new)) }
        ensures not_live { (result ≡ Err RecordingError.NotLive) ↔ (IsLiveName (session_of self.old) id → ⊥) }
        ensures only { IfErr result (λ e. (e ≡ RecordingError.NotLive) ⊎ (e ≡ RecordingError.Memory)) }
        ensures given { self.new.given ≡ self.old.given }
        ensures reserve { UsesAtMost 0 self.old.atlas self.new.atlas }
        ensures refused { OnErr result (self.new ≡ self.old) }
    {
        let Some(found) = find(&self.names, id.serialize()) else {
            return Err(RecordingError::NotLive);
        };
        self.log.make_room()?;
        self.atlas.deallocate(found.id)?;
        self.names.remove(found.at);
        self.log.note(Event::Deallocate(id));
        Ok(())
    }

    /// Makes the atlas larger, as its `grow` does. Requires that neither side shrinks. `Memory` if memory for the event or
    /// for slots is refused; `Slots` as the atlas's. At most 3 more slots are used, and what is in reserve beside them stays so.
    pub fn grow(&mut self, new_size: Size) -> Result<(), RecordingError>
        requires { Fits (state_of self.old.atlas).size (sides_of new_size) }
        ensures recorded { OnOk result (self.new.recording ≡ with_event (Grow new_size) self.old.recording) }
        ensures led { OnOk result (Leads (session_of self.old) (Grow new_size) (session_of self.new)) }
        ensures slots { result ≡ Err RecordingError.Slots
            → Step (state_of self.old.atlas) (atlas.Grow (sides_of new_size))
            (atlas.Refused AtlasError.Slots) (state_of self.old.atlas) }
        ensures only { IfErr result (λ e. (e ≡ RecordingError.Slots) ⊎ (e ≡ RecordingError.Memory)) }
        ensures given { self.new.given ≡ self.old.given }
        ensures reserve { UsesAtMost 3 self.old.atlas self.new.atlas }
        ensures refused { OnErr result (self.new ≡ self.old) }
    {
        self.log.make_room()?;
        self.atlas.grow(new_size)?;
        self.log.note(Event::Grow(new_size));
        Ok(())
    }

    /// Repacks what is allocated, as the atlas's `rearrange` does. Each change has the same name in `old` and `new`; the
    /// name of a failure is no longer live. `Memory` if memory is refused; `Slots` as the atlas's.
    pub fn rearrange(&mut self) -> Result<ChangeList<A>, RecordingError>
        ensures recorded { IfOk result (λ list. self.new.recording
            ≡ with_event (Rearrange (list_value_of list)) self.old.recording) }
        ensures led { IfOk result
            (λ list. Leads (session_of self.old) (Rearrange (list_value_of list)) (session_of self.new)) }
        ensures slots { result ≡ Err RecordingError.Slots
            → Step (state_of self.old.atlas) atlas.Rearrange
            (atlas.Refused AtlasError.Slots) (state_of self.old.atlas) }
        ensures only { IfErr result (λ e. (e ≡ RecordingError.Slots) ⊎ (e ≡ RecordingError.Memory)) }
        ensures given { self.new.given ≡ self.old.given }
        ensures refused { OnErr result (self.new ≡ self.old) }
    {
        let mut atlas = self.atlas.clone()?;
        let answer = atlas.rearrange()?;
        let Moved { list, names } = under_names(*self.names.allocator(), &self.names, &answer)?;
        let event = Event::Rearrange(list.clone()?);
        self.log.make_room()?;
        self.atlas = atlas;
        self.names = names;
        self.log.note(event);
        Ok(list)
    }

    /// Repacks what is allocated into an empty atlas of this size, in pixels, as the atlas's `resize_and_rearrange`
    /// does. Requires a size that isn't empty. Each change has the same name in `old` and `new`; the name of a failure is no
    /// longer live. `Memory` if memory is refused; `Slots` as the atlas's.
    pub fn resize_and_rearrange(&mut self, new_size: Size) -> Result<ChangeList<A>, RecordingError>
        requires { IsPositive (sides_of new_size) }
        ensures recorded { IfOk result (λ list. self.new.recording
            ≡ with_event (ResizeAndRearrange new_size (list_value_of list)) self.old.recording) }
        ensures led { IfOk result
            (λ list. Leads (session_of self.old) (ResizeAndRearrange new_size (list_value_of list))
            (session_of self.new)) }
        ensures slots { result ≡ Err RecordingError.Slots
            → Step (state_of self.old.atlas) (atlas.ResizeAndRearrange (sides_of new_size))
            (atlas.Refused AtlasError.Slots) (state_of self.old.atlas) }
        ensures only { IfErr result (λ e. (e ≡ RecordingError.Slots) ⊎ (e ≡ RecordingError.Memory)) }
        ensures given { self.new.given ≡ self.old.given }
        ensures refused { OnErr result (self.new ≡ self.old) }
    {
        let mut atlas = self.atlas.clone()?;
        let answer = atlas.resize_and_rearrange(new_size)?;
        let Moved { list, names } = under_names(*self.names.allocator(), &self.names, &answer)?;
        let event = Event::ResizeAndRearrange(new_size, list.clone()?);
        self.log.make_room()?;
        self.atlas = atlas;
        self.names = names;
        self.log.note(event);
        Ok(list)
    }

    /// Calls `visit` on each free rectangle once, in an unspecified order. Requires only that `visit` may be called on them
    /// one after another in any such order: it is called with nothing else. Takes no memory.
    pub fn for_each_free_rectangle<F: FnMut(&Rectangle)>(&self, visit: F)
        requires { (areas : List Area) → AreFreeAreas (state_of self.now.atlas) areas
            → IsCallableAlong F.FnMut IsShownArea visit areas }
        ensures { (areas : List Area) × AreFreeAreas (state_of self.now.atlas) areas × ((last : F)
            × FoldsTo (λ p x q. CalledAt F.FnMut p x tt q) visit areas last) }
    {
        self.atlas.for_each_free_rectangle(visit);
    }

    /// Calls `visit` on each live name and its rectangle once, by rising name. Requires only that `visit` may be called on
    /// them in that order: it is called with nothing else. Takes no memory.
    pub fn for_each_allocated_rectangle<F: FnMut(AllocId, &Rectangle)>(&self, visit: F)
        requires { (grants : List Grant) → AreBooked self.now.recording.events grants
            → IsCallableAlongGrants F.FnMut (λ (a : Grant). IsShownArea a.rectangle) visit grants }
        ensures { (grants : List Grant) × AreBooked self.now.recording.events grants × ((last : F)
            × FoldsTo (CalledAtGrant F.FnMut) visit grants last) }
    {
        let _size = self.atlas.size();
        visit_names(&self.atlas, &self.names, visit);
    }

    /// The free rectangles, in an order that is left open. `Memory` is the only error.
    pub fn free_rectangles(&self) -> Result<Vec<Rectangle, A>, RecordingError>
        ensures unless { IsOkUnless result RecordingError.Memory }
        ensures list { IfOk result (λ found. AreFreeAreas (state_of self.now.atlas) found.items) }
    {
        Ok(self.atlas.free_rectangles()?)
    }

    /// The live names with their rectangles, by rising name. `Memory` is the only error.
    pub fn allocations(&self) -> Result<Vec<Allocation, A>, RecordingError>
        ensures unless { IsOkUnless result RecordingError.Memory }
        ensures list { IfOk result (λ found. AreBooked self.now.recording.events found.items) }
    {
        gather_names(*self.names.allocator(), &self.atlas, &self.names)
    }

    /// Ends the session. The answer is what was recorded: events of a session, so that a replay of it can fail only as
    /// a session's can. Takes no memory.
    pub fn finish(self) -> Recording<A>
        ensures taken { result ≡ self.recording }
        ensures recorded { IsRecorded result }
        ensures own { self.given < 2 ^ 32 → IsOwnRecording result }
    {
        Recording::from_log(self.log)
    }
}
