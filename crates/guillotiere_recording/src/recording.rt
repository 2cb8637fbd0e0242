//! Recordings, and recorders, which make one of events that they are given.
ghost use Rattle.std.specs.Prelude.{◌≡◌, [], ◌<◌, length, remove, OnErr, IfOk, IfErr, OnOk, IsOkUnless, map};
ghost use Rattle.guillotiere.specs.Boxes.{IsPositive};
ghost use Rattle.guillotiere.specs.Choice.{AreValid};
ghost use Rattle.guillotiere.specs.Pixels.{sides_of, options_of};
ghost use Rattle.guillotiere_recording.specs.Events.{event_of};
ghost use Rattle.guillotiere_recording.specs.Logs.{recording_of, with_event};

use crate::allocator::RecordingAllocator;
use crate::error::RecordingError;
use crate::event::Event;
use crate::log::Log;
use crate::replay::{ReplayFault, ReplayStats};
use guillotiere::{AllocatorOptions, Size};
use std::alloc::{Allocator, Global};
use std::marker::Model;
use std::mem;

/// What happened to an atlas: its size and its options when it was new, and the events since.
#[derive(Drop)]
pub struct Recording<A: Allocator + Copy = Global> {
    log: Log<A>,
}

impl<A: Allocator + Copy> Model for Recording<A> {
    ghost use Rattle.guillotiere_recording.specs.Logs.{RecordingValue, recording_of};

    ghost Value = { RecordingValue };

    ghost view = { λ r. recording_of r.log };
}

impl<A: Allocator + Copy> Recording<A> {
    ghost use Rattle.guillotiere_recording.specs.Recordings.{IsFaithful};
    ghost use Rattle.guillotiere_recording.specs.Replays.{IsRecorded, IsReplayed, IsFaultOf, MayFail};
    ghost use Rattle.guillotiere_recording.specs.Resuming.{IsOwnRecording, IsResumeFault};

    // The recording of a log.
    pub(crate) fn from_log(log: Log<A>) -> Recording<A>
        ensures { result ≡ recording_of log }
    {
        Recording { log }
    }

    /// The size of the atlas when it was new, in pixels.
    pub fn size(&self) -> Size
        ensures size { result ≡ self.now.size }
        ensures positive { IsPositive (sides_of result) }
    {
        self.log.size
    }

    /// The options of the atlas.
    pub fn options(&self) -> AllocatorOptions
        ensures options { result ≡ self.now.options }
        ensures valid { AreValid (options_of result) }
    {
        self.log.options
    }

    /// The events, in order.
    pub fn events(&self) -> &[Event<A>]
        ensures events { map event_of result.now ≡ self.now.events }
        ensures count { length result.now ≡ length self.now.events }
    {
        &self.log.events
    }

    /// Carries out the events once more, in a new atlas of the recorded size and options, and compares each answer. The
    /// first fault ends it: `BadEvent` where an event can't be carried out, which is tested before its call, because
    /// its new name is live, the name that it frees isn't, a side shrinks or a size is empty; `Differs` where the
    /// answer isn't the one that the event has; `Slots` as the atlas's; `Memory` if a request for memory is refused.
    /// Events are counted from 0.
    pub fn replay(&self) -> Result<ReplayStats<A>, ReplayFault>
        ensures replayed { IfOk result (IsReplayed self.now) }
        ensures fault { IfErr result (IsFaultOf self.now) }
        ensures recorded { IsRecorded self.now → IfErr result (MayFail self.now) }
    {
        self.log.replay()
    }

    /// A recording allocator that carried out the events as its own calls, and so goes on from where they end: its
    /// recording is this one, and the boxes of its names are those of the events. The first fault ends it: `BadEvent`
    /// where an event can't be carried out, because its new name isn't the next one (0, 1, 2, .. in the order of the
    /// grants), the name that it frees isn't live, a side shrinks or a size is empty; `Differs` where the answer isn't
    /// the one that the event has; `Slots` as the atlas's; `Memory` if a request for memory is refused. Events are
    /// counted from 0. What a recording allocator recorded fails by `Memory` alone, unless it rearranged.
    pub fn resume(&self) -> Result<RecordingAllocator<A>, ReplayFault>
        ensures resumed { IfOk result (λ session. session.recording ≡ self.now) }
        ensures faithful { IfOk result IsFaithful }
        ensures fault { IfErr result (IsResumeFault self.now) }
        ensures own { IsOwnRecording self.now → IfErr result (MayFail self.now) }
    {
        self.log.resume()
    }

    /// Removes the event with this number, counted from 0; later ones move up by one. Requires a number below that of the
    /// events. Takes no memory.
    pub fn remove_event(&mut self, at: usize)
        requires { at < length self.old.events }
        ensures { self.new ≡ record self.old { events = remove self.old.events at } }
    {
        self.log.events.remove(at);
    }

    /// A copy of the recording. `Memory` is the only error.
    pub fn clone(&self) -> Result<Recording<A>, RecordingError>
        ensures unless { IsOkUnless result RecordingError.Memory }
        ensures same { IfOk result (λ recording. recording ≡ self.now) }
        ensures recorded { IsRecorded self.now → IfOk result IsRecorded }
    {
        Ok(Recording {
            log: self.log.clone()?,
        })
    }
}

/// Makes a recording of events that it is given, whether or not they happened.
#[derive(Drop)]
pub struct Recorder<A: Allocator + Copy = Global> {
    log: Log<A>,
}

impl<A: Allocator + Copy> Model for Recorder<A> {
    ghost use Rattle.guillotiere_recording.specs.Logs.{RecordingValue, recording_of};

    ghost Value = { RecordingValue };

    ghost view = { λ r. recording_of r.log };
}

impl<A: Allocator + Copy> Recorder<A> {
    /// A recorder of an atlas of this size, in pixels, with these options, without events. Requires a size that isn't empty
    /// and valid options. Takes no memory.
    pub fn new(alloc: A, size: Size, options: &AllocatorOptions) -> Recorder<A>
        requires size { IsPositive (sides_of size) }
        requires options { AreValid (options_of options.now) }
        ensures { result ≡ record { size = size; options = options.now; events = [] } }
    {
        Recorder {
            log: Log::new(alloc, size, options),
        }
    }

    /// Appends an event. `Memory` is the only error, and then nothing changes.
    pub fn record(&mut self, event: Event<A>) -> Result<(), RecordingError>
        ensures ok { OnOk result (self.new ≡ with_event (event_of event) self.old) }
        ensures unless { IsOkUnless result RecordingError.Memory }
        ensures refused { OnErr result (self.new ≡ self.old) }
    {
        self.log.make_room()?;
        self.log.note(event);
        Ok(())
    }

    /// Takes all events out, and leaves none. Takes no memory.
    pub fn finish(&mut self) -> Recording<A>
        ensures taken { result ≡ self.old }
        ensures left { self.new ≡ record { size = self.old.size; options = self.old.options; events = [] } }
    {
        let alloc = *self.log.events.allocator();
        let events = mem::replace(&mut self.log.events, Vec::new(alloc));
        Recording {
            log: Log {
                size: self.log.size,
                options: self.log.options,
                events,
            },
        }
    }
}
