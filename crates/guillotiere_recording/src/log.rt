//! The log of events that recordings, recorders and recording allocators keep.
ghost use Rattle.std.specs.Prelude.{◌≡◌, [], ◌<◌, OnOk, IfOk, IsOkUnless, vec_len, vec_capacity};
ghost use Rattle.guillotiere.specs.Boxes.{IsPositive};
ghost use Rattle.guillotiere.specs.Choice.{AreValid};
ghost use Rattle.guillotiere.specs.Pixels.{sides_of, options_of};

use crate::error::RecordingError;
use crate::event::Event;
use crate::names::append;
use guillotiere::{AllocatorOptions, Size};
use std::alloc::Allocator;

/// The size and the options of an atlas when it was new, and what happened since.
#[derive(Drop)]
pub struct Log<A: Allocator + Copy> {
    pub size: Size,
    pub options: AllocatorOptions,
    pub events: Vec<Event<A>, A>,
    pub ghost nonempty: { IsPositive (sides_of size) },
    pub ghost valid: { AreValid (options_of options) },
}

impl<A: Allocator + Copy> Log<A> {
    ghost use Rattle.guillotiere_recording.specs.Events.{event_of};
    ghost use Rattle.guillotiere_recording.specs.Logs.{recording_of, with_event};

    /// A log without events. Takes no memory.
    pub fn new(alloc: A, size: Size, options: &AllocatorOptions) -> Log<A>
        requires size { IsPositive (sides_of size) }
        requires options { AreValid (options_of options.now) }
        ensures { recording_of result ≡ record { size = size; options = options.now; events = [] } }
    {
        Log {
            size,
            options: *options,
            events: Vec::new(alloc),
        }
    }

    /// Makes room for one event more. `Memory` is the only error.
    pub fn make_room(&mut self) -> Result<(), RecordingError>
        ensures same { recording_of self.new ≡ recording_of self.old }
        ensures unless { IsOkUnless result RecordingError.Memory }
        ensures room { OnOk result (vec_len self.new.events < vec_capacity self.new.events) }
    {
        self.events.reserve(1)?;
        Ok(())
    }

    /// Appends an event, for which there is room.
    pub fn note(&mut self, event: Event<A>)
        requires { vec_len self.old.events < vec_capacity self.old.events }
        ensures { recording_of self.new ≡ with_event (event_of event) (recording_of self.old) }
    {
        append(&mut self.events, event);
    }

    /// A copy of the log. `Memory` is the only error.
    pub fn clone(&self) -> Result<Log<A>, RecordingError>
        ensures unless { IsOkUnless result RecordingError.Memory }
        ensures same { IfOk result (λ log. recording_of log ≡ recording_of self.now) }
    {
        let mut events = Vec::new(*self.events.allocator());
        for event in &self.events {
            events.push(event.clone()?)?;
        }
        Ok(Log {
            size: self.size,
            options: self.options,
            events,
        })
    }
}
