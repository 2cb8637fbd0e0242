//! Events: what was asked of an atlas and what it answered, with names in place of ids.
ghost use Rattle.std.specs.Prelude.{◌≡◌, IfOk, IsOkUnless};
ghost use Rattle.guillotiere_recording.specs.Events.{event_of};

use crate::error::RecordingError;
use guillotiere::{AllocId, Allocation, ChangeList, Size};
use std::alloc::{Allocator, Global};

/// One call that wasn't refused, with its answer. Every id in it is a name.
#[derive(Drop)]
#[derive_where(Debug, PartialEq)]
pub enum Event<A: Allocator + Copy = Global> {
    /// A request of this size, in pixels, and what it was granted; None if it had no room.
    Allocate(Size, Option<Allocation>),
    /// The box of this name was freed.
    Deallocate(AllocId),
    /// The atlas grew to this size, in pixels.
    Grow(Size),
    /// The atlas was rearranged.
    Rearrange(ChangeList<A>),
    /// The atlas was rearranged into this size, in pixels.
    ResizeAndRearrange(Size, ChangeList<A>),
}

impl<A: Allocator + Copy> Event<A> {
    /// A copy of the event. `Memory` is the only error.
    pub fn clone(&self) -> Result<Event<A>, RecordingError>
        ensures unless { IsOkUnless result RecordingError.Memory }
        ensures same { IfOk result (λ event. event_of event ≡ event_of self.now) }
    {
        Ok(match self {
            Event::Allocate(size, answer) => Event::Allocate(*size, *answer),
            Event::Deallocate(name) => Event::Deallocate(*name),
            Event::Grow(size) => Event::Grow(*size),
            Event::Rearrange(list) => Event::Rearrange(list.clone()?),
            Event::ResizeAndRearrange(size, list) => {
                Event::ResizeAndRearrange(*size, list.clone()?)
            }
        })
    }
}
