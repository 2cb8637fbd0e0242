//! What a recording allocator is asked without recording it: options, room, slots, a copy of the recording; and memory in reserve.
ghost use Rattle.std.specs.Prelude.{◌≡◌, ◌≢◌, ◌+◌, ◌^◌, ◌<◌, ◌≤◌, ◌↔◌, ◌⊎◌, IsTrue, Err, IfErr, IfOk, OnErr, OnOk, IsOkUnless};
ghost use Rattle.guillotiere.specs.Boxes.{Fits};
ghost use Rattle.guillotiere.specs.Choice.{AreValid, HasRoom};
ghost use Rattle.guillotiere.specs.Pixels.{allocator_options_of, options_of, sides_of};
ghost use Rattle.guillotiere.specs.Reserves.{HasReserve};
ghost use Rattle.guillotiere.specs.States.{free_in, used_in};
ghost use Rattle.guillotiere.specs.Stored.{state_of};
ghost use Rattle.guillotiere_recording.specs.Replays.{IsRecorded};
ghost use Rattle.guillotiere_recording.specs.Resuming.{IsOwnRecording};

use crate::allocator::RecordingAllocator;
use crate::error::RecordingError;
use crate::recording::Recording;
use guillotiere::{AllocId, AllocatorOptions, Size, SlotCount};
use std::alloc::Allocator;

impl<A: Allocator + Copy> RecordingAllocator<A> {
    /// The options of the atlas.
    pub fn options(&self) -> AllocatorOptions
        ensures options { result ≡ allocator_options_of (state_of self.now.atlas).options }
        ensures valid { AreValid (options_of result) }
    {
        self.atlas.options()
    }

    /// Whether `grow` may be called with this size, in pixels: neither side is less than the atlas's.
    pub fn can_grow_to(&self, new_size: Size) -> bool
        ensures { IsTrue result ↔ Fits (state_of self.now.atlas).size (sides_of new_size) }
    {
        self.atlas.can_grow_to(new_size)
    }

    /// Whether a request of this size, in pixels, has room, as the atlas's `can_fit` says. Takes at most one search, and no memory.
    pub fn can_fit(&self, requested_size: Size) -> bool
        ensures { IsTrue result ↔ HasRoom (free_in (state_of self.now.atlas)) (state_of self.now.atlas).options
            (sides_of requested_size) }
    {
        self.atlas.can_fit(requested_size)
    }

    /// How many slots are used, the most that were used at once since the last start, and how many may be used.
    pub fn slots(&self) -> SlotCount
        ensures used { result.used ≡ used_in (state_of self.now.atlas) }
        ensures kept { result.kept ≡ (state_of self.now.atlas).kept }
        ensures limit { result.limit ≡ (state_of self.now.atlas).limit }
    {
        self.atlas.slots()
    }

    /// Takes memory for so many slots of the atlas in addition to those in use, as the atlas's `reserve` does. It is no call
    /// that is recorded: names and events stay, and what was in reserve beside stays so. `Slots` if more slots would be used than the
    /// limit allows; `Memory` if memory for them is refused; then nothing changes at all.
    pub fn reserve(&mut self, additional: u32) -> Result<(), RecordingError>
        ensures ready { OnOk result (HasReserve additional self.new.atlas) }
        ensures capacity { self.old.atlas.capacity ≤ self.new.atlas.capacity }
        ensures state { state_of self.new.atlas ≡ state_of self.old.atlas }
        ensures recording { self.new.recording ≡ self.old.recording }
        ensures given { self.new.given ≡ self.old.given }
        ensures names { self.new.names ≡ self.old.names }
        ensures slots { (result ≡ Err RecordingError.Slots)
            ↔ ((state_of self.old.atlas).limit < used_in (state_of self.old.atlas) + additional) }
        ensures had { HasReserve additional self.old.atlas → result ≢ Err RecordingError.Memory }
        ensures only { IfErr result (λ e. (e ≡ RecordingError.Slots) ⊎ (e ≡ RecordingError.Memory)) }
        ensures refused { OnErr result (self.new ≡ self.old) }
    {
        Ok(self.atlas.reserve(additional)?)
    }

    /// A copy of what is recorded so far: what `finish` would answer. `Memory` is the only error.
    pub fn recording(&self) -> Result<Recording<A>, RecordingError>
        ensures unless { IsOkUnless result RecordingError.Memory }
        ensures same { IfOk result (λ r. r ≡ self.now.recording) }
        ensures recorded { IfOk result IsRecorded }
        ensures own { self.now.given < 2 ^ 32 → IfOk result IsOwnRecording }
    {
        Ok(Recording::from_log(self.log.clone()?))
    }

    /// A copy, which goes on by itself: its atlas stores the same, its names and its recording are equal, and so are its answers to
    /// later calls, except where memory is refused. `Memory` is the only error.
    pub fn clone(&self) -> Result<Self, RecordingError>
        ensures unless { IsOkUnless result RecordingError.Memory }
        ensures atlas { IfOk result (λ it. it.atlas.stored ≡ self.now.atlas.stored) }
        ensures names { IfOk result (λ it. it.names ≡ self.now.names) }
        ensures given { IfOk result (λ it. it.given ≡ self.now.given) }
        ensures recording { IfOk result (λ it. it.recording ≡ self.now.recording) }
    {
        let atlas = self.atlas.clone()?;
        let names = Vec::from_slice(*self.names.allocator(), &self.names)?;
        let log = self.log.clone()?;
        Ok(RecordingAllocator {
            atlas,
            names,
            given: self.given,
            log,
        })
    }

    // Whether this is the name of the next grant.
    pub(crate) fn gives(&self, name: AllocId) -> bool
        ensures same { IsTrue result ↔ (name ≡ self.now.given) }
        ensures below { IsTrue result → self.now.given < 4294967296 }
    {
        name.serialize() as u64 == self.given
    }
}
