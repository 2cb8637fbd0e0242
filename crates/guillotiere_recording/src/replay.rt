//! Replays: the events of a recording, carried out once more in a new atlas and compared answer by answer.
ghost use Rattle.std.specs.Prelude.{◌≡◌, IfOk, IfErr, IsOkUnless, count_by};
ghost use Rattle.guillotiere_recording.specs.Standing.{fault_of};

use crate::error::RecordingError;
use crate::event::Event;
use crate::log::Log;
use crate::steps::{EventFault, carry_out, gather_live};
use guillotiere::{AllocId, Allocation, AtlasAllocator};
use std::alloc::{AllocError, Allocator, Global};
use std::collections::BTreeMap;
use thiserror::Error;

/// Why a recording wasn't replayed to its end.
#[derive(Clone, Copy, Debug, PartialEq, Eq, Error)]
pub enum ReplayFault {
    /// A request for memory was refused.
    #[error("no memory")]
    Memory,
    /// More slots would be used than an atlas may use.
    #[error("no slot left")]
    Slots,
    /// The event with this number, counted from 0, has a different answer from the one that the atlas gives.
    #[error("event {0} differs")]
    Differs(usize),
    /// The event with this number, counted from 0, can't be carried out.
    #[error("event {0} is bad")]
    BadEvent(usize),
}

impl From<AllocError> for ReplayFault {
    ghost use Rattle.guillotiere_recording.specs.declared.replay.ReplayFault.TheVariants.{Memory};

    ghost from_gives = { λ _ e. e ≡ Memory };

    fn from(_error: AllocError) -> ReplayFault {
        ReplayFault::Memory
    }
}

/// What a replay saw: how many grants, freeings and failed requests, and what is live at its end, by rising name.
#[derive(Drop)]
#[derive_where(Debug, PartialEq)]
pub struct ReplayStats<A: Allocator + Copy = Global> {
    /// How many requests were granted.
    pub allocations: u64,
    /// How many boxes were freed.
    pub deallocations: u64,
    /// How many requests had no room.
    pub failed_allocations: u64,
    /// The live names with their rectangles, in pixels, by rising name.
    pub live: Vec<Allocation, A>,
}

impl<A: Allocator + Copy> ReplayStats<A> {
    /// A copy of what a replay counted. `Memory` is the only error.
    pub fn clone(&self) -> Result<ReplayStats<A>, RecordingError>
        ensures unless { IsOkUnless result RecordingError.Memory }
        ensures allocations { IfOk result (λ stats. stats.allocations ≡ self.now.allocations) }
        ensures deallocations { IfOk result (λ stats. stats.deallocations ≡ self.now.deallocations) }
        ensures failed { IfOk result (λ stats. stats.failed_allocations ≡ self.now.failed_allocations) }
        ensures live { IfOk result (λ stats. stats.live.items ≡ self.now.live.items) }
    {
        Ok(ReplayStats {
            allocations: self.allocations,
            deallocations: self.deallocations,
            failed_allocations: self.failed_allocations,
            live: Vec::from_slice(*self.live.allocator(), &self.live)?,
        })
    }
}

impl<A: Allocator + Copy> Event<A> {
    ghost use Rattle.guillotiere_recording.specs.Events.{event_of};
    ghost use Rattle.guillotiere_recording.specs.Replays.{is_granted_event, is_freeing, is_failed_request};

    // Whether a request was granted.
    fn is_a_grant(&self) -> bool
        ensures { result ≡ is_granted_event (event_of self.now) }
    {
        match self {
            Event::Allocate(_, Some(_)) => true,
            _ => false,
        }
    }

    // Whether a box was freed.
    fn is_a_freeing(&self) -> bool
        ensures { result ≡ is_freeing (event_of self.now) }
    {
        match self {
            Event::Deallocate(_) => true,
            _ => false,
        }
    }

    // Whether a request had no room.
    fn is_a_failed_request(&self) -> bool
        ensures { result ≡ is_failed_request (event_of self.now) }
    {
        match self {
            Event::Allocate(_, None) => true,
            _ => false,
        }
    }
}

impl<A: Allocator + Copy> Log<A> {
    ghost use Rattle.guillotiere_recording.specs.Events.{event_of};
    ghost use Rattle.guillotiere_recording.specs.Logs.{recording_of};
    ghost use Rattle.guillotiere_recording.specs.Replays.{IsReplayed, IsFaultOf};
    ghost use Rattle.guillotiere_recording.specs.Replays.{is_granted_event, is_freeing, is_failed_request};

    // How many requests were granted.
    fn grants(&self) -> u64
        ensures { result ≡ count_by (λ event. is_granted_event (event_of event)) self.now.events.items }
    {
        self.events
            .iter()
            .filter(|event| event.is_a_grant())
            .count() as u64
    }

    // How many boxes were freed.
    fn freeings(&self) -> u64
        ensures { result ≡ count_by (λ event. is_freeing (event_of event)) self.now.events.items }
    {
        self.events
            .iter()
            .filter(|event| event.is_a_freeing())
            .count() as u64
    }

    // How many requests had no room.
    fn failed_requests(&self) -> u64
        ensures { result ≡ count_by (λ event. is_failed_request (event_of event)) self.now.events.items }
    {
        self.events
            .iter()
            .filter(|event| event.is_a_failed_request())
            .count() as u64
    }

    /// Carries out the events in a new atlas, in order. The first fault ends it.
    pub fn replay(&self) -> Result<ReplayStats<A>, ReplayFault>
        ensures replayed { IfOk result (IsReplayed (recording_of self.now)) }
        ensures fault { IfErr result (IsFaultOf (recording_of self.now)) }
    {
        let alloc = *self.events.allocator();
        let Ok(mut atlas) = AtlasAllocator::with_options(alloc, self.size, &self.options) else {
            return Err(ReplayFault::Memory);
        };
        let mut names: BTreeMap<u32, AllocId, A> = BTreeMap::new(alloc);
        for (at, event) in self.events.iter().enumerate() {
            if let Err(fault) = carry_out(&mut atlas, &mut names, event) {
                return Err(fault_at(fault, at));
            }
        }
        let live = gather_live(alloc, &atlas, &names)?;
        Ok(ReplayStats {
            allocations: self.grants(),
            deallocations: self.freeings(),
            failed_allocations: self.failed_requests(),
            live,
        })
    }
}

/// The fault of a replay whose event with this number isn't carried out.
pub fn fault_at(fault: EventFault, at: usize) -> ReplayFault
    ensures { result ≡ fault_of fault at }
{
    match fault {
        EventFault::Memory => ReplayFault::Memory,
        EventFault::Slots => ReplayFault::Slots,
        EventFault::Differs => ReplayFault::Differs(at),
        EventFault::Bad => ReplayFault::BadEvent(at),
    }
}
