//! One event of a replay: it is carried out in an atlas, and its answer is compared.
ghost use Rattle.std.specs.Prelude.{◌≡◌, OnOk, IfOk, IfErr, IfSome, IsSome, All, None, Some, map, ◌↔◌, IsTrue, ℕ};
ghost use Rattle.std.specs.Ordering.{nat_cmp};
ghost use Rattle.std.specs.BTreeMap.{get, IsOrdered};
ghost use Rattle.guillotiere.specs.Stored.{state_of};
ghost use Rattle.guillotiere.specs.Pixels.{sides_of};
ghost use Rattle.guillotiere.specs.Replies.{allocate_reply, live_box, IsExact};
ghost use Rattle.guillotiere.specs.Steps as atlas_steps;
ghost use Rattle.guillotiere.specs.Steps.{Step};
ghost use Rattle.guillotiere_recording.specs.Events.{event_of, list_value_of};
ghost use Rattle.guillotiere_recording.specs.Sessions.{Named};
ghost use Rattle.guillotiere_recording.specs.Events.EventValue.{Allocate, Deallocate, Grow};
ghost use Rattle.guillotiere_recording.specs.Events.EventValue.{Rearrange, ResizeAndRearrange};
ghost use Rattle.guillotiere_recording.specs.Standing.{ShowsNamed, CarriesOut, IsStopped, event_fault, shown_entry};
ghost use Rattle.guillotiere_recording.specs.declared.steps.EventFault.TheVariants.{Memory};

use crate::event::Event;
use crate::follow::{follow, list_names};
use guillotiere::{AllocId, Allocation, AtlasAllocator, AtlasError, ChangeList, Rectangle, Size};
use std::alloc::{AllocError, AllocFailed, Allocator};
use std::collections::BTreeMap;

/// Why an event isn't carried out.
#[derive(Clone, Copy, Debug, PartialEq)]
pub enum EventFault {
    /// A request for memory was refused.
    Memory,
    /// More slots would be used than an atlas may use.
    Slots,
    /// The atlas gives another answer.
    Differs,
    /// It can't be carried out.
    Bad,
}

impl From<AtlasError> for EventFault {
    ghost from_gives = { λ error e. e ≡ event_fault error };

    fn from(error: AtlasError) -> EventFault {
        match error {
            AtlasError::Memory => EventFault::Memory,
            AtlasError::Slots => EventFault::Slots,
            AtlasError::NotLive => EventFault::Bad,
        }
    }
}

impl From<AllocError> for EventFault {
    ghost from_gives = { λ _ e. e ≡ Memory };

    fn from(_error: AllocError) -> EventFault {
        EventFault::Memory
    }
}

impl<T: Drop> From<AllocFailed<T>> for EventFault {
    ghost from_gives = { λ _ e. e ≡ Memory };

    fn from(_error: AllocFailed<T>) -> EventFault {
        EventFault::Memory
    }
}

/// Carries out an event in an atlas whose live ids have these names.
pub fn carry_out<A: Allocator + Copy>(
    atlas: &mut AtlasAllocator<A>,
    names: &mut BTreeMap<u32, AllocId, A>,
    event: &Event<A>,
) -> Result<(), EventFault>
    requires { (s : Named) × ShowsNamed atlas.old names.old s }
    ensures ok { OnOk result (CarriesOut atlas.old names.old (event_of event.now) atlas.new names.new) }
    ensures fault { IfErr result (IsStopped atlas.old names.old (event_of event.now)) }
{
    match event {
        Event::Allocate(size, answer) => request_again(atlas, names, *size, answer),
        Event::Deallocate(name) => free_again(atlas, names, *name),
        Event::Grow(size) => grow_again(atlas, names, *size),
        Event::Rearrange(recorded) => rearrange_again(atlas, names, recorded),
        Event::ResizeAndRearrange(size, recorded) => resize_again(atlas, names, *size, recorded),
    }
}

// A request.
fn request_again<A: Allocator + Copy>(
    atlas: &mut AtlasAllocator<A>,
    names: &mut BTreeMap<u32, AllocId, A>,
    size: Size,
    answer: &Option<Allocation>,
) -> Result<(), EventFault>
    ensures ok { OnOk result (CarriesOut atlas.old names.old (Allocate size answer.now) atlas.new names.new) }
    ensures fault { IfErr result (IsStopped atlas.old names.old (Allocate size answer.now)) }
{
    match answer {
        Some(recorded) => grant_again(atlas, names, size, recorded),
        None => deny_again(atlas, names, size),
    }
}

// Requests a rectangle; what the proofs of this module need of the answer.
fn ask<A: Allocator + Copy>(
    atlas: &mut AtlasAllocator<A>,
    size: Size,
) -> Result<Option<Allocation>, AtlasError>
    ensures step { Step (state_of atlas.old) (atlas_steps.Allocate (sides_of size)) (allocate_reply result)
        (state_of atlas.new) }
    ensures exact { IfOk result (λ granted. IfSome granted (λ a. IsExact a.rectangle)) }
{
    atlas.allocate(size)
}

// A request that was granted.
fn grant_again<A: Allocator + Copy>(
    atlas: &mut AtlasAllocator<A>,
    names: &mut BTreeMap<u32, AllocId, A>,
    size: Size,
    recorded: &Allocation,
) -> Result<(), EventFault>
    ensures ok { OnOk result (CarriesOut atlas.old names.old (Allocate size (Some recorded.now)) atlas.new names.new) }
    ensures fault { IfErr result (IsStopped atlas.old names.old (Allocate size (Some recorded.now))) }
{
    let name = recorded.id.serialize();
    if names.contains_key(&name) {
        return Err(EventFault::Bad);
    }
    match ask(atlas, size)? {
        Some(granted) => {
            if !are_same(&granted.rectangle, &recorded.rectangle) {
                return Err(EventFault::Differs);
            }
            names.insert(name, granted.id)?;
            Ok(())
        }
        None => Err(EventFault::Differs),
    }
}

/// Whether two rectangles have the same corners.
pub fn are_same(one: &Rectangle, other: &Rectangle) -> bool
    ensures { IsTrue result ↔ (one.now ≡ other.now) }
{
    one == other
}

// A request that had no room.
fn deny_again<A: Allocator + Copy>(
    atlas: &mut AtlasAllocator<A>,
    names: &BTreeMap<u32, AllocId, A>,
    size: Size,
) -> Result<(), EventFault>
    ensures ok { OnOk result (CarriesOut atlas.old names.now (Allocate size None) atlas.new names.now) }
    ensures fault { IfErr result (IsStopped atlas.old names.now (Allocate size None)) }
{
    let _names = names;
    match ask(atlas, size)? {
        Some(_) => Err(EventFault::Differs),
        None => Ok(()),
    }
}

// A freeing.
fn free_again<A: Allocator + Copy>(
    atlas: &mut AtlasAllocator<A>,
    names: &mut BTreeMap<u32, AllocId, A>,
    name: AllocId,
) -> Result<(), EventFault>
    ensures ok { OnOk result (CarriesOut atlas.old names.old (Deallocate name) atlas.new names.new) }
    ensures fault { IfErr result (IsStopped atlas.old names.old (Deallocate name)) }
{
    let Some(id) = names.remove(&name.serialize()) else {
        return Err(EventFault::Bad);
    };
    atlas.deallocate(id)?;
    Ok(())
}

// A growth.
fn grow_again<A: Allocator + Copy>(
    atlas: &mut AtlasAllocator<A>,
    names: &BTreeMap<u32, AllocId, A>,
    size: Size,
) -> Result<(), EventFault>
    ensures ok { OnOk result (CarriesOut atlas.old names.now (Grow size) atlas.new names.now) }
    ensures fault { IfErr result (IsStopped atlas.old names.now (Grow size)) }
{
    let _names = names;
    let before = atlas.size();
    if size.width < before.width || size.height < before.height {
        return Err(EventFault::Bad);
    }
    atlas.grow(size)?;
    Ok(())
}

// A rearrangement.
fn rearrange_again<A: Allocator + Copy>(
    atlas: &mut AtlasAllocator<A>,
    names: &mut BTreeMap<u32, AllocId, A>,
    recorded: &ChangeList<A>,
) -> Result<(), EventFault>
    requires { (s : Named) × ShowsNamed atlas.old names.old s }
    ensures ok { OnOk result
        (CarriesOut atlas.old names.old (Rearrange (list_value_of recorded.now)) atlas.new names.new) }
    ensures fault { IfErr result (IsStopped atlas.old names.old (Rearrange (list_value_of recorded.now))) }
{
    let alloc = *recorded.changes.allocator();
    let entries = list_names(alloc, names)?;
    let list = atlas.rearrange()?;
    *names = follow(alloc, &entries, &list, recorded)?;
    Ok(())
}

// A rearrangement into another size.
fn resize_again<A: Allocator + Copy>(
    atlas: &mut AtlasAllocator<A>,
    names: &mut BTreeMap<u32, AllocId, A>,
    size: Size,
    recorded: &ChangeList<A>,
) -> Result<(), EventFault>
    requires { (s : Named) × ShowsNamed atlas.old names.old s }
    ensures ok { OnOk result (CarriesOut atlas.old names.old (ResizeAndRearrange size (list_value_of recorded.now))
        atlas.new names.new) }
    ensures fault { IfErr result
        (IsStopped atlas.old names.old (ResizeAndRearrange size (list_value_of recorded.now))) }
{
    if size.is_empty() {
        return Err(EventFault::Bad);
    }
    let alloc = *recorded.changes.allocator();
    let entries = list_names(alloc, names)?;
    let list = atlas.resize_and_rearrange(size)?;
    *names = follow(alloc, &entries, &list, recorded)?;
    Ok(())
}

/// The live names with their rectangles, by rising name.
pub fn gather_live<A: Allocator + Copy>(
    alloc: A,
    atlas: &AtlasAllocator<A>,
    names: &BTreeMap<u32, AllocId, A>,
) -> Result<Vec<Allocation, A>, AllocError>
    requires { (name id : ℕ) → get nat_cmp names.now name ≡ Some id → IsSome (live_box (state_of atlas.now) id) }
    ensures list { IfOk result (λ live. live.items ≡ map (shown_entry (state_of atlas.now)) names.now.entries) }
    ensures ordered { IfOk result (λ live. IsOrdered nat_cmp names.now) }
    ensures found { IfOk result (λ live. All (λ e. get nat_cmp names.now e.0 ≡ Some e.1) names.now.entries) }
{
    let mut live = Vec::new(alloc);
    for (name, id) in names {
        live.push(Allocation {
            id: AllocId::deserialize(*name),
            rectangle: atlas[*id],
        })?;
    }
    Ok(live)
}
