//! Calls of an atlas.
ghost use Rattle.std.specs.Prelude.{◌≡◌, ◌≢◌, [], All, Err, IfErr, IfOk, OnErr, OnOk};
ghost use Rattle.guillotiere.specs.declared.AtlasError.TheVariants.{Memory};
ghost use Rattle.guillotiere.specs.TheConstants.{DEFAULT_OPTIONS};
ghost use Rattle.guillotiere.specs.Boxes.{IsPositive};
ghost use Rattle.guillotiere.specs.Choice.{AreValid};
ghost use Rattle.guillotiere.specs.Callers.{HasFrame, IsShortage, KeepsAll};
ghost use Rattle.guillotiere.specs.Generations.{AreFirstGenerations};
ghost use Rattle.guillotiere.specs.Laws.StepLaws.{IsRearrangingStep};
ghost use Rattle.guillotiere.specs.Pixels.{options_of, sides_of};
ghost use Rattle.guillotiere.specs.Rearranging.{rearrangement_of, AreExactChanges, KeepsSides};
ghost use Rattle.guillotiere.specs.Reserves.{HasReserve, UsesAtMost};
ghost use Rattle.guillotiere.specs.States.{live_in, started, IsSound};
ghost use Rattle.guillotiere.specs.Steps.{Step};
ghost use Rattle.guillotiere.specs.Steps.AtlasCall.{Grow, Reset, ResizeAndRearrange};
ghost use Rattle.guillotiere.specs.Stored.{state_of};
ghost use Rattle.guillotiere_total.specs.declared.error.CallError.TheVariants.{Refused};
ghost use Rattle.guillotiere_total.specs.Answers.{change_reply, done_reply};
ghost use Rattle.guillotiere_total.specs.Faults.{IsGrowthFault, IsLimit, IsLimitFault, IsMemory, IsOptionsFault};
ghost use Rattle.guillotiere_total.specs.Faults.{IsSizeFault};

use crate::conditions::{check_limited_start, check_size, check_start};
use crate::error::CallError;
use guillotiere::{AllocatorOptions, AtlasAllocator, ChangeList, Size};
use std::alloc::Allocator;

/// `AtlasAllocator::new` at any size. `EmptySize`; or `Memory` if memory is refused.
pub fn new<A: Allocator + Copy>(alloc: A, size: Size) -> Result<AtlasAllocator<A>, CallError>
    ensures asked { OnOk result (IsPositive (sides_of size)) }
    ensures fault { IfErr result (IsSizeFault IsMemory (sides_of size)) }
    ensures state { IfOk result
        (λ it. state_of it ≡ started (sides_of size) (options_of DEFAULT_OPTIONS) 16777216) }
    ensures anew { IfOk result AreFirstGenerations }
    ensures turns { IfOk result (λ it. it.turns ≡ 0) }
    ensures sound { IfOk result (λ it. IsSound (state_of it)) }
{
    check_size(size)?;
    Ok(AtlasAllocator::new(alloc, size)?)
}

/// `AtlasAllocator::with_options` at any size and with any options. `EmptySize`, `Alignment` or `Thresholds`; or
/// `Memory` if memory is refused.
pub fn with_options<A: Allocator + Copy>(
    alloc: A,
    size: Size,
    options: &AllocatorOptions,
) -> Result<AtlasAllocator<A>, CallError>
    ensures size { OnOk result (IsPositive (sides_of size)) }
    ensures options { OnOk result (AreValid (options_of options.now)) }
    ensures fault { IfErr result (IsOptionsFault (sides_of size) (options_of options.now)) }
    ensures state { IfOk result
        (λ it. state_of it ≡ started (sides_of size) (options_of options.now) 16777216) }
    ensures anew { IfOk result AreFirstGenerations }
    ensures turns { IfOk result (λ it. it.turns ≡ 0) }
    ensures sound { IfOk result (λ it. IsSound (state_of it)) }
{
    check_start(size, options)?;
    Ok(AtlasAllocator::with_options(alloc, size, options)?)
}

/// `AtlasAllocator::with_slot_limit` at any size, with any options and any limit. `EmptySize`, `Alignment`,
/// `Thresholds` or `SlotLimit`; or `Memory` if memory is refused.
pub fn with_slot_limit<A: Allocator + Copy>(
    alloc: A,
    size: Size,
    options: &AllocatorOptions,
    limit: u32,
) -> Result<AtlasAllocator<A>, CallError>
    ensures size { OnOk result (IsPositive (sides_of size)) }
    ensures options { OnOk result (AreValid (options_of options.now)) }
    ensures limit { OnOk result (IsLimit limit) }
    ensures fault { IfErr result (IsLimitFault (sides_of size) (options_of options.now) limit) }
    ensures state { IfOk result (λ it. state_of it ≡ started (sides_of size) (options_of options.now) limit) }
    ensures anew { IfOk result AreFirstGenerations }
    ensures turns { IfOk result (λ it. it.turns ≡ 0) }
    ensures sound { IfOk result (λ it. IsSound (state_of it)) }
{
    check_limited_start(size, options, limit)?;
    Ok(AtlasAllocator::with_slot_limit(alloc, size, options, limit)?)
}

/// `AtlasAllocator::grow` to any size. `Shrinks`; or `Slots` or `Memory`, as `grow` says.
pub fn grow<A: Allocator + Copy>(
    atlas: &mut AtlasAllocator<A>,
    new_size: Size,
) -> Result<(), CallError>
    ensures step { Step (state_of atlas.old) (Grow (sides_of new_size)) (done_reply result) (state_of atlas.new) }
    ensures fault { IfErr result (IsGrowthFault IsShortage (state_of atlas.old).size (sides_of new_size)) }
    ensures refused { OnErr result (atlas.new ≡ atlas.old) }
    ensures turns { atlas.new.turns ≡ atlas.old.turns }
    ensures keeps { KeepsAll (state_of atlas.old) (state_of atlas.new) }
    ensures slots { UsesAtMost 3 atlas.old atlas.new }
    ensures memory { HasReserve 3 atlas.old → result ≢ Err (Refused Memory) }
    ensures frame { OnOk result (HasFrame (state_of atlas.new) (sides_of new_size) (state_of atlas.old).options
        (state_of atlas.old).limit) }
{
    atlas.prove_sound();
    if !atlas.can_grow_to(new_size) {
        return Err(CallError::Shrinks);
    }
    atlas.grow(new_size)?;
    Ok(())
}

/// `AtlasAllocator::resize_and_rearrange` to any size. `EmptySize`; or `Slots` or `Memory`, as
/// `resize_and_rearrange` says.
pub fn resize_and_rearrange<A: Allocator + Copy>(
    atlas: &mut AtlasAllocator<A>,
    new_size: Size,
) -> Result<ChangeList<A>, CallError>
    ensures step { Step (state_of atlas.old) (ResizeAndRearrange (sides_of new_size)) (change_reply result)
        (state_of atlas.new) }
    ensures fault { IfErr result (IsSizeFault IsShortage (sides_of new_size)) }
    ensures exact { IfOk result AreExactChanges }
    ensures sides { IfOk result (λ list. All KeepsSides list.changes.items) }
    ensures moves { IfOk result (λ list. IsRearrangingStep (state_of atlas.old) (rearrangement_of list)
        (state_of atlas.new)) }
    ensures anew { IfOk result (λ _. AreFirstGenerations atlas.new) }
    ensures refused { OnErr result (atlas.new ≡ atlas.old) }
    ensures turns { atlas.new.turns ≡ atlas.old.turns }
    ensures sound { IsSound (state_of atlas.new) }
    ensures frame { OnOk result (HasFrame (state_of atlas.new) (sides_of new_size) (state_of atlas.old).options
        (state_of atlas.old).limit) }
{
    atlas.prove_sound();
    check_size(new_size)?;
    Ok(atlas.resize_and_rearrange(new_size)?)
}

/// `AtlasAllocator::reset` to any size and with any options. `EmptySize`, `Alignment` or `Thresholds`.
pub fn reset<A: Allocator + Copy>(
    atlas: &mut AtlasAllocator<A>,
    size: Size,
    options: &AllocatorOptions,
) -> Result<(), CallError>
    ensures step { Step (state_of atlas.old) (Reset (sides_of size) (options_of options.now)) (done_reply result)
        (state_of atlas.new) }
    ensures fault { IfErr result (IsOptionsFault (sides_of size) (options_of options.now)) }
    ensures refused { OnErr result (atlas.new ≡ atlas.old) }
    ensures anew { OnOk result (AreFirstGenerations atlas.new) }
    ensures turns { atlas.new.turns ≡ atlas.old.turns }
    ensures sound { IsSound (state_of atlas.new) }
    ensures idle { OnOk result (live_in (state_of atlas.new) ≡ []) }
    ensures slots { UsesAtMost 0 atlas.old atlas.new }
    ensures frame { OnOk result (HasFrame (state_of atlas.new) (sides_of size) (options_of options.now)
        (state_of atlas.old).limit) }
{
    atlas.prove_sound();
    check_start(size, options)?;
    atlas.reset(size, options)?;
    Ok(())
}
