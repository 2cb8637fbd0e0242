//! Calls of a simple allocator.
ghost use Rattle.std.specs.Prelude.{◌≡◌, ◌≤◌, [], List, Ok, IfErr, IfOk, OnErr, OnOk};
ghost use Rattle.guillotiere.specs.TheConstants.{DEFAULT_OPTIONS};
ghost use Rattle.guillotiere.specs.Boxes.{Box, IsPositive};
ghost use Rattle.guillotiere.specs.Choice.{AreValid};
ghost use Rattle.guillotiere.specs.Pixels.{options_of, sides_of};
ghost use Rattle.guillotiere.specs.Simple.{simple_start, IsGuarded, IsSimple, SimpleStep};
ghost use Rattle.guillotiere.specs.Simple.SimpleAtlasCall.{Grow, Reset};
ghost use Rattle.guillotiere.specs.SimpleStored.{simple_state_of, MayAskMemory, UsesEachEntry, UsesOldEntries};
ghost use Rattle.guillotiere_total.specs.Answers.{simple_done, IfMade};
ghost use Rattle.guillotiere_total.specs.Faults.{IsGrowthFault, IsMemory, IsOptionsFault, IsSizeFault};

use crate::conditions::{check_size, check_start};
use crate::error::CallError;
use guillotiere::{AllocatorOptions, SimpleAtlasAllocator, Size};
use std::alloc::Allocator;

/// `SimpleAtlasAllocator::new` at any size. `EmptySize`; or `Memory` if memory is refused.
pub fn new<A: Allocator + Copy>(alloc: A, size: Size) -> Result<SimpleAtlasAllocator<A>, CallError>
    ensures asked { OnOk result (IsPositive (sides_of size)) }
    ensures fault { IfErr result (IsSizeFault IsMemory (sides_of size)) }
    ensures start { IfOk result
        (λ it. simple_state_of it ≡ simple_start (sides_of size) (options_of DEFAULT_OPTIONS)) }
    ensures guarded { IfOk result (λ it. IsGuarded (simple_state_of it) []) }
    ensures entries { IfOk result UsesEachEntry }
{
    check_size(size)?;
    Ok(SimpleAtlasAllocator::new(alloc, size)?)
}

/// `SimpleAtlasAllocator::with_options` at any size and with any options. `EmptySize`, `Alignment` or `Thresholds`; or
/// `Memory` if memory is refused.
pub fn with_options<A: Allocator + Copy>(
    alloc: A,
    size: Size,
    options: &AllocatorOptions,
) -> Result<SimpleAtlasAllocator<A>, CallError>
    ensures size { OnOk result (IsPositive (sides_of size)) }
    ensures options { OnOk result (AreValid (options_of options.now)) }
    ensures fault { IfErr result (IsOptionsFault (sides_of size) (options_of options.now)) }
    ensures start { IfOk result
        (λ it. simple_state_of it ≡ simple_start (sides_of size) (options_of options.now)) }
    ensures guarded { IfOk result (λ it. IsGuarded (simple_state_of it) []) }
    ensures entries { IfOk result UsesEachEntry }
{
    check_start(size, options)?;
    Ok(SimpleAtlasAllocator::with_options(alloc, size, options)?)
}

/// `SimpleAtlasAllocator::grow` to any size. `Shrinks`; or `Memory`, as `grow` says.
pub fn grow<A: Allocator + Copy>(
    atlas: &mut SimpleAtlasAllocator<A>,
    new_size: Size,
) -> Result<(), CallError>
    ensures step { SimpleStep (simple_state_of atlas.old) (Grow (sides_of new_size)) (simple_done result)
        (simple_state_of atlas.new) }
    ensures fault { IfErr result (IsGrowthFault IsMemory (simple_state_of atlas.old).size (sides_of new_size)) }
    ensures equal { sides_of new_size ≡ (simple_state_of atlas.old).size
        → (result ≡ Ok tt) × (atlas.new ≡ atlas.old) }
    ensures refused { OnErr result (atlas.new ≡ atlas.old) }
    ensures entries { UsesOldEntries atlas.old atlas.new }
    ensures capacity { atlas.old.capacity ≤ atlas.new.capacity }
    ensures memory { IfMade result (λ answer. OnErr answer (MayAskMemory atlas.old (Grow (sides_of new_size)))) }
    ensures guarded { (held : List Box) → IsGuarded (simple_state_of atlas.old) held
        → IsGuarded (simple_state_of atlas.new) held }
    ensures simple { IsSimple (simple_state_of atlas.new) }
{
    // Their contracts say what each allocator keeps.
    let _kept = (atlas.size(), atlas.slots());
    if !atlas.can_grow_to(new_size) {
        return Err(CallError::Shrinks);
    }
    atlas.grow(new_size)?;
    Ok(())
}

/// `SimpleAtlasAllocator::reset` to any size and with any options. `EmptySize`, `Alignment` or `Thresholds`.
pub fn reset<A: Allocator + Copy>(
    atlas: &mut SimpleAtlasAllocator<A>,
    size: Size,
    options: &AllocatorOptions,
) -> Result<(), CallError>
    ensures step { SimpleStep (simple_state_of atlas.old) (Reset (sides_of size) (options_of options.now))
        (simple_done result) (simple_state_of atlas.new) }
    ensures fault { IfErr result (IsOptionsFault (sides_of size) (options_of options.now)) }
    ensures refused { OnErr result (atlas.new ≡ atlas.old) }
    ensures entries { OnOk result (UsesEachEntry atlas.new) }
    ensures capacity { atlas.old.capacity ≤ atlas.new.capacity }
    ensures guarded { OnOk result (IsGuarded (simple_state_of atlas.new) []) }
    ensures simple { IsSimple (simple_state_of atlas.new) }
{
    let _size = atlas.size();
    check_start(size, options)?;
    atlas.reset(size, options)?;
    Ok(())
}
