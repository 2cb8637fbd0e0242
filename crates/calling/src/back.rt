//! What is granted and then freed leaves no trace.
ghost use Rattle.std.specs.Prelude.{◌≡◌, OnErr, IfOk, IfSome};
ghost use Rattle.guillotiere.specs.Callers.{AddsBox, HasSameBoxes, LeavesNoBox};
ghost use Rattle.guillotiere.specs.Pixels.{box_of};
ghost use Rattle.guillotiere.specs.Stored.{state_of};

use guillotiere::{AllocId, Allocation, AtlasAllocator, AtlasError, Size};
use std::alloc::Allocator;

// What a caller keeps of a grant.
fn note<A: Allocator>(notes: &mut Vec<Allocation, A>, a: Allocation) -> Result<(), AtlasError> {
    Ok(notes.push(a)?)
}

// A request, by what it adds.
fn ask<A: Allocator + Copy>(
    atlas: &mut AtlasAllocator<A>,
    size: Size,
) -> Result<Option<Allocation>, AtlasError>
    ensures refused { OnErr result (atlas.new ≡ atlas.old) }
    ensures adds { IfOk result (λ granted. IfSome granted (λ a.
        AddsBox (state_of atlas.old) (state_of atlas.new) a.id (box_of a.rectangle))) }
{
    atlas.allocate(size)
}

// A freeing, by what it leaves.
fn give_back<A: Allocator + Copy>(atlas: &mut AtlasAllocator<A>, id: AllocId)
    ensures { LeavesNoBox (state_of atlas.old) (state_of atlas.new) id }
{
    let _freed = atlas.deallocate(id);
}

/// A grant whose caller has no place to note it is given back: each id has the box that it had.
pub fn noted<A: Allocator + Copy>(
    atlas: &mut AtlasAllocator<A>,
    size: Size,
    notes: &mut Vec<Allocation, A>,
) -> Result<(), AtlasError>
    ensures { OnErr result (HasSameBoxes (state_of atlas.old) (state_of atlas.new)) }
{
    let Some(a) = ask(atlas, size)? else {
        return Ok(());
    };
    let id = a.id;
    let noted = note(notes, a);
    if noted.is_err() {
        give_back(atlas, id);
    }
    noted
}

/// A grant that is given back without an error: each id has the box that it had.
pub fn tried<A: Allocator + Copy>(
    atlas: &mut AtlasAllocator<A>,
    size: Size,
) -> Result<Option<Size>, AtlasError>
    ensures { HasSameBoxes (state_of atlas.old) (state_of atlas.new) }
{
    let Some(a) = atlas.allocate(size)? else {
        return Ok(None);
    };
    let _freed = atlas.deallocate(a.id);
    Ok(Some(size))
}

/// That an id has the box that it had, by a test over a function whose contract has this one clause.
pub fn tested<A: Allocator + Copy>(
    atlas: &mut AtlasAllocator<A>,
    size: Size,
    other: AllocId,
) -> Result<(), AtlasError> {
    let before = atlas.get(other);
    let _tried = tried(atlas, size)?;
    let after = atlas.get(other);
    prove!(after == before);
    Ok(())
}
