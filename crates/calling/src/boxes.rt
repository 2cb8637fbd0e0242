//! The boxes of ids around grants, freeings, growths and starts.
ghost use Rattle.std.specs.Prelude.{◌≡◌, ◌≢◌, IfOk, IfSome};
ghost use Rattle.guillotiere.specs.Callers.{rectangle_in};
ghost use Rattle.guillotiere.specs.Stored.{state_of};

use guillotiere::{AllocId, AtlasAllocator, AtlasError, Rectangle, Size};
use std::alloc::Allocator;

/// A granted id may be indexed right away.
pub fn indexed<A: Allocator + Copy>(
    atlas: &mut AtlasAllocator<A>,
    size: Size,
) -> Result<Option<Rectangle>, AtlasError> {
    let Some(a) = atlas.allocate(size)? else {
        return Ok(None);
    };
    let here = atlas[a.id];
    prove!(here == a.rectangle);
    Ok(Some(here))
}

/// A granted id has its rectangle.
pub fn got<A: Allocator + Copy>(
    atlas: &mut AtlasAllocator<A>,
    size: Size,
) -> Result<(), AtlasError> {
    if let Some(a) = atlas.allocate(size)? {
        let here = atlas.get(a.id);
        prove!(here == Some(a.rectangle));
    }
    Ok(())
}

/// Every id other than the granted one has what it had.
pub fn others<A: Allocator + Copy>(
    atlas: &mut AtlasAllocator<A>,
    size: Size,
    other: AllocId,
) -> Result<Option<AllocId>, AtlasError>
    ensures { IfOk result (λ granted. IfSome granted (λ id.
        other ≢ id → rectangle_in (state_of atlas.new) other ≡ rectangle_in (state_of atlas.old) other)) }
{
    match atlas.allocate(size)? {
        Some(a) => Ok(Some(a.id)),
        None => Ok(None),
    }
}

/// That another id keeps its box, by a test over a function whose contract has this one clause.
pub fn tested<A: Allocator + Copy>(
    atlas: &mut AtlasAllocator<A>,
    size: Size,
    other: AllocId,
) -> Result<(), AtlasError> {
    let before = atlas.get(other);
    if let Some(id) = others(atlas, size, other)? {
        if other != id {
            let after = atlas.get(other);
            prove!(after == before);
        }
    }
    Ok(())
}

/// An id that is live keeps its rectangle, whatever a request is answered.
pub fn kept<A: Allocator + Copy>(
    atlas: &mut AtlasAllocator<A>,
    size: Size,
    other: AllocId,
) -> Result<(), AtlasError> {
    if let Some(before) = atlas.get(other) {
        let _granted = atlas.allocate(size);
        let after = atlas.get(other);
        prove!(after == Some(before));
    }
    Ok(())
}

/// A granted id can be freed, and has no rectangle then.
pub fn freed<A: Allocator + Copy>(
    atlas: &mut AtlasAllocator<A>,
    size: Size,
) -> Result<(), AtlasError> {
    if let Some(a) = atlas.allocate(size)? {
        let done = atlas.deallocate(a.id);
        prove!(matches!(&done, Ok(())));
        let after = atlas.get(a.id);
        prove!(after.is_none());
    }
    Ok(())
}

/// An id that has a rectangle can be freed, and every other id keeps what it had.
pub fn got_then_freed<A: Allocator + Copy>(
    atlas: &mut AtlasAllocator<A>,
    id: AllocId,
    other: AllocId,
) {
    if atlas.get(id).is_some() {
        let before = atlas.get(other);
        let done = atlas.deallocate(id);
        prove!(matches!(&done, Ok(())));
        let none = atlas.get(id);
        prove!(none.is_none());
        if id != other {
            let after = atlas.get(other);
            prove!(after == before);
        }
    }
}

/// A growth moves nothing.
pub fn grown<A: Allocator + Copy>(
    atlas: &mut AtlasAllocator<A>,
    id: AllocId,
) -> Result<(), AtlasError> {
    let before = atlas.get(id);
    let size = atlas.size();
    atlas.grow(size)?;
    let after = atlas.get(id);
    prove!(after == before);
    Ok(())
}

/// After a clearing no id has a rectangle.
pub fn cleared<A: Allocator + Copy>(
    atlas: &mut AtlasAllocator<A>,
    id: AllocId,
) -> Result<(), AtlasError> {
    atlas.clear()?;
    let after = atlas.get(id);
    prove!(after.is_none());
    prove!(atlas.is_empty());
    Ok(())
}

/// A copy has the rectangles of the original.
pub fn copied<A: Allocator + Copy>(
    atlas: &AtlasAllocator<A>,
    id: AllocId,
) -> Result<(), AtlasError> {
    let copy = atlas.clone()?;
    let there = copy.get(id);
    let here = atlas.get(id);
    prove!(there == here);
    Ok(())
}

/// A new atlas is empty again once all that it granted is freed.
pub fn all_back<A: Allocator + Copy>(
    alloc: A,
    size: Size,
    first: Size,
    second: Size,
) -> Result<(), AtlasError> {
    if size.is_empty() {
        return Ok(());
    }
    let mut atlas = AtlasAllocator::new(alloc, size)?;
    let a = atlas.allocate(first)?;
    let b = atlas.allocate(second)?;
    if let Some(a) = a {
        atlas.deallocate(a.id)?;
    }
    if let Some(b) = b {
        atlas.deallocate(b.id)?;
    }
    prove!(atlas.is_empty());
    Ok(())
}
