//! Rehearsals: the free box that there would be. Expected boxes are worked by hand from the rules of docs/MODEL.md.

use guillotiere::{AllocId, AtlasAllocator, Rectangle, point2, size2};
use std::alloc::{AllocError, Allocator};
use std::test::Fail;

// The free box that there would be around an id, were it freed; None where it isn't live.
fn rehearsed<A: Allocator + Copy>(
    alloc: A,
    atlas: &AtlasAllocator<A>,
    id: AllocId,
) -> Result<Option<Rectangle>, AllocError> {
    if atlas.get(id).is_none() {
        return Ok(None);
    }
    let mut marks = Vec::new(alloc);
    marks.resize(atlas.slots().kept as usize, false)?;
    atlas.prove_none_shown(&marks);
    Ok(Some(atlas.rehearse(&mut marks, id)))
}

fn rectangle(min: (i32, i32), max: (i32, i32)) -> Option<Rectangle> {
    Some(Rectangle {
        min: point2(min.0, min.1),
        max: point2(max.0, max.1),
    })
}

// Three squares in a row: the middle one alone, with the left one free, and with both free, which leaves the whole atlas.
#[test]
fn a_rehearsal_answers_the_box_that_would_be_free(rt: HostRuntime) -> Result<(), Fail> {
    let mut atlas = AtlasAllocator::new(rt.alloc(), size2(90, 30))?;
    let left = atlas.allocate(size2(30, 30))?;
    let middle = atlas.allocate(size2(30, 30))?;
    let right = atlas.allocate(size2(30, 30))?;
    let (Some(left), Some(middle), Some(right)) = (left, middle, right) else {
        panic!(rt; "a square has no room");
    };
    assert!(rt; rehearsed(rt.alloc(), &atlas, middle.id)? == rectangle((30, 0), (60, 30)));
    atlas.deallocate(left.id)?;
    assert!(rt; rehearsed(rt.alloc(), &atlas, middle.id)? == rectangle((0, 0), (60, 30)));
    assert!(rt; rehearsed(rt.alloc(), &atlas, left.id)? == None);
    atlas.deallocate(right.id)?;
    assert!(rt; rehearsed(rt.alloc(), &atlas, middle.id)? == rectangle((0, 0), (90, 30)));
    // Nothing was freed.
    assert!(rt; atlas.get(middle.id) == rectangle((30, 0), (60, 30)));
    Ok(())
}

#[test]
fn a_request_fits_by_its_rounded_sides(rt: HostRuntime) -> Result<(), Fail> {
    let atlas = AtlasAllocator::new(rt.alloc(), size2(90, 30))?;
    let area = Rectangle {
        min: point2(10, 10),
        max: point2(30, 20),
    };
    assert!(rt; atlas.fits(size2(20, 10), &area) && !atlas.fits(size2(21, 10), &area));
    assert!(rt; !atlas.fits(size2(20, 11), &area) && !atlas.fits(size2(0, 10), &area));
    Ok(())
}
