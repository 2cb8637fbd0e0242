//! What an atlas takes of its allocator, and that all of it is given back.

use crate::refusing::Refusing;
use guillotiere::{AtlasAllocator, AtlasError, SimpleAtlasAllocator, size2};
use std::alloc::Global;
use std::test::Fail;

type Atlas<'a> = AtlasAllocator<&'a Refusing<Global>>;

// Functions here are small: a function's proof grows with the square of its length.

fn filled(heap: &Refusing<Global>) -> Result<Atlas<'_>, AtlasError> {
    let mut atlas = AtlasAllocator::new(heap, size2(256, 256))?;
    for width in 1..60 {
        let _granted = atlas.allocate(size2(width, 20))?;
    }
    Ok(atlas)
}

// All that is live in the atlas is freed in a copy.
fn freed_in_a_copy(atlas: &Atlas<'_>) -> Result<(), AtlasError> {
    let live = atlas.allocations()?;
    let mut copy = atlas.clone()?;
    for allocation in live.as_slice() {
        let _freed = copy.deallocate(allocation.id);
    }
    Ok(())
}

fn used_simple(heap: &Refusing<Global>) -> Result<(), AtlasError> {
    let mut simple = SimpleAtlasAllocator::new(heap, size2(64, 64))?;
    let _corner = simple.allocate(size2(10, 10))?;
    let image = simple.image()?;
    let _again = SimpleAtlasAllocator::from_image(heap, &image)?;
    Ok(())
}

fn made_again<'a>(atlas: &Atlas<'a>, heap: &'a Refusing<Global>) -> Result<(), AtlasError> {
    let image = atlas.image()?;
    let _again = AtlasAllocator::from_image(heap, &image)?;
    Ok(())
}

// An atlas is filled, listed, copied, freed, kept and made again, and started again; all of it is dropped, and a simple one too.
fn used(heap: &Refusing<Global>) -> Result<(), AtlasError> {
    let mut atlas = filled(heap)?;
    let _free = atlas.free_rectangles()?;
    freed_in_a_copy(&atlas)?;
    made_again(&atlas, heap)?;
    let _cleared = atlas.clear();
    let _granted = atlas.allocate(size2(256, 256))?;
    used_simple(heap)
}

#[test]
fn what_is_taken_is_given_back(rt: HostRuntime) -> Result<(), Fail> {
    let heap = Refusing::new(rt.alloc());
    used(&heap)?;
    assert!(rt; 0 < heap.requests());
    assert_eq!(rt; heap.returned(), heap.requests());
    Ok(())
}

#[test]
fn what_is_taken_is_given_back_after_a_refusal(rt: HostRuntime) -> Result<(), Fail> {
    let heap = Refusing::new(rt.alloc());
    let mut refused = 0u64;
    for number in 1..1000 {
        heap.refuse_nth(number);
        let answer = used(&heap);
        if !heap.is_done() {
            break;
        }
        assert_eq!(rt; answer, Err(AtlasError::Memory), "{number}");
        refused = refused.wrapping_add(1);
    }
    heap.refuse_nth(0);
    assert!(rt; 10 < refused && refused < 999);
    assert_eq!(rt; heap.returned().wrapping_add(refused), heap.requests());
    Ok(())
}
