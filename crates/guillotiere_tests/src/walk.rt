//! The allocated walk, into a list.

use crate::atlas_calls::{Atlas, Grant, MOST_SLOTS, Row};
use crate::atlas_freeing::SHELF_AND_TILES;
use crate::playing::{are_grants, created, make_all};
use crate::refusing::Refusing;
use guillotiere::{AllocId, Allocation, AtlasError, DEFAULT_OPTIONS, Rectangle};
use std::alloc::Global;
use std::process::Abort;
use std::test::Fail;

static TILES: Row = Row {
    size: (300, 200),
    options: DEFAULT_OPTIONS,
    limit: MOST_SLOTS,
    start: &SHELF_AND_TILES,
    calls: &[],
};

static WALKED: [Grant; 4] = [
    (0, (0, 0, 300, 100)),
    (2, (100, 100, 200, 200)),
    (3, (0, 100, 100, 200)),
    (4, (200, 100, 300, 200)),
];

fn tiled<'a>(
    rt: &impl Abort,
    alloc: Global,
    heap: &'a Refusing<Global>,
) -> Result<Atlas<'a>, AtlasError> {
    let mut atlas = created(rt, heap, &TILES)?;
    make_all(rt, alloc, heap, &mut atlas, TILES.start)?;
    Ok(atlas)
}

fn walked(alloc: Global, atlas: &Atlas<'_>) -> Result<Vec<Allocation>, AtlasError> {
    let mut seen = Vec::with_capacity(alloc, 4)?;
    atlas.for_each_allocated_rectangle(|id: AllocId, area: &Rectangle| {
        // The walk has four calls, and no room is missing.
        let _ = seen.push(Allocation {
            id,
            rectangle: *area,
        });
    });
    Ok(seen)
}

#[test]
fn the_allocated_walk_goes_by_rising_slot(rt: HostRuntime) -> Result<(), Fail> {
    let heap = Refusing::new(rt.alloc());
    let atlas = tiled(&rt, rt.alloc(), &heap)?;
    let seen = walked(rt.alloc(), &atlas)?;
    assert!(rt; are_grants(seen.as_slice(), &WALKED));
    Ok(())
}
