//! Starting again and copying: worked rows.

use crate::atlas_calls::Step::{
    Allocate, AllocateBeyondLimit, Clear, Deallocate, Free, Get, Grow, GrowBeyondLimit, IsEmpty,
    Live, RefuseEvery, RefuseNone, Reset, Slots,
};
use crate::atlas_calls::{Atlas, MOST_SLOTS, Row, Sight, Step, look_at};
use crate::playing::{created, is_as_before, make_all};
use crate::refusing::Refusing;
use crate::tables::ALIGNED_TO_8;
use guillotiere::{AtlasError, DEFAULT_OPTIONS};
use std::alloc::Global;
use std::process::Abort;
use std::test::Fail;

// Three squares one below the other.
const COLUMN: [Step; 3] = [
    Allocate((100, 100), Some((0, (0, 0, 100, 100)))),
    Allocate((100, 100), Some((1, (0, 100, 100, 200)))),
    Allocate((100, 100), Some((2, (0, 200, 100, 300)))),
];

// One box in a corner.
const CORNER: [Step; 1] = [Allocate((20, 60), Some((3, (0, 0, 20, 60))))];

pub static ROWS: [Row; 4] = [
    Row {
        size: (100, 100),
        options: DEFAULT_OPTIONS,
        limit: MOST_SLOTS,
        start: &CORNER,
        calls: &[
            Deallocate(3),
            Allocate((20, 60), Some((16777219, (0, 0, 20, 60)))),
            Slots(5, 5),
            Clear,
            Slots(1, 1),
            Allocate((20, 60), Some((3, (0, 0, 20, 60)))),
        ],
    },
    Row {
        size: (100, 100),
        options: DEFAULT_OPTIONS,
        limit: MOST_SLOTS,
        start: &CORNER,
        calls: &[
            Reset((64, 64), ALIGNED_TO_8),
            Allocate((9, 1), Some((2, (0, 0, 16, 8)))),
            Free(&[(16, 0, 64, 8), (0, 8, 64, 64)]),
            Get(3, None),
        ],
    },
    Row {
        size: (100, 100),
        options: DEFAULT_OPTIONS,
        limit: 3,
        start: &[Allocate((100, 100), Some((0, (0, 0, 100, 100))))],
        calls: &[
            GrowBeyondLimit((150, 150)),
            Live(&[(0, (0, 0, 100, 100))]),
            Grow((150, 100)),
            Slots(3, 3),
            Reset((200, 200), DEFAULT_OPTIONS),
            Slots(1, 1),
        ],
    },
    // A new start keeps the limit; the box would take 5 slots.
    Row {
        size: (100, 100),
        options: DEFAULT_OPTIONS,
        limit: 4,
        start: &[],
        calls: &[
            AllocateBeyondLimit((20, 60)),
            Clear,
            AllocateBeyondLimit((20, 60)),
            Reset((100, 200), ALIGNED_TO_8),
            AllocateBeyondLimit((20, 60)),
        ],
    },
];

// Starting again asks for no memory.
pub static ROWS_WITHOUT_MEMORY: [Row; 1] = [Row {
    size: (100, 100),
    options: DEFAULT_OPTIONS,
    limit: MOST_SLOTS,
    start: &CORNER,
    calls: &[
        RefuseEvery,
        Reset((300, 50), DEFAULT_OPTIONS),
        Allocate((300, 50), Some((0, (0, 0, 300, 50)))),
        RefuseNone,
        IsEmpty(false),
    ],
}];

// An atlas that is copied, and the calls of the copy: the freed slot stays in its place.
static COPIED: Row = Row {
    size: (100, 300),
    options: DEFAULT_OPTIONS,
    limit: MOST_SLOTS,
    start: &COLUMN,
    calls: &[
        Deallocate(1),
        Allocate((100, 100), Some((1, (0, 100, 100, 200)))),
    ],
};

// Calls of the atlas that was copied, after those of the copy.
static AFTER_COPYING: [Step; 2] = [Allocate((100, 100), None), Get(1, Some((0, 100, 100, 200)))];

fn copied_once<'a>(atlas: &Atlas<'a>) -> Result<Atlas<'a>, AtlasError> {
    atlas.clone()
}

// A copy; where memory is refused, nothing that can be seen has changed, and it is asked for again.
fn copied_or_again<'a>(
    rt: &impl Abort,
    heap: &Refusing<Global>,
    atlas: &Atlas<'a>,
    before: &Sight,
) -> Result<Atlas<'a>, AtlasError> {
    match copied_once(atlas) {
        Err(AtlasError::Memory) => {
            is_as_before(rt, heap, atlas, before);
            copied_once(atlas)
        }
        first => first,
    }
}

fn copied<'a>(
    rt: &impl Abort,
    heap: &Refusing<Global>,
    atlas: &Atlas<'a>,
) -> Result<Atlas<'a>, AtlasError> {
    let before = look_at(atlas);
    let copy = copied_or_again(rt, heap, atlas, &before)?;
    assert!(rt; look_at(atlas) == before && look_at(&copy) == before);
    Ok(copy)
}

// A copy and the atlas that it was taken of go their own ways.
fn copy_apart(rt: &impl Abort, alloc: Global, heap: &Refusing<Global>) -> Result<(), AtlasError> {
    let row = &COPIED;
    let mut atlas = created(rt, heap, row)?;
    make_all(rt, alloc, heap, &mut atlas, row.start)?;
    let mut copy = copied(rt, heap, &atlas)?;
    make_all(rt, alloc, heap, &mut copy, row.calls)?;
    make_all(rt, alloc, heap, &mut atlas, &AFTER_COPYING)
}

#[test]
fn a_copy_goes_its_own_way(rt: HostRuntime) -> Result<(), Fail> {
    let heap = Refusing::new(rt.alloc());
    let mut refusals = 0;
    for number in 1..1000 {
        heap.refuse_nth(number);
        copy_apart(&rt, rt.alloc(), &heap)?;
        if !heap.is_done() {
            break;
        }
        refusals = number;
    }
    assert!(rt; 0 < refusals && refusals < 999);
    Ok(())
}
