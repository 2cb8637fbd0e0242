//! Rearrangement: worked rows.

use crate::atlas_calls::Step::{Allocate, Live, Rearrange, RearrangeBeyondLimit, Slots};
use crate::atlas_calls::{Row, Step};
use crate::refusing::Refusing;
use crate::tables::{rectangle, size};
use guillotiere::{
    AllocId, Allocation, AtlasAllocator, AtlasError, Change, ChangeList, DEFAULT_OPTIONS,
};
use std::alloc::Global;
use std::process::Abort;
use std::test::Fail;

// A wide box above two high ones. The high ones are larger, and leave no room for the wide one.
const WIDE_ABOVE_HIGH: [Step; 3] = [
    Allocate((10, 3), Some((0, (0, 0, 10, 3)))),
    Allocate((5, 7), Some((3, (0, 3, 5, 10)))),
    Allocate((5, 7), Some((2, (5, 3, 10, 10)))),
];

const WIDE_IS_LOST: Step = Rearrange(
    &[
        ((3, (0, 3, 5, 10)), (3, (0, 0, 5, 7))),
        ((2, (5, 3, 10, 10)), (6, (5, 0, 10, 7))),
    ],
    &[(0, (0, 0, 10, 3))],
);

// Both stay as they were.
const WIDE_IS_KEPT: [Step; 3] = [
    RearrangeBeyondLimit,
    Live(&[(0, (0, 0, 10, 3)), (2, (5, 3, 10, 10)), (3, (0, 3, 5, 10))]),
    Slots(4, 4),
];

pub static ROWS: [Row; 4] = [
    Row {
        size: (10, 10),
        options: DEFAULT_OPTIONS,
        limit: 4,
        start: &WIDE_ABOVE_HIGH,
        calls: &WIDE_IS_KEPT,
    },
    Row {
        size: (10, 10),
        options: DEFAULT_OPTIONS,
        limit: 5,
        start: &WIDE_ABOVE_HIGH,
        calls: &WIDE_IS_KEPT,
    },
    Row {
        size: (10, 10),
        options: DEFAULT_OPTIONS,
        limit: 6,
        start: &WIDE_ABOVE_HIGH,
        calls: &WIDE_IS_KEPT,
    },
    Row {
        size: (10, 10),
        options: DEFAULT_OPTIONS,
        limit: 7,
        start: &WIDE_ABOVE_HIGH,
        calls: &[WIDE_IS_LOST],
    },
];

// A list of one change and one failure.
fn one_of_each(alloc: Global, change: Change) -> Result<ChangeList, AtlasError> {
    let failure = change.new;
    let mut changes = Vec::new(alloc);
    changes.push(change)?;
    let mut failures = Vec::new(alloc);
    failures.push(failure)?;
    Ok(ChangeList { changes, failures })
}

#[test]
fn lists_are_made_copied_and_compared(rt: HostRuntime) -> Result<(), Fail> {
    let change = Change {
        old: Allocation {
            id: AllocId::deserialize(2),
            rectangle: rectangle((0, 200, 100, 300)),
        },
        new: Allocation {
            id: AllocId::deserialize(0),
            rectangle: rectangle((0, 0, 100, 100)),
        },
    };
    let list = one_of_each(rt.alloc(), change)?;
    let copy = list.clone()?;
    assert!(rt; copy.changes.as_slice() == [change].as_slice());
    assert!(rt; copy.failures.as_slice() == [change.new].as_slice());
    assert!(rt; copy == list && copy != ChangeList::empty(rt.alloc()));
    Ok(())
}

// The list of an atlas that one box fills.
fn one_change<'a>(
    rt: &impl Abort,
    heap: &'a Refusing<Global>,
) -> Result<ChangeList<&'a Refusing<Global>>, AtlasError> {
    let whole = size((10, 10));
    assert!(rt; !whole.is_empty());
    let mut atlas = AtlasAllocator::new(heap, whole)?;
    atlas.allocate(whole)?;
    atlas.rearrange()
}

// An empty list takes no memory, and a copy of one that isn't empty does.
#[test]
fn lists_take_memory_to_be_copied(rt: HostRuntime) -> Result<(), Fail> {
    let heap = Refusing::new(rt.alloc());
    let list = one_change(&rt, &heap)?;
    assert!(rt; list.changes.len() == 1);
    heap.refuse_every();
    assert!(rt; list.clone().is_err());
    let empty = ChangeList::empty(&heap);
    assert!(rt; empty.changes.is_empty() && empty.failures.is_empty());
    Ok(())
}
