//! Freeing: worked rows.

use crate::atlas_calls::Step::{
    Allocate, Deallocate, DeallocateAll, DeallocateAllDead, DeallocateDead, Free, Get, IsEmpty,
    Live, RefuseEvery, RefuseNone, Slots,
};
use crate::atlas_calls::{MOST_SLOTS, Row, Step};
use guillotiere::DEFAULT_OPTIONS;

// Three squares one below the other.
const COLUMN: [Step; 3] = [
    Allocate((100, 100), Some((0, (0, 0, 100, 100)))),
    Allocate((100, 100), Some((1, (0, 100, 100, 200)))),
    Allocate((100, 100), Some((2, (0, 200, 100, 300)))),
];

// One box in a corner.
const CORNER: [Step; 1] = [Allocate((20, 60), Some((3, (0, 0, 20, 60))))];

// A shelf and three squares below it.
pub const SHELF_AND_TILES: [Step; 4] = [
    Allocate((300, 100), Some((0, (0, 0, 300, 100)))),
    Allocate((100, 100), Some((3, (0, 100, 100, 200)))),
    Allocate((100, 100), Some((2, (100, 100, 200, 200)))),
    Allocate((100, 100), Some((4, (200, 100, 300, 200)))),
];

// Four quarters.
const QUARTERS: [Step; 4] = [
    Allocate((50, 50), Some((2, (0, 0, 50, 50)))),
    Allocate((50, 50), Some((3, (50, 0, 100, 50)))),
    Allocate((50, 50), Some((5, (0, 50, 50, 100)))),
    Allocate((50, 50), Some((4, (50, 50, 100, 100)))),
];

pub static ROWS: [Row; 11] = [
    Row {
        size: (100, 300),
        options: DEFAULT_OPTIONS,
        limit: MOST_SLOTS,
        start: &COLUMN,
        calls: &[
            Deallocate(0),
            Deallocate(1),
            Free(&[(0, 0, 100, 200)]),
            Deallocate(2),
            Free(&[(0, 0, 100, 300)]),
            IsEmpty(true),
            Slots(1, 3),
        ],
    },
    Row {
        size: (100, 100),
        options: DEFAULT_OPTIONS,
        limit: MOST_SLOTS,
        start: &CORNER,
        calls: &[
            Deallocate(3),
            IsEmpty(true),
            Slots(1, 5),
            Allocate((20, 60), Some((16777219, (0, 0, 20, 60)))),
            Slots(5, 5),
        ],
    },
    Row {
        size: (300, 200),
        options: DEFAULT_OPTIONS,
        limit: MOST_SLOTS,
        start: &SHELF_AND_TILES,
        calls: &[
            Deallocate(3),
            Deallocate(2),
            Free(&[(0, 100, 200, 200)]),
            Deallocate(4),
            Free(&[(0, 100, 300, 200)]),
            Slots(2, 5),
        ],
    },
    // An id of an earlier generation.
    Row {
        size: (100, 100),
        options: DEFAULT_OPTIONS,
        limit: MOST_SLOTS,
        start: &CORNER,
        calls: &[
            Deallocate(3),
            Allocate((20, 60), Some((16777219, (0, 0, 20, 60)))),
            DeallocateDead(3),
            Get(16777219, Some((0, 0, 20, 60))),
            Get(3, None),
        ],
    },
    Row {
        size: (100, 300),
        options: DEFAULT_OPTIONS,
        limit: MOST_SLOTS,
        start: &COLUMN,
        calls: &[
            Deallocate(0),
            IsEmpty(false),
            Get(0, None),
            Get(1, Some((0, 100, 100, 200))),
        ],
    },
    Row {
        size: (100, 100),
        options: DEFAULT_OPTIONS,
        limit: MOST_SLOTS,
        start: &QUARTERS,
        calls: &[DeallocateAll(&[2, 3]), Free(&[(0, 0, 100, 50)])],
    },
    Row {
        size: (100, 100),
        options: DEFAULT_OPTIONS,
        limit: MOST_SLOTS,
        start: &QUARTERS,
        calls: &[DeallocateAll(&[3, 2]), Free(&[(0, 0, 100, 50)])],
    },
    Row {
        size: (100, 100),
        options: DEFAULT_OPTIONS,
        limit: MOST_SLOTS,
        start: &QUARTERS,
        calls: &[
            DeallocateAllDead(&[2, 2]),
            Live(&[
                (2, (0, 0, 50, 50)),
                (3, (50, 0, 100, 50)),
                (4, (50, 50, 100, 100)),
                (5, (0, 50, 50, 100)),
            ]),
        ],
    },
    Row {
        size: (100, 300),
        options: DEFAULT_OPTIONS,
        limit: MOST_SLOTS,
        start: &COLUMN,
        calls: &[
            DeallocateAll(&[2, 0, 1]),
            Free(&[(0, 0, 100, 300)]),
            IsEmpty(true),
        ],
    },
    Row {
        size: (100, 300),
        options: DEFAULT_OPTIONS,
        limit: MOST_SLOTS,
        start: &COLUMN,
        calls: &[
            DeallocateAllDead(&[0, 1, 4294967295]),
            Live(&[
                (0, (0, 0, 100, 100)),
                (1, (0, 100, 100, 200)),
                (2, (0, 200, 100, 300)),
            ]),
            DeallocateAll(&[]),
            Live(&[
                (0, (0, 0, 100, 100)),
                (1, (0, 100, 100, 200)),
                (2, (0, 200, 100, 300)),
            ]),
        ],
    },
    Row {
        size: (100, 300),
        options: DEFAULT_OPTIONS,
        limit: MOST_SLOTS,
        start: &COLUMN,
        calls: &[
            Deallocate(0),
            Allocate((50, 40), Some((4, (0, 0, 50, 40)))),
            Deallocate(2),
            Allocate((100, 30), Some((3, (0, 40, 100, 70)))),
            DeallocateAll(&[4, 3]),
            Free(&[(0, 0, 100, 100), (0, 200, 100, 300)]),
            Live(&[(1, (0, 100, 100, 200))]),
            Slots(3, 7),
        ],
    },
];

// Rows that play, in part, with every request for memory refused.
pub static ROWS_WITHOUT_MEMORY: [Row; 1] = [Row {
    size: (300, 200),
    options: DEFAULT_OPTIONS,
    limit: MOST_SLOTS,
    start: &SHELF_AND_TILES,
    calls: &[
        RefuseEvery,
        DeallocateAll(&[3, 2, 4, 0]),
        RefuseNone,
        Free(&[(0, 0, 300, 200)]),
    ],
}];
