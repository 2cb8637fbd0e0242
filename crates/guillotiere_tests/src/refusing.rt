//! An allocator for tests, which refuses one request for memory or every one.

use std::alloc::{AllocError, Allocator};
use std::cell::Cell;

/// Hands requests on to `inner`, but for those that it is told to refuse. A test keeps it and lends it: a
/// `&Refusing<Global>` is an allocator that may be copied.
pub struct Refusing<B: Allocator> {
    inner: B,
    plan: Cell<Plan>,
}

#[derive(Clone, Copy)]
struct Plan {
    // How many requests there are up to the one that is refused; 0 for none, `EVERY` for all of them.
    left: u64,
    // How many requests were made, round past 2^64.
    made: u64,
    // How many blocks were given back, round past 2^64.
    returned: u64,
}

const EVERY: u64 = u64::MAX;

impl<B: Allocator> Refusing<B> {
    /// Refuses nothing until it is told to.
    pub fn new(inner: B) -> Refusing<B> {
        Refusing {
            inner,
            plan: Cell::new(Plan {
                left: 0,
                made: 0,
                returned: 0,
            }),
        }
    }

    /// From now on the request with this number is refused, counted from 1, and no other; none for 0.
    pub fn refuse_nth(&self, number: u32) {
        let mut plan = self.plan.get();
        plan.left = u64::from(number);
        self.plan.set(plan);
    }

    /// From now on every request is refused.
    pub fn refuse_every(&self) {
        let mut plan = self.plan.get();
        plan.left = EVERY;
        self.plan.set(plan);
    }

    /// Whether no refusal is still to come.
    pub fn is_done(&self) -> bool {
        self.plan.get().left == 0
    }

    /// How many requests for memory were made so far, the refused ones too; it wraps at 2^64.
    pub fn requests(&self) -> u64 {
        self.plan.get().made
    }

    /// How many blocks of memory were given back so far; it wraps at 2^64.
    pub fn returned(&self) -> u64 {
        self.plan.get().returned
    }
}

impl<B: Allocator> Drop for Refusing<B> {
    fn drop(self) {
        let Self { inner: _, plan: _ } = self;
    }
}

// Counts one request, and says whether it is to be refused.
fn is_refused(plan: &Cell<Plan>) -> bool {
    let Plan {
        left,
        made,
        returned,
    } = plan.get();
    let still = if left == EVERY {
        EVERY
    } else {
        left.saturating_sub(1)
    };
    plan.set(Plan {
        left: still,
        made: made.wrapping_add(1),
        returned,
    });
    left == EVERY || left == 1
}

// Counts one block that is given back.
fn count_return(plan: &Cell<Plan>) {
    let mut next = plan.get();
    next.returned = next.returned.wrapping_add(1);
    plan.set(next);
}

unsafe impl<B: Allocator> Allocator for Refusing<B> {
    ghost dealloc_token = { λ heap ty ptr. B.dealloc_token heap.inner ty ptr };

    fn allocate(&self, size: usize, align: usize) -> Result<*mut u8, AllocError> {
        if is_refused(&self.plan) {
            return Err(AllocError);
        }
        self.inner.allocate(size, align)
    }

    unsafe fn deallocate(&self, ptr: *mut u8, size: usize, align: usize) {
        count_return(&self.plan);
        self.inner.deallocate(ptr, size, align);
    }
}
