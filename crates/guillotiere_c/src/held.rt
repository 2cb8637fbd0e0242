//! A box that is taken apart, and made whole again.
ghost use Rattle.std.specs.Prelude.{◌≡◌};
ghost use Rattle.std.specs.Box.Ownership.{box_owns};

use std::alloc::Allocator;
use std::marker::Model;

/// The place of a value on the heap, with the right to its block.
pub struct Held<T, A: Allocator> {
    pub(crate) at: *mut T,
    pub(crate) alloc: A,
    pub ghost value: { T },
}

impl<T, A: Allocator> Model for Held<T, A> {
    ghost also_owns = { λ h. box_owns (A.dealloc_token h.alloc) T.row h.at h.value };
}

/// Takes a box apart.
pub fn hold<T: Drop, A: Allocator>(whole: Box<T, A>) -> Held<T, A>
    ensures { result.value ≡ whole.value }
{
    let (at, alloc) = Box::into_raw_with_allocator(whole);
    Held { at, alloc }
}

/// Makes the box whole again.
pub fn release<T, A: Allocator>(held: Held<T, A>) -> Box<T, A>
    ensures { result.value ≡ held.value }
{
    let Held { at, alloc } = held;
    unsafe { Box::from_raw(alloc, at) }
}
