//! What C holds of a simple allocator.
ghost use Rattle.std.specs.Prelude.{◌≡◌, is_some, Option, Some, None, IsSome};
ghost use Rattle.guillotiere.specs.SimpleStored.{SimpleValue, simple_state_of};
ghost use Rattle.guillotiere.specs.Simple.{IsSimple};

use crate::held::{Held, hold, release};
use guillotiere::SimpleAtlasAllocator;
use std::alloc::Global;
use std::marker::Model;
use std::mem::replace;
use std::ptr::null_mut;

/// A place for a simple allocator: it holds one, or nothing, and then it is null.
#[repr(C)]
pub struct SimpleHandle {
    at: *mut u8,
    pub ghost kept: { Option SimpleValue },
}

impl Model for SimpleHandle {
    ghost use Rattle.guillotiere_c.specs.Keeping.{keeps_simple};

    ghost also_owns = { λ h. keeps_simple h.kept h.at };
}

impl SimpleHandle {
    /// A handle that holds nothing.
    pub fn none() -> SimpleHandle
        ensures { result.kept ≡ None }
    {
        SimpleHandle { at: null_mut() }
    }

    /// Drops a handle. Requires that it holds nothing, so that nothing is lost.
    pub fn forget(handle: SimpleHandle)
        requires { handle.kept ≡ None }
    {
        let SimpleHandle { at: _ } = handle;
    }

    /// Whether it holds a simple allocator.
    pub fn holds(&mut self) -> bool
        ensures { (self.new ≡ self.old) × (result ≡ is_some self.old.kept) }
    {
        !self.at.is_null()
    }

    /// A handle that holds what was taken apart.
    pub fn close(held: Held<SimpleAtlasAllocator, Global>) -> SimpleHandle
        ensures { result.kept ≡ Some held.value }
    {
        let Held { at, alloc: _ } = held;
        SimpleHandle { at: at as *mut u8 }
    }

    /// What it holds, taken apart. Requires that it holds a simple allocator.
    pub fn open(alloc: Global, handle: SimpleHandle) -> Held<SimpleAtlasAllocator, Global>
        requires { IsSome handle.kept }
        ensures { handle.kept ≡ Some result.value }
    {
        let SimpleHandle { at } = handle;
        Held {
            at: at as *mut SimpleAtlasAllocator,
            alloc,
        }
    }
}

impl SimpleHandle {
    /// Takes the allocator out; the handle holds nothing then. Requires that it holds a simple allocator.
    pub fn take(&mut self, alloc: Global) -> Box<SimpleAtlasAllocator>
        requires { IsSome self.old.kept }
        ensures taken { self.old.kept ≡ Some result.value }
        ensures none { self.new.kept ≡ None }
    {
        let handle = replace(self, SimpleHandle::none());
        release(SimpleHandle::open(alloc, handle))
    }

    /// Puts a simple allocator in. Requires that the handle holds nothing.
    pub fn put(&mut self, simple: Box<SimpleAtlasAllocator>)
        requires { self.old.kept ≡ None }
        ensures put { self.new.kept ≡ Some simple.value }
        ensures kept { IsSimple (simple_state_of simple.value) }
    {
        // Its contract says what each simple allocator keeps.
        let _size = simple.size();
        let empty = replace(self, SimpleHandle::close(hold(simple)));
        SimpleHandle::forget(empty);
    }
}

/// The place of a simple allocator for a call that only reads: what lies at the pointer is lent to it, and any number of
/// such calls may run at once.
#[repr(C)]
pub struct SimpleReader {
    at: *const u8,
    pub ghost kept: { Option SimpleValue },
}

impl Model for SimpleReader {
    ghost use Rattle.guillotiere_c.specs.Keeping.{lends, simple_row};

    ghost also_owns = { λ h. lends simple_row h.kept h.at };
}

impl SimpleReader {
    /// Whether it holds an allocator.
    pub fn holds(&self) -> bool
        ensures { result ≡ is_some self.now.kept }
    {
        !self.at.is_null()
    }

    /// The allocator. Requires that it holds one.
    pub fn lent(&self) -> &SimpleAtlasAllocator
        requires { IsSome self.now.kept }
        ensures { self.now.kept ≡ Some result.now }
    {
        unsafe { &*(self.at as *const SimpleAtlasAllocator) }
    }
}
