//! What C holds of an atlas.
ghost use Rattle.std.specs.Prelude.{◌≡◌, is_some, Option, Some, None, IsSome};
ghost use Rattle.guillotiere.specs.States.{IsSound};
ghost use Rattle.guillotiere.specs.Stored.{AtlasValue, state_of};

use crate::held::{Held, hold, release};
use guillotiere::AtlasAllocator;
use std::alloc::Global;
use std::marker::Model;
use std::mem::replace;
use std::ptr::null_mut;

/// A place for an atlas: it holds one, or nothing, and then it is null.
#[repr(C)]
pub struct AtlasHandle {
    at: *mut u8,
    pub ghost kept: { Option AtlasValue },
}

impl Model for AtlasHandle {
    ghost use Rattle.guillotiere_c.specs.Keeping.{keeps_atlas};

    ghost also_owns = { λ h. keeps_atlas h.kept h.at };
}

impl AtlasHandle {
    /// A handle that holds nothing.
    pub fn none() -> AtlasHandle
        ensures { result.kept ≡ None }
    {
        AtlasHandle { at: null_mut() }
    }

    /// Drops a handle. Requires that it holds nothing, so that nothing is lost.
    pub fn forget(handle: AtlasHandle)
        requires { handle.kept ≡ None }
    {
        let AtlasHandle { at: _ } = handle;
    }

    /// Whether it holds an atlas.
    pub fn holds(&mut self) -> bool
        ensures { (self.new ≡ self.old) × (result ≡ is_some self.old.kept) }
    {
        !self.at.is_null()
    }

    /// A handle that holds what was taken apart.
    pub fn close(held: Held<AtlasAllocator, Global>) -> AtlasHandle
        ensures { result.kept ≡ Some held.value }
    {
        let Held { at, alloc: _ } = held;
        AtlasHandle { at: at as *mut u8 }
    }

    /// What it holds, taken apart. Requires that it holds an atlas.
    pub fn open(alloc: Global, handle: AtlasHandle) -> Held<AtlasAllocator, Global>
        requires { IsSome handle.kept }
        ensures { handle.kept ≡ Some result.value }
    {
        let AtlasHandle { at } = handle;
        Held {
            at: at as *mut AtlasAllocator,
            alloc,
        }
    }
}

impl AtlasHandle {
    /// Takes the atlas out; the handle holds nothing then. Requires that it holds an atlas.
    pub fn take(&mut self, alloc: Global) -> Box<AtlasAllocator>
        requires { IsSome self.old.kept }
        ensures taken { self.old.kept ≡ Some result.value }
        ensures none { self.new.kept ≡ None }
    {
        let handle = replace(self, AtlasHandle::none());
        release(AtlasHandle::open(alloc, handle))
    }

    /// Puts an atlas in. Requires that the handle holds nothing.
    pub fn put(&mut self, atlas: Box<AtlasAllocator>)
        requires { self.old.kept ≡ None }
        ensures put { self.new.kept ≡ Some atlas.value }
        ensures sound { IsSound (state_of atlas.value) }
    {
        atlas.prove_sound();
        let empty = replace(self, AtlasHandle::close(hold(atlas)));
        AtlasHandle::forget(empty);
    }
}

/// The place of an atlas for a call that only reads: what lies at the pointer is lent to it, and any number of
/// such calls may run at once.
#[repr(C)]
pub struct AtlasReader {
    at: *const u8,
    pub ghost kept: { Option AtlasValue },
}

impl Model for AtlasReader {
    ghost use Rattle.guillotiere_c.specs.Keeping.{lends, atlas_row};

    ghost also_owns = { λ h. lends atlas_row h.kept h.at };
}

impl AtlasReader {
    /// Whether it holds an atlas.
    pub fn holds(&self) -> bool
        ensures { result ≡ is_some self.now.kept }
    {
        !self.at.is_null()
    }

    /// The atlas. Requires that it holds one.
    pub fn lent(&self) -> &AtlasAllocator
        requires { IsSome self.now.kept }
        ensures { self.now.kept ≡ Some result.now }
    {
        unsafe { &*(self.at as *const AtlasAllocator) }
    }
}
