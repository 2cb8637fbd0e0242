//! What C holds of boxes on several pages.
ghost use Rattle.std.specs.Prelude.{◌≡◌, is_some, Option, Some, None, IsSome};
ghost use Rattle.atlas_pages.specs.Paged.{KeepsPaged, PagedState};

use crate::held::{Held, hold, release};
use atlas_pages::PagedAtlas;
use std::alloc::Global;
use std::marker::Model;
use std::mem::replace;
use std::ptr::null_mut;

/// A place for boxes on several pages: it holds a paged atlas, or nothing, and then it is null.
#[repr(C)]
pub struct PagedHandle {
    at: *mut u8,
    pub ghost kept: { Option PagedState },
}

impl Model for PagedHandle {
    ghost use Rattle.guillotiere_c.specs.Keeping.{keeps_paged};

    ghost also_owns = { λ h. keeps_paged h.kept h.at };
}

impl PagedHandle {
    /// A handle that holds nothing.
    pub fn none() -> PagedHandle
        ensures { result.kept ≡ None }
    {
        PagedHandle { at: null_mut() }
    }

    /// Drops a handle. Requires that it holds nothing, so that nothing is lost.
    pub fn forget(handle: PagedHandle)
        requires { handle.kept ≡ None }
    {
        let PagedHandle { at: _ } = handle;
    }

    /// Whether it holds a paged atlas.
    pub fn holds(&mut self) -> bool
        ensures { (self.new ≡ self.old) × (result ≡ is_some self.old.kept) }
    {
        !self.at.is_null()
    }

    /// A handle that holds what was taken apart.
    pub fn close(held: Held<PagedAtlas, Global>) -> PagedHandle
        ensures { result.kept ≡ Some held.value }
    {
        let Held { at, alloc: _ } = held;
        PagedHandle { at: at as *mut u8 }
    }

    /// What it holds, taken apart. Requires that it holds a paged atlas.
    pub fn open(alloc: Global, handle: PagedHandle) -> Held<PagedAtlas, Global>
        requires { IsSome handle.kept }
        ensures { handle.kept ≡ Some result.value }
    {
        let PagedHandle { at } = handle;
        Held {
            at: at as *mut PagedAtlas,
            alloc,
        }
    }
}

impl PagedHandle {
    /// Takes the paged atlas out; the handle holds nothing then. Requires that it holds a paged atlas.
    pub fn take(&mut self, alloc: Global) -> Box<PagedAtlas>
        requires { IsSome self.old.kept }
        ensures taken { self.old.kept ≡ Some result.value }
        ensures none { self.new.kept ≡ None }
    {
        let handle = replace(self, PagedHandle::none());
        release(PagedHandle::open(alloc, handle))
    }

    /// Puts a paged atlas in. Requires that the handle holds nothing.
    pub fn put(&mut self, paged: Box<PagedAtlas>)
        requires { self.old.kept ≡ None }
        ensures put { self.new.kept ≡ Some paged.value }
        ensures kept { KeepsPaged paged.value }
    {
        paged.prove_kept(0);
        let empty = replace(self, PagedHandle::close(hold(paged)));
        PagedHandle::forget(empty);
    }
}

/// The place of boxes on several pages for a call that only reads: what lies at the pointer is lent to it, and any number of
/// such calls may run at once.
#[repr(C)]
pub struct PagedReader {
    at: *const u8,
    pub ghost kept: { Option PagedState },
}

impl Model for PagedReader {
    ghost use Rattle.guillotiere_c.specs.Keeping.{lends, paged_row};

    ghost also_owns = { λ h. lends paged_row h.kept h.at };
}

impl PagedReader {
    /// Whether it holds a paged atlas.
    pub fn holds(&self) -> bool
        ensures { result ≡ is_some self.now.kept }
    {
        !self.at.is_null()
    }

    /// The paged atlas. Requires that it holds one.
    pub fn lent(&self) -> &PagedAtlas
        requires { IsSome self.now.kept }
        ensures { self.now.kept ≡ Some result.now }
    {
        unsafe { &*(self.at as *const PagedAtlas) }
    }
}
