//! What C holds of a cache.
ghost use Rattle.std.specs.Prelude.{◌≡◌, is_some, Option, Some, None, IsSome};
ghost use Rattle.guillotiere_c.specs.CacheCalls.{AlwaysHolds};
ghost use Rattle.guillotiere_c.specs.Following.{Followed};

use crate::followed::FollowedCache;
use crate::held::{Held, hold, release};
use std::alloc::Global;
use std::marker::Model;
use std::mem::replace;
use std::ptr::null_mut;

/// A place for a cache: it holds one, or nothing, and then it is null.
#[repr(C)]
pub struct CacheHandle {
    at: *mut u8,
    pub ghost kept: { Option Followed },
}

impl Model for CacheHandle {
    ghost use Rattle.guillotiere_c.specs.Keeping.{keeps_cache};

    ghost also_owns = { λ h. keeps_cache h.kept h.at };
}

impl CacheHandle {
    /// A handle that holds nothing.
    pub fn none() -> CacheHandle
        ensures { result.kept ≡ None }
    {
        CacheHandle { at: null_mut() }
    }

    /// Drops a handle. Requires that it holds nothing, so that nothing is lost.
    pub fn forget(handle: CacheHandle)
        requires { handle.kept ≡ None }
    {
        let CacheHandle { at: _ } = handle;
    }

    /// Whether it holds a cache.
    pub fn holds(&mut self) -> bool
        ensures { (self.new ≡ self.old) × (result ≡ is_some self.old.kept) }
    {
        !self.at.is_null()
    }

    /// A handle that holds what was taken apart.
    pub fn close(held: Held<FollowedCache, Global>) -> CacheHandle
        ensures { result.kept ≡ Some held.value }
    {
        let Held { at, alloc: _ } = held;
        CacheHandle { at: at as *mut u8 }
    }

    /// What it holds, taken apart. Requires that it holds a cache.
    pub fn open(alloc: Global, handle: CacheHandle) -> Held<FollowedCache, Global>
        requires { IsSome handle.kept }
        ensures { handle.kept ≡ Some result.value }
    {
        let CacheHandle { at } = handle;
        Held {
            at: at as *mut FollowedCache,
            alloc,
        }
    }
}

impl CacheHandle {
    /// Takes the cache out; the handle holds nothing then. Requires that it holds a cache.
    pub fn take(&mut self, alloc: Global) -> Box<FollowedCache>
        requires { IsSome self.old.kept }
        ensures taken { self.old.kept ≡ Some result.value }
        ensures none { self.new.kept ≡ None }
    {
        let handle = replace(self, CacheHandle::none());
        release(CacheHandle::open(alloc, handle))
    }

    /// Puts a cache in. Requires that the handle holds nothing.
    pub fn put(&mut self, cache: Box<FollowedCache>)
        requires { self.old.kept ≡ None }
        ensures put { self.new.kept ≡ Some cache.value }
        ensures kept { AlwaysHolds cache.value.cache }
    {
        cache.prove_kept();
        let empty = replace(self, CacheHandle::close(hold(cache)));
        CacheHandle::forget(empty);
    }
}

/// The place of a cache for a call that only reads: what lies at the pointer is lent to it, and any number of
/// such calls may run at once.
#[repr(C)]
pub struct CacheReader {
    at: *const u8,
    pub ghost kept: { Option Followed },
}

impl Model for CacheReader {
    ghost use Rattle.guillotiere_c.specs.Keeping.{lends, cache_row};

    ghost also_owns = { λ h. lends cache_row h.kept h.at };
}

impl CacheReader {
    /// Whether it holds a cache.
    pub fn holds(&self) -> bool
        ensures { result ≡ is_some self.now.kept }
    {
        !self.at.is_null()
    }

    /// The cache. Requires that it holds one.
    pub fn lent(&self) -> &FollowedCache
        requires { IsSome self.now.kept }
        ensures { self.now.kept ≡ Some result.now }
    {
        unsafe { &*(self.at as *const FollowedCache) }
    }
}
