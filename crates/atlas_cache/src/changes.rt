//! What a cache did that its caller has to follow.
use crate::places::Place;
use guillotiere::Size;
use std::alloc::Global;

/// What a call did. Pages are counted from 0, and sizes are in pixels.
#[derive(Clone, Copy, Debug, PartialEq, Eq)]
pub enum CacheChange<K> {
    /// There is a new page, the last one: make a texture of this size.
    PageAdded { page: u32, size: Size },
    /// A page has this size from now on, and nothing on it moved: make its texture larger.
    PageGrown { page: u32, size: Size },
    /// A key is gone, and this was its place.
    Evicted { key: K, place: Place },
    /// A key moved on its page: copy `from.rectangle`, out of a copy of the page as it was before the call, to
    /// `to.rectangle`.
    Moved { key: K, from: Place, to: Place },
    /// The last page, which had nothing on it, is gone: drop its texture.
    PageRemoved { page: u32 },
}

/// Changes in their order. A call appends what it did, even if it was refused halfway.
pub type Changes<K, A = Global> = Vec<CacheChange<K>, A>;
