//! Copies of entries, each under the number and the key that it has.
ghost use Rattle.std.specs.Prelude.{◌≡◌, ◌≤◌, IfOk};
ghost use Rattle.std.specs.HashMap.{get, hash_map_len};

use crate::entries::Entries;
use std::alloc::{AllocError, Allocator};
use std::clone::Clone;
use std::collections::HashMap;
use std::hash::{BuildHasher, Hash};

// A map with the same keys and numbers, with another hasher.
fn copied_map<K: Copy + Eq + Hash, S: BuildHasher + Drop, A: Allocator + Copy>(
    map: &HashMap<K, u32, S, A>,
    alloc: A,
    hasher: S,
) -> Result<HashMap<K, u32, S, A>, AllocError>
    ensures same { IfOk result (λ copy. (k : K) → get K.eq copy k ≡ get K.eq map.now k) }
    ensures held { IfOk result (λ copy. hash_map_len map.now ≤ hash_map_len copy) }
{
    let mut copy = HashMap::with_hasher(alloc, hasher);
    copy.reserve(map.len())?;
    for (key, number) in map {
        let _new = copy.insert(*key, *number)?;
    }
    Ok(copy)
}

impl<K: Copy + Eq + Hash, S: BuildHasher + Clone, A: Allocator + Copy> Entries<K, S, A> {
    /// A copy, in new memory of the same allocator: the same entries under the same numbers and keys, in the same order. None are in
    /// reserve.
    pub fn copy(&self) -> Result<Self, AllocError>
        ensures { IfOk result (λ copy. copy ≡ record self.now { reserved = 0 }) }
    {
        let alloc = *self.items.allocator();
        let hasher = self.map.hasher().clone()?;
        let map = copied_map(&self.map, alloc, hasher)?;
        let recency = self.recency.copy()?;
        let items = Vec::from_slice(alloc, &self.items)?;
        Ok(Entries {
            map,
            recency,
            items,
            mark: self.mark,
        })
    }
}
