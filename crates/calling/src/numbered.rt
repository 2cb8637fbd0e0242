//! The keys of a cache, one after another.
ghost use Rattle.std.specs.Prelude.{◌≡◌, ◌==◌, count_by, map, Contains, IfOk, IfSome};
ghost use Rattle.atlas_cache.specs.Walking.{keyed_entries};

use atlas_cache::entries::DefaultHasher;
use atlas_cache::{Place, TextureCache};
use std::alloc::{AllocError, Allocator};

/// All keys, the most recently used first.
pub fn keys<A: Allocator + Copy>(
    alloc: A,
    cache: &TextureCache<u64, DefaultHasher, A>,
) -> Result<Vec<u64, A>, AllocError>
    ensures { IfOk result (λ keys. keys.items ≡ map (λ k. k.0) (keyed_entries cache.now)) }
{
    cache.iter().map(|(key, _)| key).collect(alloc)
}

/// How many keys have a place on a page.
pub fn keys_on<A: Allocator + Copy>(cache: &TextureCache<u64, DefaultHasher, A>, page: u32) -> usize
    ensures { result ≡ count_by (λ k. k.1.page == page) (keyed_entries cache.now) }
{
    cache.iter().filter(|(_, place)| place.page == page).count()
}

/// The key of a number, with its place; None if no entry has it.
pub fn key_of_number<A: Allocator + Copy>(
    cache: &TextureCache<u64, DefaultHasher, A>,
    number: u32,
) -> Option<(u64, Place)>
    ensures held { IfSome result (Contains (keyed_entries cache.now)) }
    ensures number { IfSome result (λ k. k.1.number ≡ number) }
{
    cache.iter().find(|(_, place)| place.number == number)
}
