//! The exports that report on a cache: how many keys and pages it has, and how it was used.
ghost use Rattle.std.specs.Prelude.{◌≡◌, ◌≢◌, ◌≤◌, ◌⊎◌, Some, None, IsNone, IsSome, length, slice_get};
ghost use Rattle.guillotiere.specs.Pages.{page_sizes};
ghost use Rattle.atlas_cache.specs.Asking.{AreUsable};
ghost use Rattle.atlas_cache.specs.Repacking.{free_by_page, live_by_page};
ghost use Rattle.atlas_cache.specs.Usable.{unusable_by_page};
ghost use Rattle.guillotiere_c.specs.CacheNumbers.{cache_options_in, counts_in};
ghost use Rattle.guillotiere_c.specs.Following.{HoldsCache};
ghost use Rattle.guillotiere_c.specs.Numbers.{size_in};

use crate::cache_handle::CacheReader;
use crate::plain::{DONE, EMPTY, MEMORY, NO_PAGE, PlainAreas, PlainSize, plain_size};
use crate::plain_cache::{PlainCacheOptions, PlainCounts, plain_cache_options, plain_counts};
use guillotiere::size2;

/// How many keys are held, at most 4294967295. `DONE`; `EMPTY`.
#[unsafe(no_mangle)]
pub extern "C" fn guillotiere_cache_len(cache: &CacheReader, len: &mut usize) -> u32
    ensures len { IsSome cache.now.kept → HoldsCache cache.now.kept (λ f. len.new ≡ length f.cache.entries) }
    ensures few { IsSome cache.now.kept → len.new ≤ 4294967295 }
    ensures done { IsSome cache.now.kept → result ≡ DONE }
    ensures empty { IsNone cache.now.kept → (result ≡ EMPTY) × (len.new ≡ len.old) }
{
    if !cache.holds() {
        return EMPTY;
    }
    let held = cache.lent().cache();
    *len = held.len();
    DONE
}

/// How many numbers keys have had since the cache was made or cleared: the number of each place is below this, and there are
/// never more than there ever were keys at once. `DONE`; `EMPTY`.
#[unsafe(no_mangle)]
pub extern "C" fn guillotiere_cache_numbers(cache: &CacheReader, numbers: &mut u32) -> u32
    ensures numbers { IsSome cache.now.kept → HoldsCache cache.now.kept (λ f. numbers.new ≡ f.cache.numbers) }
    ensures done { IsSome cache.now.kept → result ≡ DONE }
    ensures empty { IsNone cache.now.kept → (result ≡ EMPTY) × (numbers.new ≡ numbers.old) }
{
    if !cache.holds() {
        return EMPTY;
    }
    let held = cache.lent().cache();
    *numbers = held.numbers();
    DONE
}

/// How many pages there are. `DONE`; `EMPTY`.
#[unsafe(no_mangle)]
pub extern "C" fn guillotiere_cache_page_count(cache: &CacheReader, pages: &mut u32) -> u32
    ensures pages { IsSome cache.now.kept → HoldsCache cache.now.kept (λ f. pages.new ≡ length f.cache.pages) }
    ensures done { IsSome cache.now.kept → result ≡ DONE }
    ensures empty { IsNone cache.now.kept → (result ≡ EMPTY) × (pages.new ≡ pages.old) }
{
    if !cache.holds() {
        return EMPTY;
    }
    let held = cache.lent().cache();
    *pages = held.pages();
    DONE
}

/// The size of a page, counted from 0. `DONE`; `NO_PAGE`; `EMPTY`.
#[unsafe(no_mangle)]
pub extern "C" fn guillotiere_cache_page_size(
    cache: &CacheReader,
    page: u32,
    size: &mut PlainSize,
) -> u32
    ensures size { result ≡ DONE → HoldsCache cache.now.kept
        (λ f. slice_get (page_sizes f.cache.pages) page ≡ Some (size_in size.new)) }
    ensures none { result ≡ NO_PAGE → HoldsCache cache.now.kept
        (λ f. slice_get (page_sizes f.cache.pages) page ≡ None) }
    ensures unless { IsSome cache.now.kept → result ≢ DONE → result ≡ NO_PAGE }
    ensures unwritten { result ≢ DONE → size.new ≡ size.old }
    ensures empty { IsNone cache.now.kept → result ≡ EMPTY }
{
    if !cache.holds() {
        return EMPTY;
    }
    let held = cache.lent().cache();
    let found = held.page_size(page);
    match found {
        Some(found) => {
            *size = plain_size(found);
            DONE
        }
        None => NO_PAGE,
    }
}

/// The areas of a page, counted from 0: that of its keys, with their padding and what the alignment added, and that which is
/// free; together that of the page. Takes a step, however many keys there are. A page with much that is free, from which keys
/// are evicted all the same, is worth a repacking. `DONE`; `NO_PAGE`; `EMPTY`.
#[unsafe(no_mangle)]
pub extern "C" fn guillotiere_cache_areas(
    cache: &CacheReader,
    page: u32,
    areas: &mut PlainAreas,
) -> u32
    ensures allocated { result ≡ DONE → HoldsCache cache.now.kept
        (λ f. slice_get (live_by_page f.cache.pages) page ≡ Some areas.new.allocated) }
    ensures free { result ≡ DONE → HoldsCache cache.now.kept
        (λ f. slice_get (free_by_page f.cache.pages) page ≡ Some areas.new.free) }
    ensures none { result ≡ NO_PAGE → HoldsCache cache.now.kept
        (λ f. (slice_get (live_by_page f.cache.pages) page ≡ None)
        ⊎ (slice_get (free_by_page f.cache.pages) page ≡ None)) }
    ensures unless { IsSome cache.now.kept → result ≢ DONE → result ≡ NO_PAGE }
    ensures unwritten { result ≢ DONE → areas.new ≡ areas.old }
    ensures empty { IsNone cache.now.kept → result ≡ EMPTY }
{
    if !cache.holds() {
        return EMPTY;
    }
    let held = cache.lent().cache();
    let live = held.live_area(page);
    let free = held.free_area(page);
    let Some(allocated) = live else {
        return NO_PAGE;
    };
    let Some(free) = free else {
        return NO_PAGE;
    };
    *areas = PlainAreas { allocated, free };
    DONE
}

/// Of the area of a page that is free, what lies in free boxes which have no room for a key of this size, with its padding
/// and rounded up to the alignment. A side below 0 counts as 0, and 0 as the padding on both sides, though a key of an empty
/// size takes no room. Asked with the size of a usual key it says how fragmented the page is: where much is of no use, it is
/// time to repack it. Takes memory for a list of the page's free boxes, if there is such a page.
/// `DONE`; `NO_PAGE`; `MEMORY`; `EMPTY`.
#[unsafe(no_mangle)]
pub extern "C" fn guillotiere_cache_unusable_area(
    cache: &CacheReader,
    page: u32,
    width: i32,
    height: i32,
    area: &mut u64,
) -> u32
    ensures area { result ≡ DONE → HoldsCache cache.now.kept (λ f. slice_get
        (unusable_by_page f.cache.options (record { width = width; height = height }) f.cache.pages) page
        ≡ Some area.new) }
    ensures none { result ≡ NO_PAGE → HoldsCache cache.now.kept (λ f. slice_get
        (unusable_by_page f.cache.options (record { width = width; height = height }) f.cache.pages) page ≡ None) }
    ensures absent { HoldsCache cache.now.kept (λ f. length f.cache.pages ≤ page) → result ≡ NO_PAGE }
    ensures unless { IsSome cache.now.kept → result ≢ DONE → result ≢ NO_PAGE → result ≡ MEMORY }
    ensures unwritten { result ≢ DONE → area.new ≡ area.old }
    ensures empty { IsNone cache.now.kept → result ≡ EMPTY }
{
    if !cache.holds() {
        return EMPTY;
    }
    let held = cache.lent().cache();
    let found = held.unusable_area(page, size2(width, height));
    match found {
        Ok(Some(found)) => {
            *area = found;
            DONE
        }
        Ok(None) => NO_PAGE,
        Err(_) => MEMORY,
    }
}

/// The options with which the cache was made. `DONE`; `EMPTY`.
#[unsafe(no_mangle)]
pub extern "C" fn guillotiere_cache_options_of(
    cache: &CacheReader,
    options: &mut PlainCacheOptions,
) -> u32
    ensures options { IsSome cache.now.kept → HoldsCache cache.now.kept
        (λ f. cache_options_in options.new ≡ f.cache.options) }
    ensures usable { IsSome cache.now.kept → AreUsable (cache_options_in options.new) }
    ensures done { IsSome cache.now.kept → result ≡ DONE }
    ensures empty { IsNone cache.now.kept → (result ≡ EMPTY) × (options.new ≡ options.old) }
{
    if !cache.holds() {
        return EMPTY;
    }
    let held = cache.lent().cache();
    *options = plain_cache_options(held.options());
    DONE
}

/// The counts since the cache was made. Where a frame asks by `guillotiere_cache_get`, and inserts what that doesn't find, the
/// hit rate is `hits` by `hits` and `misses` together; where it only inserts, no miss is counted, and it is `hits` by calls.
/// Where `forced` grows, a `guillotiere_cache_repack` or a `guillotiere_cache_compact` helps; where `evictions` grows without
/// it, the pages are too small for what is drawn. `DONE`; `EMPTY`.
#[unsafe(no_mangle)]
pub extern "C" fn guillotiere_cache_statistics(cache: &CacheReader, counts: &mut PlainCounts) -> u32
    ensures counts { IsSome cache.now.kept → HoldsCache cache.now.kept (λ f. counts_in counts.new ≡ f.cache.counts) }
    ensures done { IsSome cache.now.kept → result ≡ DONE }
    ensures empty { IsNone cache.now.kept → (result ≡ EMPTY) × (counts.new ≡ counts.old) }
{
    if !cache.holds() {
        return EMPTY;
    }
    let held = cache.lent().cache();
    *counts = plain_counts(held.statistics());
    DONE
}
