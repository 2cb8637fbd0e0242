//! The exports of boxes on several pages.
ghost use Rattle.std.specs.Prelude.{◌≡◌, ◌≢◌, ◌↔◌, ◌≤◌, IsOkUnless, IsSome, IsSomeAnd, IsNone, List, Some, None};
ghost use Rattle.std.specs.Prelude.{length, option_map, slice_get, Ok, OnErr, OnOk};
ghost use Rattle.guillotiere.specs.Boxes.{IsPositive};
ghost use Rattle.guillotiere.specs.Choice.{AreValid};
ghost use Rattle.guillotiere.specs.Pages.{rectangle_on, size_of_page, AllLieApartOn, AllLieWithinOn};
ghost use Rattle.guillotiere.specs.Pixels.{options_of};
ghost use Rattle.guillotiere.specs.Stored.{state_of};
ghost use Rattle.guillotiere.specs.TheConstants.{DEFAULT_OPTIONS};
ghost use Rattle.guillotiere.specs.Visits.{AreGrants};
ghost use Rattle.guillotiere.specs.declared.Allocation.{Allocation as Granted};
ghost use Rattle.atlas_pages.specs.Paged.{KeepsPaged};
ghost use Rattle.guillotiere_c.specs.Numbers.{allocation_in, allocator_options_in, corners_in, options_in, sides_in, size_in};
ghost use Rattle.guillotiere_c.specs.PagedCalls.{free_area_of, live_area_of, no_pages, HoldsPaged, IsGrowthRefusal, IsPageClearing};
ghost use Rattle.guillotiere_c.specs.PagedCalls.{IsPageFreeing, IsPageGrowth, IsPageRequest, IsPageShrinking, PagesGoOver};
ghost use Rattle.guillotiere_c.specs.PagedNumbers.{page_answer};
ghost use Rattle.guillotiere_c.specs.Writing.{IsWritten};

use crate::paged_handle::{PagedHandle, PagedReader};
use crate::plain::{
    BAD_CALL, DONE, EMPTY, MEMORY, NO_PAGE, NO_ROOM, NOT_LIVE, OCCUPIED, PlainAllocation,
    PlainAreas, PlainOptions, PlainRectangle, PlainSize, options_for, plain_rectangle, plain_size,
    status_of, status_of_done,
};
use crate::plain_paged::{PlainPageAllocation, plain_page_allocation, status_of_pages_error};
use crate::writing::write_allocations;
use atlas_pages::{PageAllocation, PagedAtlas};
use guillotiere::{AllocId, AllocatorOptions, AtlasError, DEFAULT_OPTIONS, Size, size2};
use std::alloc::Global;

// Makes a paged atlas where the handle holds nothing.
fn start(
    alloc: Global,
    width: i32,
    height: i32,
    options: &AllocatorOptions,
    most: u32,
    paged: &mut PagedHandle,
) -> u32
    ensures made { result ≡ DONE → HoldsPaged paged.new.kept
        (λ s. s ≡ no_pages (record { width = width; height = height }) options.now most) }
    ensures usable { result ≡ DONE → IsPositive (sides_in width height) × AreValid (options_of options.now) }
    ensures bad { result ≡ BAD_CALL → IsPositive (sides_in width height) × AreValid (options_of options.now) → ⊥ }
    ensures good { result ≡ MEMORY → IsPositive (sides_in width height) × AreValid (options_of options.now) }
    ensures refused { result ≢ DONE → paged.new.kept ≡ paged.old.kept }
    ensures memory { result ≢ DONE → result ≢ BAD_CALL → IsNone paged.old.kept → result ≡ MEMORY }
    ensures full { IsSome paged.old.kept → result ≡ OCCUPIED }
{
    if paged.holds() {
        return OCCUPIED;
    }
    let made = PagedAtlas::with_options(alloc, size2(width, height), options, most);
    let Ok(made) = made else {
        return BAD_CALL;
    };
    match Box::new(alloc, made) {
        Ok(held) => {
            paged.put(held);
            DONE
        }
        Err(_) => MEMORY,
    }
}

/// Makes a paged atlas, which has no page yet, with the default options, where the handle holds nothing. Pages are made of this
/// size, as many as are needed, but at most `most`. `DONE`; `BAD_CALL` if a side isn't above 0; `MEMORY`; `OCCUPIED`, before
/// all others, if the handle holds one already.
#[unsafe(no_mangle)]
pub extern "C" fn guillotiere_paged_new(
    alloc: Global,
    width: i32,
    height: i32,
    most: u32,
    paged: &mut PagedHandle,
) -> u32
    ensures made { result ≡ DONE → HoldsPaged paged.new.kept
        (λ s. s ≡ no_pages (record { width = width; height = height }) DEFAULT_OPTIONS most) }
    ensures usable { result ≡ DONE → IsPositive (sides_in width height) }
    ensures bad { result ≡ BAD_CALL → IsPositive (sides_in width height) → ⊥ }
    ensures good { result ≡ MEMORY → IsPositive (sides_in width height) }
    ensures refused { result ≢ DONE → paged.new.kept ≡ paged.old.kept }
    ensures memory { result ≢ DONE → result ≢ BAD_CALL → IsNone paged.old.kept → result ≡ MEMORY }
    ensures full { IsSome paged.old.kept → result ≡ OCCUPIED }
{
    start(alloc, width, height, &DEFAULT_OPTIONS, most, paged)
}

/// Makes a paged atlas as `guillotiere_paged_new` does, the atlas of each page with these options. `DONE`; `BAD_CALL` if a side
/// isn't above 0 or the options aren't valid; `MEMORY`; `OCCUPIED`, before all others, if the handle holds one already.
#[unsafe(no_mangle)]
pub extern "C" fn guillotiere_paged_with_options(
    alloc: Global,
    width: i32,
    height: i32,
    options: &PlainOptions,
    most: u32,
    paged: &mut PagedHandle,
) -> u32
    ensures made { result ≡ DONE → HoldsPaged paged.new.kept
        (λ s. s ≡ no_pages (record { width = width; height = height }) (allocator_options_in options.now) most) }
    ensures usable { result ≡ DONE → IsPositive (sides_in width height) × AreValid (options_in options.now) }
    ensures bad { result ≡ BAD_CALL → IsPositive (sides_in width height) × AreValid (options_in options.now) → ⊥ }
    ensures good { result ≡ MEMORY → IsPositive (sides_in width height) × AreValid (options_in options.now) }
    ensures refused { result ≢ DONE → paged.new.kept ≡ paged.old.kept }
    ensures memory { result ≢ DONE → result ≢ BAD_CALL → IsNone paged.old.kept → result ≡ MEMORY }
    ensures full { IsSome paged.old.kept → result ≡ OCCUPIED }
{
    let options = options_for(options);
    start(alloc, width, height, &options, most, paged)
}

/// Frees a paged atlas, with all its memory; the handle holds nothing then.
#[unsafe(no_mangle)]
pub extern "C" fn guillotiere_paged_free(alloc: Global, paged: &mut PagedHandle)
    ensures { paged.new.kept ≡ None }
{
    if !paged.holds() {
        return;
    }
    let _held = paged.take(alloc);
}

// Requests a box; what the export's contract needs of the answer.
fn request(paged: &mut PagedAtlas, size: Size) -> Result<Option<PageAllocation>, AtlasError>
    ensures { IsPageRequest size result paged.old paged.new }
{
    paged.allocate(size)
}

// Writes what a request was granted.
fn write_granted(
    answer: Result<Option<PageAllocation>, AtlasError>,
    granted: &mut PlainPageAllocation,
) -> u32
    ensures answer { page_answer result granted.new ≡ Some answer }
    ensures unwritten { result ≢ DONE → granted.new ≡ granted.old }
{
    match answer {
        Ok(Some(found)) => {
            *granted = plain_page_allocation(found);
            DONE
        }
        Ok(None) => NO_ROOM,
        Err(error) => status_of(error),
    }
}

/// Asks for a box of this size, rounded up by the options, on the first page that has room for it. Where none has, a page is
/// added, as the last one. `DONE`: `granted` has its page, its id and its rectangle, which overlaps no other live box of that
/// page. `NO_ROOM` if there are as many pages as there may be, or the size has no room on an empty page; `SLOTS` if that page
/// has too few of them, of 16777216; `MEMORY`; `EMPTY`. Takes one search on each page up to that one.
#[unsafe(no_mangle)]
pub extern "C" fn guillotiere_paged_allocate(
    alloc: Global,
    paged: &mut PagedHandle,
    width: i32,
    height: i32,
    granted: &mut PlainPageAllocation,
) -> u32
    ensures request { IsSome paged.old.kept → IsSomeAnd (page_answer result granted.new) (λ answer.
        PagesGoOver paged.old.kept paged.new.kept
        (IsPageRequest (record { width = width; height = height }) answer)) }
    ensures refused { result ≢ DONE → (paged.new.kept ≡ paged.old.kept) × (granted.new ≡ granted.old) }
    ensures kept { IsSome paged.old.kept → HoldsPaged paged.new.kept KeepsPaged }
    ensures empty { IsNone paged.old.kept → result ≡ EMPTY }
{
    if !paged.holds() {
        return EMPTY;
    }
    let mut held = paged.take(alloc);
    let answer = request(&mut held, size2(width, height));
    paged.put(held);
    write_granted(answer, granted)
}

// Frees a box; what the export's contract needs of the answer.
fn free(paged: &mut PagedAtlas, page: u32, id: AllocId) -> Result<(), AtlasError>
    ensures frees { OnOk result (IsPageFreeing page id paged.old paged.new) }
    ensures ok { (result ≡ Ok tt) ↔ IsSome (rectangle_on paged.old.pages page id) }
    ensures unless { IsOkUnless result AtlasError.NotLive }
    ensures refused { OnErr result (paged.new ≡ paged.old) }
{
    paged.deallocate(page, id)
}

/// Frees the box of an id that is live on a page: it joins the free space next to it. The page stays, also where nothing is
/// left on it. Takes no memory. `DONE`; `NOT_LIVE`, also if there is no such page; `EMPTY`.
#[unsafe(no_mangle)]
pub extern "C" fn guillotiere_paged_deallocate(
    alloc: Global,
    paged: &mut PagedHandle,
    page: u32,
    id: u32,
) -> u32
    ensures frees { result ≡ DONE → PagesGoOver paged.old.kept paged.new.kept (IsPageFreeing page id) }
    ensures live { IsSome paged.old.kept → HoldsPaged paged.old.kept
        (λ s. (result ≡ DONE) ↔ IsSome (rectangle_on s.pages page id)) }
    ensures unless { IsSome paged.old.kept → result ≢ DONE → result ≡ NOT_LIVE }
    ensures refused { result ≢ DONE → paged.new.kept ≡ paged.old.kept }
    ensures kept { IsSome paged.old.kept → HoldsPaged paged.new.kept KeepsPaged }
    ensures empty { IsNone paged.old.kept → result ≡ EMPTY }
{
    if !paged.holds() {
        return EMPTY;
    }
    let mut held = paged.take(alloc);
    let answer = free(&mut held, page, AllocId::deserialize(id));
    paged.put(held);
    status_of_done(answer)
}

/// The rectangle of an id that is live on a page. `DONE`: it is in `found`. `NOT_LIVE`, also if there is no such page; `EMPTY`.
#[unsafe(no_mangle)]
pub extern "C" fn guillotiere_paged_get(
    paged: &PagedReader,
    page: u32,
    id: u32,
    found: &mut PlainRectangle,
) -> u32
    ensures rectangle { result ≡ DONE → HoldsPaged paged.now.kept
        (λ s. rectangle_on s.pages page id ≡ Some (corners_in found.new)) }
    ensures none { result ≡ NOT_LIVE → HoldsPaged paged.now.kept (λ s. rectangle_on s.pages page id ≡ None) }
    ensures apart { IsSome paged.now.kept → HoldsPaged paged.now.kept (λ s. AllLieApartOn s.pages page) }
    ensures within { IsSome paged.now.kept → HoldsPaged paged.now.kept (λ s. AllLieWithinOn s.pages page) }
    ensures unless { IsSome paged.now.kept → result ≢ DONE → result ≡ NOT_LIVE }
    ensures unwritten { result ≢ DONE → found.new ≡ found.old }
    ensures empty { IsNone paged.now.kept → result ≡ EMPTY }
{
    if !paged.holds() {
        return EMPTY;
    }
    let held = paged.lent();
    held.prove_kept(page);
    let rectangle = held.get(page, AllocId::deserialize(id));
    match rectangle {
        Some(rectangle) => {
            *found = plain_rectangle(rectangle);
            DONE
        }
        None => NOT_LIVE,
    }
}

// Makes a page larger; what the export's contract needs of the answer.
fn enlarge(paged: &mut PagedAtlas, page: u32, size: Size) -> u32
    ensures grows { result ≡ DONE → IsPageGrowth page size paged.old paged.new }
    ensures refusal { result ≢ DONE → IsGrowthRefusal page size result paged.old }
    ensures refused { result ≢ DONE → paged.new ≡ paged.old }
{
    match paged.grow(page, size) {
        Ok(()) => DONE,
        Err(error) => status_of_pages_error(error),
    }
}

/// Makes a page larger; every live id keeps its rectangle, and pages that are added later are as before. `DONE`; `NO_PAGE`;
/// `BAD_CALL` if a side shrinks; `SLOTS`; `MEMORY`; `EMPTY`.
#[unsafe(no_mangle)]
pub extern "C" fn guillotiere_paged_grow(
    alloc: Global,
    paged: &mut PagedHandle,
    page: u32,
    width: i32,
    height: i32,
) -> u32
    ensures grows { result ≡ DONE → PagesGoOver paged.old.kept paged.new.kept
        (IsPageGrowth page (record { width = width; height = height })) }
    ensures refusal { IsSome paged.old.kept → result ≢ DONE → HoldsPaged paged.old.kept
        (IsGrowthRefusal page (record { width = width; height = height }) result) }
    ensures refused { result ≢ DONE → paged.new.kept ≡ paged.old.kept }
    ensures kept { IsSome paged.old.kept → HoldsPaged paged.new.kept KeepsPaged }
    ensures empty { IsNone paged.old.kept → result ≡ EMPTY }
{
    if !paged.holds() {
        return EMPTY;
    }
    let mut held = paged.take(alloc);
    let status = enlarge(&mut held, page, size2(width, height));
    paged.put(held);
    status
}

// Lets the last pages go; what the export's contract needs of the answer.
fn shorten(paged: &mut PagedAtlas) -> u32
    ensures { IsPageShrinking result paged.old paged.new }
{
    paged.shrink()
}

/// Drops the pages behind the last one with a live id, with their memory, and writes how many are left. A page that such a one
/// follows stays, though nothing is on it. No rectangle moves. Takes no memory. `DONE`; `EMPTY`.
#[unsafe(no_mangle)]
pub extern "C" fn guillotiere_paged_shrink(
    alloc: Global,
    paged: &mut PagedHandle,
    left: &mut u32,
) -> u32
    ensures shrinks { IsSome paged.old.kept → PagesGoOver paged.old.kept paged.new.kept (IsPageShrinking left.new) }
    ensures done { IsSome paged.old.kept → result ≡ DONE }
    ensures kept { IsSome paged.old.kept → HoldsPaged paged.new.kept KeepsPaged }
    ensures empty { IsNone paged.old.kept → (result ≡ EMPTY) × (paged.new.kept ≡ None) × (left.new ≡ left.old) }
{
    if !paged.holds() {
        return EMPTY;
    }
    let mut held = paged.take(alloc);
    *left = shorten(&mut held);
    paged.put(held);
    DONE
}

// Frees all boxes; what the export's contract needs of it.
fn free_all(paged: &mut PagedAtlas)
    ensures { IsPageClearing paged.old paged.new }
{
    paged.clear();
}

/// Frees all boxes. The pages stay, with their sizes; `guillotiere_paged_shrink` drops them. Takes no memory. `DONE`; `EMPTY`.
#[unsafe(no_mangle)]
pub extern "C" fn guillotiere_paged_clear(alloc: Global, paged: &mut PagedHandle) -> u32
    ensures clears { IsSome paged.old.kept → PagesGoOver paged.old.kept paged.new.kept IsPageClearing }
    ensures done { IsSome paged.old.kept → result ≡ DONE }
    ensures kept { IsSome paged.old.kept → HoldsPaged paged.new.kept KeepsPaged }
    ensures empty { IsNone paged.old.kept → (result ≡ EMPTY) × (paged.new.kept ≡ None) }
{
    if !paged.holds() {
        return EMPTY;
    }
    let mut held = paged.take(alloc);
    free_all(&mut held);
    paged.put(held);
    DONE
}

/// How many pages there are. `DONE`; `EMPTY`.
#[unsafe(no_mangle)]
pub extern "C" fn guillotiere_paged_page_count(paged: &PagedReader, pages: &mut u32) -> u32
    ensures pages { IsSome paged.now.kept → HoldsPaged paged.now.kept (λ s. pages.new ≡ length s.pages) }
    ensures few { IsSome paged.now.kept → HoldsPaged paged.now.kept (λ s. pages.new ≤ s.most) }
    ensures done { IsSome paged.now.kept → result ≡ DONE }
    ensures empty { IsNone paged.now.kept → (result ≡ EMPTY) × (pages.new ≡ pages.old) }
{
    if !paged.holds() {
        return EMPTY;
    }
    let held = paged.lent();
    *pages = held.page_count();
    DONE
}

/// The size of a page, counted from 0. `DONE`; `NO_PAGE`; `EMPTY`.
#[unsafe(no_mangle)]
pub extern "C" fn guillotiere_paged_page_size(
    paged: &PagedReader,
    page: u32,
    size: &mut PlainSize,
) -> u32
    ensures size { result ≡ DONE → HoldsPaged paged.now.kept
        (λ s. option_map size_of_page (slice_get s.pages page) ≡ Some (size_in size.new)) }
    ensures none { result ≡ NO_PAGE → HoldsPaged paged.now.kept
        (λ s. option_map size_of_page (slice_get s.pages page) ≡ None) }
    ensures unless { IsSome paged.now.kept → result ≢ DONE → result ≡ NO_PAGE }
    ensures unwritten { result ≢ DONE → size.new ≡ size.old }
    ensures empty { IsNone paged.now.kept → result ≡ EMPTY }
{
    if !paged.holds() {
        return EMPTY;
    }
    let held = paged.lent();
    let found = held.page_size(page);
    match found {
        Some(found) => {
            *size = plain_size(found);
            DONE
        }
        None => NO_PAGE,
    }
}

/// The areas of all live and of all free boxes of a page, counted from 0, in one pass over its slots. `DONE`; `NO_PAGE`;
/// `EMPTY`.
#[unsafe(no_mangle)]
pub extern "C" fn guillotiere_paged_areas(
    paged: &PagedReader,
    page: u32,
    areas: &mut PlainAreas,
) -> u32
    ensures allocated { result ≡ DONE → HoldsPaged paged.now.kept (λ s. IsSomeAnd (slice_get s.pages page)
        (λ v. areas.new.allocated ≡ live_area_of v)) }
    ensures free { result ≡ DONE → HoldsPaged paged.now.kept (λ s. IsSomeAnd (slice_get s.pages page)
        (λ v. areas.new.free ≡ free_area_of v)) }
    ensures none { result ≡ NO_PAGE → HoldsPaged paged.now.kept (λ s. slice_get s.pages page ≡ None) }
    ensures unless { IsSome paged.now.kept → result ≢ DONE → result ≡ NO_PAGE }
    ensures unwritten { result ≢ DONE → areas.new ≡ areas.old }
    ensures empty { IsNone paged.now.kept → result ≡ EMPTY }
{
    if !paged.holds() {
        return EMPTY;
    }
    let held = paged.lent().pages();
    match held.get(page as usize) {
        Some(atlas) => {
            *areas = PlainAreas {
                allocated: atlas.allocated_area(),
                free: atlas.free_area(),
            };
            DONE
        }
        None => NO_PAGE,
    }
}

/// Writes the live boxes of a page, counted from 0, by rising slot, which is the low 24 bits of the id: as many as there is
/// room for, and into `count` how many there are. What `found` has after them stays. `DONE`; `NO_PAGE`; `MEMORY`; `EMPTY`.
#[unsafe(no_mangle)]
pub extern "C" fn guillotiere_paged_live(
    paged: &PagedReader,
    page: u32,
    found: &mut [PlainAllocation],
    count: &mut usize,
) -> u32
    ensures list { result ≡ DONE → HoldsPaged paged.now.kept (λ s. IsSomeAnd (slice_get s.pages page)
        (λ v. (list : List Granted) × AreGrants (state_of v) list
        × (count.new ≡ length list) × IsWritten allocation_in list found.old found.new)) }
    ensures none { result ≡ NO_PAGE → HoldsPaged paged.now.kept (λ s. slice_get s.pages page ≡ None) }
    ensures there { result ≡ MEMORY → HoldsPaged paged.now.kept (λ s. IsSome (slice_get s.pages page)) }
    ensures unless { IsSome paged.now.kept → result ≢ DONE → result ≢ NO_PAGE → result ≡ MEMORY }
    ensures refused { result ≢ DONE → (found.new ≡ found.old) × (count.new ≡ count.old) }
    ensures empty { IsNone paged.now.kept → result ≡ EMPTY }
{
    if !paged.holds() {
        return EMPTY;
    }
    let held = paged.lent().pages();
    let Some(atlas) = held.get(page as usize) else {
        return NO_PAGE;
    };
    let Ok(list) = atlas.allocations() else {
        return MEMORY;
    };
    write_allocations(&list, found);
    *count = list.len();
    DONE
}
