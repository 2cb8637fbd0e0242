//! Pages of a texture array: several atlases in a list, each with ids of its own.
ghost use Rattle.std.specs.Prelude.{◌≡◌, ◌<◌, ◌↔◌, None, Ok, length, IfNone, IfOk, IfSome, IsOkUnless, IsSome};
ghost use Rattle.std.specs.Prelude.{◌≢◌, Err, IsTrue, OnErr};
ghost use Rattle.guillotiere.specs.Pages.{rectangle_on, AddsBoxOn, AllLieApartOn, AllLieWithinOn, HasRoomFor};
ghost use Rattle.guillotiere.specs.Pages.{HasReserveOn, HasRoomOn, UsesAtMostOn};
ghost use Rattle.guillotiere.specs.Pages.{IsAnswerOn, LeavesNoBoxOn, NoneHasRoomBelow, PagesAreGivenBack};

use crate::AtlasAllocator;
use atlas_model::{AllocId, Allocation, AtlasError, Size};
use std::alloc::Allocator;

/// Asks a page for a box, as `allocate` does: with 4 slots of the page in reserve never `Memory`. Requires that there is such a page.
/// The other pages stay as they are.
pub fn allocate_on<A: Allocator + Copy>(
    pages: &mut [AtlasAllocator<A>],
    page: usize,
    size: Size,
) -> Result<Option<Allocation>, AtlasError>
    requires { page < length pages.old }
    ensures adds { IfOk result (λ granted. IfSome granted (λ a.
        AddsBoxOn pages.old pages.new page a.id a.rectangle)) }
    ensures answer { IsAnswerOn pages.old page size result }
    ensures slots { UsesAtMostOn 4 pages.old pages.new page }
    ensures memory { HasReserveOn 4 pages.old page → result ≢ Err AtlasError.Memory }
    ensures none { result ≡ Ok None → pages.new ≡ pages.old }
    ensures refused { OnErr result (pages.new ≡ pages.old) }
    ensures length { length pages.new ≡ length pages.old }
{
    pages[page].allocate(size)
}

/// Frees the box of an id of a page, as `deallocate` does. Requires that there is such a page. `NotLive` if the id isn't
/// live there, and then nothing changes. What the page has in reserve it keeps. The other pages stay as they are.
pub fn deallocate_on<A: Allocator + Copy>(
    pages: &mut [AtlasAllocator<A>],
    page: usize,
    id: AllocId,
) -> Result<(), AtlasError>
    requires { page < length pages.old }
    ensures ok { (result ≡ Ok tt) ↔ IsSome (rectangle_on pages.old page id) }
    ensures unless { IsOkUnless result AtlasError.NotLive }
    ensures leaves { LeavesNoBoxOn pages.old pages.new page id }
    ensures slots { UsesAtMostOn 0 pages.old pages.new page }
    ensures refused { OnErr result (pages.new ≡ pages.old) }
    ensures length { length pages.new ≡ length pages.old }
{
    pages[page].deallocate(id)
}

// Whether a request has room on a page.
fn has_room<A: Allocator + Copy>(page: &AtlasAllocator<A>, size: Size) -> bool
    ensures { IsTrue result ↔ HasRoomFor size page.now }
{
    page.can_fit(size)
}

/// The first page on which a request has room, by `can_fit`; None if it has room on none.
pub fn page_with_room<A: Allocator + Copy>(pages: &[AtlasAllocator<A>], size: Size) -> Option<usize>
    ensures inside { IfSome result (λ page. page < length pages.now) }
    ensures room { IfSome result (λ page. HasRoomOn size pages.now page) }
    ensures first { IfSome result (λ page. NoneHasRoomBelow size pages.now page) }
    ensures none { IfNone result (NoneHasRoomBelow size pages.now (length pages.now)) }
{
    for page in 0..pages.len() {
        if has_room(&pages[page], size) {
            return Some(page);
        }
    }
    None
}

/// Says that the rectangles of live ids of a page lie within it and apart from one another, and does nothing.
pub fn prove_page<A: Allocator + Copy>(pages: &[AtlasAllocator<A>], page: usize)
    ensures apart { AllLieApartOn pages.now page }
    ensures within { AllLieWithinOn pages.now page }
{
    if page < pages.len() {
        pages[page].prove_sound();
    }
}

/// Does nothing. A law: once a grant on a page is freed, each id of each page has the rectangle that it had before.
pub fn pages_are_given_back()
    ensures { PagesAreGivenBack }
{}
