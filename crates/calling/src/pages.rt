//! Pages of a texture array: several atlases in a list.
ghost use Rattle.std.specs.Prelude.{◌≡◌, ◌≢◌, ◌<◌, None, Ok, length, IfOk, IfSome, OnErr};
ghost use Rattle.guillotiere.specs.Callers.{RectanglesLieApart};
ghost use Rattle.guillotiere.specs.Pages.{AddsBoxOn, LeavesNoBoxOn};

use crate::apart::pair;
use guillotiere::pages::{allocate_on, deallocate_on, page_with_room};
use guillotiere::{AllocId, Allocation, AtlasAllocator, AtlasError, Rectangle, Size};
use std::alloc::Allocator;

/// Asks the first page that has room for a box. The other pages stay as they are.
pub fn place<A: Allocator + Copy>(
    pages: &mut [AtlasAllocator<A>],
    size: Size,
) -> Result<Option<(usize, Allocation)>, AtlasError>
    ensures adds { IfOk result (λ placed. IfSome placed (λ it.
        AddsBoxOn pages.old pages.new it.0 it.1.id it.1.rectangle)) }
    ensures inside { IfOk result (λ placed. IfSome placed (λ it. it.0 < length pages.new)) }
    ensures none { result ≡ Ok None → pages.new ≡ pages.old }
    ensures refused { OnErr result (pages.new ≡ pages.old) }
{
    let Some(page) = page_with_room(pages, size) else {
        return Ok(None);
    };
    match allocate_on(pages, page, size)? {
        Some(a) => Ok(Some((page, a))),
        None => Ok(None),
    }
}

/// Frees a box by its page and its id. The other pages stay as they are.
pub fn free<A: Allocator + Copy>(
    pages: &mut [AtlasAllocator<A>],
    page: usize,
    id: AllocId,
) -> Result<(), AtlasError>
    requires { page < length pages.old }
    ensures { LeavesNoBoxOn pages.old pages.new page id }
{
    deallocate_on(pages, page, id)
}

/// No two boxes of a page overlap.
pub fn apart<A: Allocator + Copy>(
    pages: &[AtlasAllocator<A>],
    page: usize,
    id: AllocId,
    other: AllocId,
) -> Option<(Rectangle, Rectangle)>
    requires page { page < length pages.now }
    requires differ { id ≢ other }
    ensures { IfSome result (λ pair. RectanglesLieApart pair.0 pair.1) }
{
    pair(&pages[page], id, other)
}
