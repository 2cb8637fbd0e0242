//! What crosses to C of boxes on several pages.
ghost use Rattle.std.specs.Prelude.{◌≡◌};
ghost use Rattle.guillotiere_c.specs.PagedNumbers.{page_allocation_in, pages_status};

use crate::plain::{BAD_CALL, NO_PAGE, PlainRectangle, plain_rectangle, status_of};
use atlas_pages::{PageAllocation, PagesError};

/// A live box on one of several pages: its page, counted from 0, its id there, which another page may have too, and its
/// rectangle.
#[repr(C)]
#[derive(Clone, Copy)]
pub struct PlainPageAllocation {
    pub page: u32,
    pub id: u32,
    pub rectangle: PlainRectangle,
}

/// A live box on a page as C has it.
pub fn plain_page_allocation(allocation: PageAllocation) -> PlainPageAllocation
    ensures { page_allocation_in result ≡ allocation }
{
    PlainPageAllocation {
        page: allocation.page,
        id: allocation.id.serialize(),
        rectangle: plain_rectangle(allocation.rectangle),
    }
}

/// The status of an error of pages.
pub fn status_of_pages_error(error: PagesError) -> u32
    ensures { result ≡ pages_status error }
{
    match error {
        PagesError::NoPage => NO_PAGE,
        PagesError::Refused(error) => status_of(error),
        PagesError::EmptySize
        | PagesError::Alignment
        | PagesError::Thresholds
        | PagesError::Shrinks => BAD_CALL,
    }
}
