//! Calls of one of several pages.
ghost use Rattle.std.specs.Prelude.{◌≡◌, ◌≢◌, ◌<◌, ◌↔◌, Err, None, Ok, length, IfErr, IfOk, IfSome, IsSome, OnErr, OnOk};
ghost use Rattle.guillotiere.specs.declared.AtlasError.TheVariants.{Memory, NotLive};
ghost use Rattle.guillotiere.specs.Callers.{IsShortage};
ghost use Rattle.guillotiere.specs.Pages.{rectangle_on, AddsBoxOn, HasReserveOn, IsAnswerOn, LeavesNoBoxOn, UsesAtMostOn};
ghost use Rattle.guillotiere_total.specs.declared.error.CallError.TheVariants.{Refused};
ghost use Rattle.guillotiere_total.specs.Answers.{IfMade};
ghost use Rattle.guillotiere_total.specs.Faults.{IsPageFault};

use crate::error::CallError;
use guillotiere::{AllocId, Allocation, AtlasAllocator, Size, pages};
use std::alloc::Allocator;

/// `pages::allocate_on` with any number of a page. `NoPage`; or `Slots` or `Memory`, as `allocate` says.
pub fn allocate_on<A: Allocator + Copy>(
    pages: &mut [AtlasAllocator<A>],
    page: usize,
    size: Size,
) -> Result<Option<Allocation>, CallError>
    ensures page { OnOk result (page < length pages.old) }
    ensures fault { IfErr result (IsPageFault IsShortage (length pages.old) page) }
    ensures adds { IfOk result (λ granted. IfSome granted (λ a.
        AddsBoxOn pages.old pages.new page a.id a.rectangle)) }
    ensures answer { IfMade result (IsAnswerOn pages.old page size) }
    ensures slots { UsesAtMostOn 4 pages.old pages.new page }
    ensures memory { HasReserveOn 4 pages.old page → result ≢ Err (Refused Memory) }
    ensures none { result ≡ Ok None → pages.new ≡ pages.old }
    ensures refused { OnErr result (pages.new ≡ pages.old) }
    ensures length { length pages.new ≡ length pages.old }
{
    if page >= pages.len() {
        return Err(CallError::NoPage);
    }
    Ok(pages::allocate_on(pages, page, size)?)
}

/// `pages::deallocate_on` with any number of a page. `NoPage`; or `NotLive` if the id isn't live there.
pub fn deallocate_on<A: Allocator + Copy>(
    pages: &mut [AtlasAllocator<A>],
    page: usize,
    id: AllocId,
) -> Result<(), CallError>
    ensures fault { IfErr result (IsPageFault (λ e. e ≡ NotLive) (length pages.old) page) }
    ensures ok { (result ≡ Ok tt) ↔ IsSome (rectangle_on pages.old page id) }
    ensures leaves { LeavesNoBoxOn pages.old pages.new page id }
    ensures slots { UsesAtMostOn 0 pages.old pages.new page }
    ensures refused { OnErr result (pages.new ≡ pages.old) }
    ensures length { length pages.new ≡ length pages.old }
{
    if page >= pages.len() {
        return Err(CallError::NoPage);
    }
    pages::deallocate_on(pages, page, id)?;
    Ok(())
}
