//! Steps along pages.
ghost use Rattle.std.specs.Prelude.{◌≡◌, ◌≤◌, ◌<◌, ◌↔◌, ℕ, length, IfErr, IfOk, IfSome, IsOkUnless, IsSome, None, Ok, OnErr, OnOk};
ghost use Rattle.std.specs.Prelude.{IsTrue};
ghost use Rattle.guillotiere.specs.Boxes.{IsPositive};
ghost use Rattle.guillotiere.specs.Callers.{HasFrame, IsAnswer, IsGranted, KeepsAll, KeepsFrame};
ghost use Rattle.guillotiere.specs.Choice.{AreValid, HasNoRoom};
ghost use Rattle.guillotiere.specs.Pages.{page_sizes, rectangle_on, AddsBoxOn, IsAnswerOn, LeavesNoBoxOn, NoneHasRoomBelow};
ghost use Rattle.guillotiere.specs.Pixels.{options_of, sides_of};
ghost use Rattle.guillotiere.specs.Replies.{allocate_reply, done_reply, grant_of};
ghost use Rattle.guillotiere.specs.States.{free_in, started};
ghost use Rattle.guillotiere.specs.Steps.{Step};
ghost use Rattle.guillotiere.specs.Steps.AtlasCall.{Allocate, Clear, Deallocate, Grow};
ghost use Rattle.guillotiere.specs.Steps.AtlasReply.{Allocated, Done, Refused};
ghost use Rattle.guillotiere.specs.Stored.{state_of};
ghost use Rattle.atlas_pages.specs.Paged.{AreIdleAmong, GrowsOn, IsFirstAnswer, IsFirstOn, IsGrowthFault, IsLastBusy};
ghost use Rattle.atlas_pages.specs.Paged.{IsOptionsFault};
ghost use Rattle.atlas_pages.specs.Paged.{IsGrowthFaultIn, IsIdle, IsNewFault, JoinsPage, StepsAt};

use crate::error::PagesError;
use guillotiere::{AllocId, Allocation, AllocatorOptions, AtlasAllocator, AtlasError, Size};
use std::alloc::Allocator;

// That a size isn't empty, and that options are valid.
pub(crate) fn check_start(size: Size, options: &AllocatorOptions) -> Result<(), PagesError>
    ensures ok { (result ≡ Ok tt) ↔ (IsPositive (sides_of size) × AreValid (options_of options.now)) }
    ensures fault { IfErr result (IsOptionsFault (sides_of size) (options_of options.now)) }
{
    if !size.is_positive() {
        return Err(PagesError::EmptySize);
    }
    if !options.alignment.is_positive() {
        return Err(PagesError::Alignment);
    }
    if options.small_size_threshold > options.large_size_threshold {
        return Err(PagesError::Thresholds);
    }
    Ok(())
}

// Asks a page for a box.
pub(crate) fn grant_on<A: Allocator + Copy>(
    pages: &mut [AtlasAllocator<A>],
    page: usize,
    size: Size,
) -> Result<Option<Allocation>, AtlasError>
    requires { page < length pages.old }
    ensures step { StepsAt pages.old pages.new page (Allocate (sides_of size)) (allocate_reply result) }
    ensures adds { IfOk result (λ granted. IfSome granted (λ a.
        AddsBoxOn pages.old pages.new page a.id a.rectangle)) }
    ensures answer { IsAnswerOn pages.old page size result }
    ensures none { result ≡ Ok None → pages.new ≡ pages.old }
    ensures refused { OnErr result (pages.new ≡ pages.old) }
    ensures length { length pages.new ≡ length pages.old }
{
    pages[page].allocate(size)
}

// Frees the box of an id of a page.
pub(crate) fn free_on<A: Allocator + Copy>(
    pages: &mut [AtlasAllocator<A>],
    page: usize,
    id: AllocId,
) -> Result<(), AtlasError>
    requires { page < length pages.old }
    ensures step { StepsAt pages.old pages.new page (Deallocate id) (done_reply result) }
    ensures ok { (result ≡ Ok tt) ↔ IsSome (rectangle_on pages.old page id) }
    ensures unless { IsOkUnless result AtlasError.NotLive }
    ensures leaves { LeavesNoBoxOn pages.old pages.new page id }
    ensures refused { OnErr result (pages.new ≡ pages.old) }
    ensures length { length pages.new ≡ length pages.old }
{
    pages[page].deallocate(id)
}

// `grant_on` in a list.
pub(crate) fn grant_at<A: Allocator + Copy>(
    pages: &mut Vec<AtlasAllocator<A>, A>,
    page: usize,
    size: Size,
) -> Result<Option<Allocation>, AtlasError>
    requires { page < length pages.old.items }
    ensures step { StepsAt pages.old.items pages.new.items page (Allocate (sides_of size)) (allocate_reply result) }
    ensures adds { IfOk result (λ granted. IfSome granted (λ a.
        AddsBoxOn pages.old.items pages.new.items page a.id a.rectangle)) }
    ensures answer { IsAnswerOn pages.old.items page size result }
    ensures none { result ≡ Ok None → pages.new.items ≡ pages.old.items }
    ensures refused { OnErr result (pages.new.items ≡ pages.old.items) }
    ensures length { length pages.new.items ≡ length pages.old.items }
{
    grant_on(pages, page, size)
}

// Whether a page has no room for a request.
fn is_nothing(answer: &Result<Option<Allocation>, AtlasError>) -> bool
    ensures { IsTrue result ↔ (answer.now ≡ Ok None) }
{
    match answer {
        Ok(None) => true,
        _ => false,
    }
}

// Asks one page after another for a box. The first that grants it, or refuses it by an error, and its answer; None if no page has room, and
// then nothing changes.
pub(crate) fn grant_first<A: Allocator + Copy>(
    pages: &mut Vec<AtlasAllocator<A>, A>,
    size: Size,
) -> Option<(usize, Result<Option<Allocation>, AtlasError>)>
    ensures some { IfSome result (λ it. IsFirstAnswer pages.old.items pages.new.items size it.0 it.1) }
    ensures none { result ≡ None → NoneHasRoomBelow size pages.old.items (length pages.old.items) }
    ensures stays { result ≡ None → pages.new.items ≡ pages.old.items }
    ensures length { length pages.new.items ≡ length pages.old.items }
{
    for page in 0..pages.len() {
        let answer = grant_at(pages, page, size);
        if !is_nothing(&answer) {
            return Some((page, answer));
        }
    }
    None
}

// `free_on` in a list.
pub(crate) fn free_at<A: Allocator + Copy>(
    pages: &mut Vec<AtlasAllocator<A>, A>,
    page: usize,
    id: AllocId,
) -> Result<(), AtlasError>
    requires { page < length pages.old.items }
    ensures step { StepsAt pages.old.items pages.new.items page (Deallocate id) (done_reply result) }
    ensures ok { (result ≡ Ok tt) ↔ IsSome (rectangle_on pages.old.items page id) }
    ensures unless { IsOkUnless result AtlasError.NotLive }
    ensures leaves { LeavesNoBoxOn pages.old.items pages.new.items page id }
    ensures refused { OnErr result (pages.new.items ≡ pages.old.items) }
    ensures length { length pages.new.items ≡ length pages.old.items }
{
    free_on(pages, page, id)
}

// `grow_on` in a list.
pub(crate) fn grow_at<A: Allocator + Copy>(
    pages: &mut Vec<AtlasAllocator<A>, A>,
    page: usize,
    size: Size,
) -> Result<(), PagesError>
    ensures page { OnOk result (page < length pages.old.items) }
    ensures step { OnOk result (StepsAt pages.old.items pages.new.items page (Grow (sides_of size)) Done) }
    ensures grows { OnOk result (GrowsOn pages.old.items pages.new.items page size) }
    ensures fault { IfErr result (IsGrowthFault pages.old.items page size) }
    ensures length { length pages.new.items ≡ length pages.old.items }
    ensures refused { OnErr result (pages.new.items ≡ pages.old.items) }
{
    grow_on(pages, page, size)
}

// `clear_all` of a list.
pub(crate) fn clear_list<A: Allocator + Copy>(pages: &mut Vec<AtlasAllocator<A>, A>)
    ensures each { (page : ℕ) → page < length pages.old.items → StepsAt pages.old.items pages.new.items page Clear Done }
    ensures idle { AreIdleAmong pages.new.items 0 (length pages.new.items) }
    ensures sizes { page_sizes pages.new.items ≡ page_sizes pages.old.items }
    ensures length { length pages.new.items ≡ length pages.old.items }
{
    clear_all(pages);
}

// What is granted on an empty page of this atlas.
fn first_on<A: Allocator + Copy>(
    page: &mut AtlasAllocator<A>,
    size: Size,
) -> Result<Option<Allocation>, AtlasError>
    ensures first { IfOk result (λ granted. IfSome granted (λ a. IsFirstOn (state_of page.old) page.new a.id a.rectangle)) }
    ensures step { Step (state_of page.old) (Allocate (sides_of size)) (allocate_reply result) (state_of page.new) }
    ensures answer { IsAnswer (state_of page.old) size result }
    ensures refused { OnErr result (page.new ≡ page.old) }
{
    page.allocate(size)
}

// A new page with a first box on it; None if the request has no room there.
pub(crate) fn page_for<A: Allocator + Copy>(
    alloc: A,
    page_size: Size,
    options: &AllocatorOptions,
    size: Size,
) -> Result<Option<(AtlasAllocator<A>, Allocation)>, AtlasError>
    requires size { IsPositive (sides_of page_size) }
    requires options { AreValid (options_of options.now) }
    ensures first { IfOk result (λ made. IfSome made (λ it.
        IsFirstOn (started (sides_of page_size) (options_of options.now) 16777216) it.0 it.1.id it.1.rectangle)) }
    ensures step { IfOk result (λ made. IfSome made (λ it.
        Step (started (sides_of page_size) (options_of options.now) 16777216) (Allocate (sides_of size)) (Allocated (grant_of it.1))
        (state_of it.0))) }
    ensures granted { IfOk result (λ made. IfSome made (λ it.
        IsGranted (started (sides_of page_size) (options_of options.now) 16777216) size it.1.rectangle)) }
    ensures none { result ≡ Ok None → HasNoRoom (free_in (started (sides_of page_size) (options_of options.now) 16777216))
        (options_of options.now) (sides_of size) }
    ensures errors { IfErr result (IsNewFault (started (sides_of page_size) (options_of options.now) 16777216) size) }
{
    let mut page = AtlasAllocator::with_options(alloc, page_size, options)?;
    match first_on(&mut page, size)? {
        Some(granted) => Ok(Some((page, granted))),
        None => Ok(None),
    }
}

// A page with a first box on it comes last; None if the request has no room there.
pub(crate) fn add_page<A: Allocator + Copy>(
    pages: &mut Vec<AtlasAllocator<A>, A>,
    page_size: Size,
    options: &AllocatorOptions,
    size: Size,
) -> Result<Option<Allocation>, AtlasError>
    requires size { IsPositive (sides_of page_size) }
    requires options { AreValid (options_of options.now) }
    ensures joins { IfOk result (λ granted. IfSome granted (λ a.
        JoinsPage (started (sides_of page_size) (options_of options.now) 16777216) pages.old.items pages.new.items size a)) }
    ensures none { result ≡ Ok None → HasNoRoom (free_in (started (sides_of page_size) (options_of options.now) 16777216))
        (options_of options.now) (sides_of size) }
    ensures stays { result ≡ Ok None → pages.new.items ≡ pages.old.items }
    ensures refused { OnErr result (pages.new.items ≡ pages.old.items) }
    ensures errors { IfErr result (IsNewFault (started (sides_of page_size) (options_of options.now) 16777216) size) }
{
    let alloc = *pages.allocator();
    let Some((page, granted)) = page_for(alloc, page_size, options, size)? else {
        return Ok(None);
    };
    pages.push(page)?;
    Ok(Some(granted))
}

// How many pages there are up to the last on which an id is live.
pub(crate) fn busy_pages<A: Allocator + Copy>(pages: &[AtlasAllocator<A>]) -> usize
    ensures few { result ≤ length pages.now }
    ensures idle { AreIdleAmong pages.now result (length pages.now) }
    ensures busy { IsLastBusy pages.now result }
{
    let mut busy = 0;
    for page in 0..pages.len() {
        if !pages[page].is_empty() {
            busy = page + 1;
        }
    }
    busy
}

// An atlas grows, if no side shrinks.
fn grow_page<A: Allocator + Copy>(
    page: &mut AtlasAllocator<A>,
    size: Size,
) -> Result<(), PagesError>
    ensures step { OnOk result (Step (state_of page.old) (Grow (sides_of size)) Done (state_of page.new)) }
    ensures fault { IfErr result (IsGrowthFaultIn page.old size) }
    ensures keeps { KeepsAll (state_of page.old) (state_of page.new) }
    ensures frame { OnOk result (HasFrame (state_of page.new) (sides_of size) (state_of page.old).options
        (state_of page.old).limit) }
    ensures refused { OnErr result (page.new ≡ page.old) }
{
    page.prove_sound();
    if !page.can_grow_to(size) {
        return Err(PagesError::Shrinks);
    }
    page.grow(size)?;
    Ok(())
}

// A page grows, if there is such a page and no side shrinks.
pub(crate) fn grow_on<A: Allocator + Copy>(
    pages: &mut [AtlasAllocator<A>],
    page: usize,
    size: Size,
) -> Result<(), PagesError>
    ensures page { OnOk result (page < length pages.old) }
    ensures step { OnOk result (StepsAt pages.old pages.new page (Grow (sides_of size)) Done) }
    ensures grows { OnOk result (GrowsOn pages.old pages.new page size) }
    ensures fault { IfErr result (IsGrowthFault pages.old page size) }
    ensures length { length pages.new ≡ length pages.old }
    ensures refused { OnErr result (pages.new ≡ pages.old) }
{
    if page >= pages.len() {
        return Err(PagesError::NoPage);
    }
    grow_page(&mut pages[page], size)
}

// All boxes of an atlas go.
fn clear_page<A: Allocator + Copy>(page: &mut AtlasAllocator<A>)
    ensures step { Step (state_of page.old) Clear Done (state_of page.new) }
    ensures idle { IsIdle page.new }
    ensures frame { KeepsFrame (state_of page.old) (state_of page.new) }
{
    let _cleared = page.clear();
}

// All boxes of all pages go.
pub(crate) fn clear_all<A: Allocator + Copy>(pages: &mut [AtlasAllocator<A>])
    ensures each { (page : ℕ) → page < length pages.old → StepsAt pages.old pages.new page Clear Done }
    ensures idle { AreIdleAmong pages.new 0 (length pages.new) }
    ensures sizes { page_sizes pages.new ≡ page_sizes pages.old }
    ensures length { length pages.new ≡ length pages.old }
{
    for page in 0..pages.len() {
        clear_page(&mut pages[page]);
    }
}
