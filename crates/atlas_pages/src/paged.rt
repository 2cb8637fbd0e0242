//! Pages of a texture array without keys.
ghost use Rattle.std.specs.Prelude.{◌≡◌, ◌≢◌, ◌+◌, ◌<◌, ◌≤◌, ◌↔◌, ℕ, [], max, length, take, option_map, slice_get};
ghost use Rattle.std.specs.Prelude.{IfErr, IfOk, IfSome, IsOkUnless, IsSome, None, Ok, OnErr, OnOk, Some};
ghost use Rattle.guillotiere.specs.Boxes.{IsPositive};
ghost use Rattle.guillotiere.specs.Callers.{IsShortage};
ghost use Rattle.guillotiere.specs.Choice.{AreValid};
ghost use Rattle.guillotiere.specs.Pages.{page_sizes, rectangle_on, size_of_page, AddsBoxOn, AllLieApartOn, AllLieWithinOn};
ghost use Rattle.guillotiere.specs.Pages.{HasSameRectangles, LeavesNoBoxOn, NoneHasRoomBelow};
ghost use Rattle.guillotiere.specs.Pixels.{box_of, options_of, sides_of};
ghost use Rattle.guillotiere.specs.Steps.AtlasCall.{Allocate, Clear, Deallocate, Grow};
ghost use Rattle.guillotiere.specs.Steps.AtlasReply.{Allocated, Done, Refused};
ghost use Rattle.guillotiere.specs.Stored.{AtlasValue};
ghost use Rattle.guillotiere.specs.Trees.{grant};
ghost use Rattle.guillotiere.specs.TheConstants.{DEFAULT_OPTIONS};
ghost use Rattle.atlas_pages.specs.Paged.{AreIdleAmong, AreSpent, GrowsOn, IsGrantedOn};
ghost use Rattle.atlas_pages.specs.Paged.{IsGrowthFault, IsLastBusy, IsOptionsFault, IsRefusedOn, KeepsPaged, KeepsSettings};
ghost use Rattle.atlas_pages.specs.Paged.{StepsOn, told};

mod steps;

use crate::error::PagesError;
use crate::paged::steps::{
    add_page, busy_pages, check_start, clear_list, free_at, grant_first, grow_at,
};
use guillotiere::pages::prove_page;
use guillotiere::{
    AllocId, Allocation, AllocatorOptions, AtlasAllocator, AtlasError, DEFAULT_OPTIONS, Rectangle,
    Size,
};
use std::alloc::{Allocator, Global};
use std::marker::Model;

/// A box on a page of a `PagedAtlas`: the page, counted from 0, and there its id and its rectangle, in pixels.
#[derive(Clone, Copy, Debug, PartialEq, Eq)]
pub struct PageAllocation {
    pub page: u32,
    pub id: AllocId,
    pub rectangle: Rectangle,
}

/// Hands out boxes on the pages of a texture array, such as the layers of a texture, and takes them back: each page is an
/// `AtlasAllocator`. A page comes where no other has room, and the last ones go by `shrink` where nothing is on them. An id is one
/// of its page: another page may have the same. Contracts see a `PagedState`: what the atlas of each page stores, and with what
/// pages are made.
#[derive(Drop)]
pub struct PagedAtlas<A: Allocator + Copy = Global> {
    pages: Vec<AtlasAllocator<A>, A>,
    page_size: Size,
    options: AllocatorOptions,
    most: u32,
}

impl<A: Allocator + Copy> Model for PagedAtlas<A> {
    ghost use Rattle.atlas_pages.specs.Paged.{KeepsPaged, PagedState};

    ghost Value = { PagedState };

    ghost view = { λ a. record {
      pages = a.pages.items;
      page_size = a.page_size;
      options = a.options;
      most = a.most;
    } };

    ghost invariant = { λ a. KeepsPaged (record {
      pages = a.pages.items;
      page_size = a.page_size;
      options = a.options;
      most = a.most;
    }) };
}

// A page's number, or how many pages there are, as a `u32`.
fn number(page: usize, most: u32) -> u32
    requires { page ≤ most }
    ensures { result ≡ page }
{
    page as u32
}

// The answer to a request to a page, with the page's number.
fn at_page(
    page: usize,
    most: u32,
    answer: Result<Option<Allocation>, AtlasError>,
) -> Result<Option<PageAllocation>, AtlasError>
    requires { page ≤ most }
    ensures { result ≡ told page answer }
{
    match answer {
        Ok(Some(granted)) => Ok(Some(PageAllocation {
            page: number(page, most),
            id: granted.id,
            rectangle: granted.rectangle,
        })),
        Ok(None) => Ok(None),
        Err(error) => Err(error),
    }
}

impl<A: Allocator + Copy> PagedAtlas<A> {
    /// `with_options` with the default options.
    pub fn new(alloc: A, page_size: Size, most: u32) -> Result<Self, PagesError>
        ensures size { OnOk result (IsPositive (sides_of page_size)) }
        ensures fault { IfErr result (IsOptionsFault (sides_of page_size) (options_of DEFAULT_OPTIONS)) }
        ensures made { IfOk result (λ it. it ≡ record {
          pages = [];
          page_size = page_size;
          options = DEFAULT_OPTIONS;
          most = most;
        }) }
    {
        PagedAtlas::with_options(alloc, page_size, &DEFAULT_OPTIONS, most)
    }

    /// No page yet. Pages are made of this size, in pixels, and with these options, and there are at most so many. `EmptySize`,
    /// `Alignment` or `Thresholds` if the size is empty or the options aren't valid. Takes no memory.
    pub fn with_options(
        alloc: A,
        page_size: Size,
        options: &AllocatorOptions,
        most: u32,
    ) -> Result<Self, PagesError>
        ensures size { OnOk result (IsPositive (sides_of page_size)) }
        ensures valid { OnOk result (AreValid (options_of options.now)) }
        ensures fault { IfErr result (IsOptionsFault (sides_of page_size) (options_of options.now)) }
        ensures made { IfOk result (λ it. it ≡ record {
          pages = [];
          page_size = page_size;
          options = options.now;
          most = most;
        }) }
    {
        check_start(page_size, options)?;
        Ok(PagedAtlas {
            pages: Vec::new(alloc),
            page_size,
            options: *options,
            most,
        })
    }

    /// How many pages there are.
    pub fn page_count(&self) -> u32
        ensures count { result ≡ length self.now.pages }
        ensures few { result ≤ self.now.most }
    {
        number(self.pages.len(), self.most)
    }

    /// The atlases of the pages, by their numbers: what is on a page is told by its `iter`, `free_iter`, `areas` and the like.
    pub fn pages(&self) -> &[AtlasAllocator<A>]
        ensures { result.now ≡ self.now.pages }
    {
        &self.pages
    }

    /// The size of a page, in pixels; None if there is no such page.
    pub fn page_size(&self, page: u32) -> Option<Size>
        ensures { result ≡ option_map size_of_page (slice_get self.now.pages page) }
    {
        let atlas = self.pages.get(page as usize)?;
        Some(atlas.size())
    }

    /// The rectangle of an id that is live on this page, in pixels; None for every other id and page.
    pub fn get(&self, page: u32, id: AllocId) -> Option<Rectangle>
        ensures { result ≡ rectangle_on self.now.pages page id }
    {
        match self.pages.get(page as usize) {
            Some(atlas) => atlas.get(id),
            None => None,
        }
    }

    /// States what always holds of the pages, and does nothing: they are no more than there may be, and the rectangles of live ids of a
    /// page lie apart and within it.
    pub fn prove_kept(&self, page: u32)
        ensures kept { KeepsPaged self.now }
        ensures apart { AllLieApartOn self.now.pages page }
        ensures within { AllLieWithinOn self.now.pages page }
    {
        prove_page(&self.pages, page as usize);
    }

    /// Grants a request on the first page that has room for it. Where none has, a page is added. None if then there are as many
    /// pages as there may be, or if the request has no room on an empty page. `Slots` if the page has too few of them, `Memory` if
    /// memory is refused. Unless something is granted, nothing changes. One request of each page up to that one; where none has room, the
    /// making of a page.
    pub fn allocate(&mut self, size: Size) -> Result<Option<PageAllocation>, AtlasError>
        ensures step { IfOk result (λ granted. IfSome granted (λ a.
            StepsOn self.old self.new a.page (Allocate (sides_of size)) (Allocated (grant a.id (box_of a.rectangle))))) }
        ensures adds { IfOk result (λ granted. IfSome granted (λ a.
            AddsBoxOn self.old.pages self.new.pages a.page a.id a.rectangle)) }
        ensures granted { IfOk result (λ granted. IfSome granted (λ a. IsGrantedOn self.old size a.page a.rectangle)) }
        ensures first { IfOk result (λ granted. IfSome granted (λ a. NoneHasRoomBelow size self.old.pages a.page)) }
        ensures count { IfOk result (λ granted. IfSome granted (λ a.
            length self.new.pages ≡ max (length self.old.pages) (a.page + 1))) }
        ensures spent { result ≡ Ok None → AreSpent size self.old }
        ensures settings { KeepsSettings self.old self.new }
        ensures none { result ≡ Ok None → self.new ≡ self.old }
        ensures refused { OnErr result (self.new ≡ self.old) }
        ensures fault { IfErr result (IsRefusedOn size self.old) }
        ensures errors { IfErr result IsShortage }
    {
        match grant_first(&mut self.pages, size) {
            Some((page, answer)) => at_page(page, self.most, answer),
            None => self.allocate_anew(size),
        }
    }

    // Grants a request that no page has room for, on a page that is added; None if there are as many as there may be.
    fn allocate_anew(&mut self, size: Size) -> Result<Option<PageAllocation>, AtlasError>
        requires { NoneHasRoomBelow size self.old.pages (length self.old.pages) }
        ensures step { IfOk result (λ granted. IfSome granted (λ a.
            StepsOn self.old self.new a.page (Allocate (sides_of size)) (Allocated (grant a.id (box_of a.rectangle))))) }
        ensures adds { IfOk result (λ granted. IfSome granted (λ a.
            AddsBoxOn self.old.pages self.new.pages a.page a.id a.rectangle)) }
        ensures granted { IfOk result (λ granted. IfSome granted (λ a. IsGrantedOn self.old size a.page a.rectangle)) }
        ensures first { IfOk result (λ granted. IfSome granted (λ a. NoneHasRoomBelow size self.old.pages a.page)) }
        ensures count { IfOk result (λ granted. IfSome granted (λ a.
            length self.new.pages ≡ max (length self.old.pages) (a.page + 1))) }
        ensures spent { result ≡ Ok None → AreSpent size self.old }
        ensures settings { KeepsSettings self.old self.new }
        ensures none { result ≡ Ok None → self.new ≡ self.old }
        ensures refused { OnErr result (self.new ≡ self.old) }
        ensures fault { IfErr result (IsRefusedOn size self.old) }
        ensures errors { IfErr result IsShortage }
    {
        let page = self.pages.len();
        if page >= self.most as usize {
            return Ok(None);
        }
        let answer = add_page(&mut self.pages, self.page_size, &self.options, size);
        at_page(page, self.most, answer)
    }

    /// Frees the box of an id of a page. `NotLive` if there is no such page, or the id isn't live there; then nothing changes. The page
    /// stays, also where nothing is left on it. Takes no memory, and the time of a freeing on one page.
    pub fn deallocate(&mut self, page: u32, id: AllocId) -> Result<(), AtlasError>
        ensures step { OnOk result (StepsOn self.old self.new page (Deallocate id) Done) }
        ensures ok { (result ≡ Ok tt) ↔ IsSome (rectangle_on self.old.pages page id) }
        ensures unless { IsOkUnless result AtlasError.NotLive }
        ensures leaves { LeavesNoBoxOn self.old.pages self.new.pages page id }
        ensures length { length self.new.pages ≡ length self.old.pages }
        ensures settings { KeepsSettings self.old self.new }
        ensures refused { OnErr result (self.new ≡ self.old) }
    {
        if self.pages.len() <= page as usize {
            return Err(AtlasError::NotLive);
        }
        free_at(&mut self.pages, page as usize, id)
    }

    /// Makes a page larger: it has this size then, in pixels, and no rectangle moves. `NoPage` if there is no such page, `Shrinks` if a
    /// side is less than its present one, `Slots` or `Memory`, as `AtlasAllocator::grow` says. After an error nothing has changed. Later
    /// pages are made of the size that `new` was told. Takes the time of a growth of one atlas.
    pub fn grow(&mut self, page: u32, size: Size) -> Result<(), PagesError>
        ensures page { OnOk result (page < length self.old.pages) }
        ensures step { OnOk result (StepsOn self.old self.new page (Grow (sides_of size)) Done) }
        ensures grows { OnOk result (GrowsOn self.old.pages self.new.pages page size) }
        ensures fault { IfErr result (IsGrowthFault self.old.pages page size) }
        ensures length { length self.new.pages ≡ length self.old.pages }
        ensures settings { KeepsSettings self.old self.new }
        ensures refused { OnErr result (self.new ≡ self.old) }
    {
        grow_at(&mut self.pages, page as usize, size)
    }

    /// The pages behind the last one with a live id go, with their memory: how many are left. A page that such a one follows stays,
    /// though nothing is on it. No rectangle moves. Takes no memory; one step for each page.
    pub fn shrink(&mut self) -> u32
        ensures left { self.new.pages ≡ take result self.old.pages }
        ensures count { result ≡ length self.new.pages }
        ensures idle { AreIdleAmong self.old.pages result (length self.old.pages) }
        ensures busy { IsLastBusy self.old.pages result }
        ensures same { HasSameRectangles self.old.pages self.new.pages }
        ensures settings { KeepsSettings self.old self.new }
    {
        let busy = busy_pages(&self.pages);
        self.pages.truncate(busy);
        number(busy, self.most)
    }

    /// All boxes go. The pages stay, with their sizes; `shrink` lets them go. Takes no memory, and a start for each page.
    pub fn clear(&mut self)
        ensures each { (page : ℕ) → page < length self.old.pages → StepsOn self.old self.new page Clear Done }
        ensures idle { AreIdleAmong self.new.pages 0 (length self.new.pages) }
        ensures nothing { (page id : ℕ) → rectangle_on self.new.pages page id ≡ None }
        ensures sizes { page_sizes self.new.pages ≡ page_sizes self.old.pages }
        ensures settings { KeepsSettings self.old self.new }
    {
        clear_list(&mut self.pages);
    }
}
