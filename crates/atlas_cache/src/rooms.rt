//! The pages of a cache, each an atlas: small steps, of which none evicts.
ghost use Rattle.std.specs.Prelude.{◌≡◌, ◌≢◌, ◌↔◌, ◌*◌, ◌<◌, ◌≤◌, ℕ, min, pos, [], ◌∷◌, ◌++◌, length};
ghost use Rattle.std.specs.Prelude.{slice_get, slice_set, IfErr, IfNone, IfOk, IfSome, IsOkUnless, IsSome, IsTrue};
ghost use Rattle.std.specs.Prelude.{Err, None, Ok, OnErr, Some};
ghost use Rattle.guillotiere.specs.Boxes.{Fits, IsPositive};
ghost use Rattle.guillotiere.specs.Callers.{IsShortage};
ghost use Rattle.guillotiere.specs.Pages.{page_sizes, rectangle_on, AllLieApartOn, AllLieWithinOn, HasSameRectangles, KeepsPages};
ghost use Rattle.guillotiere.specs.Pages.{LeavesNoBoxOn, NoneHasRoomBelow};
ghost use Rattle.guillotiere.specs.Pixels.{natural, sides_of, size_of};
ghost use Rattle.atlas_cache.specs.declared.options.CacheOptions.{CacheOptions};
ghost use Rattle.atlas_cache.specs.Asking.{AreUsable};
ghost use Rattle.atlas_entries.specs.Entries.{no_page};
ghost use Rattle.atlas_cache.specs.Placing.{FreesOn, GrowsOn, IsGrowthShort, PlacesBefore, PlacesFirst, StartsOn};
ghost use Rattle.atlas_cache.specs.Reserving.{IsShortOfSlots, UseAtMost};
ghost use Rattle.atlas_cache.specs.Rooms.{grown_sides, growth_left, rooms_of, AreAllLargest};
ghost use Rattle.atlas_cache.specs.Rooms.{AreLargestBelow, HasRoomOnlyAmong, IsFirstToGrow, IsNothingLive};
ghost use Rattle.atlas_cache.specs.Rooms.{IsRefusal, KeepsRooms, LargestHasRoom};
ghost use Rattle.atlas_cache.specs.Shrinking.{DropsIdle, IsLastInUse};
ghost use Rattle.atlas_entries.specs.declared.error.CacheError.TheVariants.{Memory, Slots};

mod asking;
mod copying;
mod rehearsing;
pub mod repacking;
mod reserving;
mod usable;

use crate::options::CacheOptions;
use crate::rooms::asking::{Known, ask, changed};
use crate::rooms::repacking::area_on;
use atlas_entries::error::CacheError;
use guillotiere::pages::prove_page;
use guillotiere::{AllocId, Allocation, AtlasAllocator, AtlasError, Size};
use std::alloc::{Allocator, Global};
use std::marker::Model;

/// The atlases of the pages of a cache. Contracts see a `RoomsState`: the options, and what each atlas stores.
#[derive(Drop)]
pub struct Rooms<A: Allocator + Copy = Global> {
    pages: Vec<AtlasAllocator<A>, A>,
    // For each page two sizes that it has no room for, those that it refused last, as long as it doesn't change; and the area of what is
    // live on it.
    known: Vec<Known, A>,
    options: CacheOptions,
}

impl<A: Allocator + Copy> Model for Rooms<A> {
    ghost use Rattle.atlas_cache.specs.Rooms.{rooms_of, AreKnown, KeepsRooms, RoomsState};

    ghost Value = { RoomsState };

    ghost view = { λ r. rooms_of r.options r.pages.items };

    ghost invariant = { λ r. KeepsRooms (rooms_of r.options r.pages.items) × AreKnown r.pages.items r.known.items };
}

// Why a cache refuses what an atlas refused.
fn refusal(error: AtlasError) -> CacheError
    requires { IsShortage error }
    ensures refusal { IsRefusal result }
    ensures memory { result ≡ Memory → error ≡ AtlasError.Memory }
    ensures slots { result ≡ Slots → error ≡ AtlasError.Slots }
{
    match error {
        AtlasError::Slots => CacheError::Slots,
        _ => CacheError::Memory,
    }
}

// A page's number, or how many pages there are, as a `u32`.
fn number(page: usize, most: u32) -> u32
    requires { page ≤ most }
    ensures { result ≡ page }
{
    page as u32
}

// Whether a page is at its largest.
fn is_largest(size: Size, largest: Size) -> bool
    ensures { IsTrue result ↔ (size ≡ largest) }
{
    size == largest
}

// The first page that isn't at its largest, and its size.
fn first_to_grow<A: Allocator + Copy>(
    pages: &[AtlasAllocator<A>],
    largest: Size,
) -> Option<(usize, Size)>
    ensures before { IfSome result (λ found. AreLargestBelow largest (page_sizes pages.now) found.0) }
    ensures here { IfSome result (λ found. slice_get (page_sizes pages.now) found.0 ≡ Some found.1) }
    ensures smaller { IfSome result (λ found. found.1 ≢ largest) }
    ensures none { IfNone result (AreLargestBelow largest (page_sizes pages.now) (length pages.now)) }
{
    for page in 0..pages.len() {
        let size = pages[page].size();
        if !is_largest(size, largest) {
            return Some((page, size));
        }
    }
    None
}

// Twice a side, up to the largest.
fn doubled(side: i32, most: i32) -> i32
    requires side { 0 < natural side }
    requires most { natural side ≤ natural most }
    ensures { result ≡ pos (min (2 * natural side) (natural most)) }
{
    if side >= most - side {
        most
    } else {
        side + side
    }
}

// The size that a page grows to.
fn grown(size: Size, largest: Size) -> Size
    requires positive { IsPositive (sides_of size) }
    requires fits { Fits (sides_of size) (sides_of largest) }
    ensures { result ≡ size_of (grown_sides (sides_of largest) (sides_of size)) }
{
    if size.width < largest.width && (size.width <= size.height || size.height >= largest.height) {
        Size {
            width: doubled(size.width, largest.width),
            height: size.height,
        }
    } else {
        Size {
            width: size.width,
            height: doubled(size.height, largest.height),
        }
    }
}

impl<A: Allocator + Copy> Rooms<A> {
    /// No pages. Requires options of which `check` is Ok. Takes no memory.
    pub fn new(alloc: A, options: CacheOptions) -> Self
        requires { AreUsable options }
        ensures options { result.options ≡ options }
        ensures pages { result.pages ≡ [] }
    {
        Rooms {
            pages: Vec::new(alloc),
            known: Vec::new(alloc),
            options,
        }
    }

    /// How the cache was made.
    pub fn options(&self) -> CacheOptions
        ensures options { result ≡ self.now.options }
        ensures usable { AreUsable result }
    {
        self.options
    }

    /// How many pages there are: at most 4,294,967,295, so that none has the number `NO_PAGE`.
    pub fn len(&self) -> u32
        ensures pages { result ≡ length self.now.pages }
        ensures few { result ≤ self.now.options.pages }
        ensures numbered { result ≤ no_page }
    {
        number(self.pages.len(), self.options.pages)
    }

    /// Whether there are none.
    pub fn is_empty(&self) -> bool
        ensures { IsTrue result ↔ (self.now.pages ≡ []) }
    {
        self.pages.is_empty()
    }

    /// The size of a page, in pixels. Requires that there is such a page.
    pub fn page_size(&self, page: u32) -> Size
        requires { page < length self.now.pages }
        ensures { slice_get (page_sizes self.now.pages) page ≡ Some result }
    {
        self.pages[page as usize].size()
    }

    /// States what always holds of the pages as a whole, and does nothing: each has the options of the cache, the greatest limit on slots
    /// and a size from `page` to `largest_page`, and there are no more than the options allow.
    pub fn prove_pages(&self)
        ensures kept { KeepsRooms self.now }
        ensures numbered { length self.now.pages ≤ no_page }
        ensures usable { AreUsable self.now.options }
    {
        let _pages = &self.pages;
        let _len = self.len();
    }

    /// Whether there are as many pages as the options allow, each at its largest.
    pub(crate) fn are_full(&self) -> bool
        ensures all { IsTrue result → length self.now.pages ≡ self.now.options.pages }
        ensures largest { IsTrue result → AreAllLargest self.now.options (page_sizes self.now.pages) }
    {
        self.len() == self.options.pages
            && first_to_grow(&self.pages, self.options.largest_page).is_none()
    }

    /// States what always holds of the pages, and does nothing: each has the options of the cache, the greatest limit on slots and a
    /// size from `page` to `largest_page`, and there are no more than the options allow; the rectangles of live ids of a page lie apart and
    /// within it; an idle page of the largest size has room for whatever `CacheOptions::asked` asks for.
    pub fn prove_kept(&self)
        ensures kept { KeepsRooms self.now }
        ensures apart { (page : ℕ) → AllLieApartOn self.now.pages page }
        ensures within { (page : ℕ) → AllLieWithinOn self.now.pages page }
        ensures room { LargestHasRoom self.now }
    {
        for at in 0..self.pages.len() {
            prove_page(&self.pages, at);
        }
    }

    /// Grants a request on the first page that has room for it: the page, and what it granted, which has the sides that
    /// were asked for, rounded up to the alignment. None if no page has room. No page grows and no other rectangle
    /// moves. `Slots` if that page has too few of them, `Memory` if memory is refused. Unless something is granted,
    /// nothing changes.
    pub fn place(&mut self, asked: Size) -> Result<Option<(u32, Allocation)>, CacheError>
        ensures { PlacesFirst asked self.old self.new result }
    {
        let to = self.pages.len();
        self.place_among(0, to, asked)
    }

    // Grants a request as `place` does, where none but the pages from `from` on and before `to` can have room: only these are looked at.
    pub(crate) fn place_among(
        &mut self,
        from: usize,
        to: usize,
        asked: Size,
    ) -> Result<Option<(u32, Allocation)>, CacheError>
        requires inside { to ≤ length self.old.pages }
        requires others { HasRoomOnlyAmong asked self.old.pages from to }
        ensures { PlacesFirst asked self.old self.new result }
    {
        self.place_before(from, to, asked)
    }

    // Grants a request on the first page before `to` that has room for it, where those before `from` have none: only the others are
    // looked at, and of these only those are searched that changed since they refused a size that was no larger.
    pub(crate) fn place_before(
        &mut self,
        from: usize,
        to: usize,
        asked: Size,
    ) -> Result<Option<(u32, Allocation)>, CacheError>
        requires inside { to ≤ length self.old.pages }
        requires none { NoneHasRoomBelow asked self.old.pages from }
        ensures { PlacesBefore to asked self.old self.new result }
    {
        for page in from..to {
            match ask(&mut self.pages[page], &mut self.known[page], asked) {
                Ok(None) => {}
                Ok(Some(granted)) => return Ok(Some((number(page, self.options.pages), granted))),
                Err(error) => return Err(refusal(error)),
            }
        }
        Ok(None)
    }

    /// Frees the rectangle of an id of a page. Requires that the id is live there. No other rectangle moves. Takes no
    /// memory.
    pub fn free(&mut self, page: u32, id: AllocId)
        requires { IsSome (rectangle_on self.old.pages page id) }
        ensures leaves { LeavesNoBoxOn self.old.pages self.new.pages page id }
        ensures sizes { page_sizes self.new.pages ≡ page_sizes self.old.pages }
        ensures options { self.new.options ≡ self.old.options }
        ensures slots { UseAtMost 0 self.old.pages self.new.pages }
        ensures step { FreesOn self.old.pages self.new.pages page id }
    {
        let page = page as usize;
        let area = area_on(&self.pages[page], id);
        let _freed = self.pages[page].deallocate(id);
        self.known[page] = changed(self.known[page].live - area);
    }

    /// The first page that isn't at its largest grows: the page, and its size from now on, in pixels. Its smaller side,
    /// the width if they are equal, is doubled, but no further than the largest page's, or the other side if that one
    /// is at its largest. None exactly if each page is at its largest. No rectangle moves, and at most 3 more slots of the page are
    /// used. `Slots` if that page has too few of them, `Memory` if memory is refused. Unless a page grows, nothing changes.
    pub fn grow_page(&mut self) -> Result<Option<(u32, Size)>, CacheError>
        ensures first { IfOk result (λ grown. IfSome grown (λ growth.
            IsFirstToGrow self.old.options (page_sizes self.old.pages) growth.0 growth.1)) }
        ensures sizes { IfOk result (λ grown. IfSome grown (λ growth.
            page_sizes self.new.pages ≡ slice_set (page_sizes self.old.pages) growth.0 growth.1)) }
        ensures less { IfOk result (λ grown. IfSome grown (λ _.
            growth_left self.new.options (page_sizes self.new.pages)
            < growth_left self.old.options (page_sizes self.old.pages))) }
        ensures same { HasSameRectangles self.old.pages self.new.pages }
        ensures others { IfOk result (λ grown. IfSome grown (λ growth.
            KeepsPages self.old.pages self.new.pages growth.0)) }
        ensures slots { UseAtMost 3 self.old.pages self.new.pages }
        ensures options { self.new.options ≡ self.old.options }
        ensures none { (result ≡ Ok None) ↔ AreAllLargest self.old.options (page_sizes self.old.pages) }
        ensures nothing { result ≡ Ok None → self.new ≡ self.old }
        ensures refused { OnErr result (self.new ≡ self.old) }
        ensures errors { IfErr result IsRefusal }
        ensures short { result ≡ Err Slots → IsShortOfSlots self.old.pages }
        ensures lacks { result ≡ Err Slots → IsGrowthShort self.old.options self.old.pages }
        ensures step { IfOk result (λ grown. IfSome grown (λ growth.
            GrowsOn growth.1 self.old.pages self.new.pages growth.0)) }
    {
        let Some((page, old)) = first_to_grow(&self.pages, self.options.largest_page) else {
            return Ok(None);
        };
        let size = grown(old, self.options.largest_page);
        if let Err(error) = self.pages[page].grow(size) {
            return Err(refusal(error));
        }
        self.known[page] = changed(self.known[page].live);
        Ok(Some((number(page, self.options.pages), size)))
    }

    /// A new page with nothing on it comes last: its number and its size, in pixels. None exactly if there are as many
    /// as the options allow. No rectangle moves. `Memory` is the only error. Unless a page is added, nothing changes.
    pub fn add_page(&mut self) -> Result<Option<(u32, Size)>, CacheError>
        ensures last { IfOk result (λ added. IfSome added (λ page. page.0 ≡ length self.old.pages)) }
        ensures size { IfOk result (λ added. IfSome added (λ page. page.1 ≡ self.old.options.page)) }
        ensures sizes { IfOk result (λ added. IfSome added (λ page.
            page_sizes self.new.pages ≡ page_sizes self.old.pages ++ page.1 ∷ [])) }
        ensures less { IfOk result (λ added. IfSome added (λ _.
            growth_left self.new.options (page_sizes self.new.pages)
            < growth_left self.old.options (page_sizes self.old.pages))) }
        ensures same { HasSameRectangles self.old.pages self.new.pages }
        ensures others { IfOk result (λ added. IfSome added (λ page.
            KeepsPages self.old.pages self.new.pages page.0)) }
        ensures options { self.new.options ≡ self.old.options }
        ensures none { (result ≡ Ok None) ↔ (length self.old.pages ≡ self.old.options.pages) }
        ensures nothing { result ≡ Ok None → self.new ≡ self.old }
        ensures refused { OnErr result (self.new ≡ self.old) }
        ensures unless { IsOkUnless result CacheError.Memory }
        ensures start { IfOk result (λ added. IfSome added (λ page.
            StartsOn self.old.options self.new.pages page.0)) }
    {
        let number = self.len();
        if number == self.options.pages {
            return Ok(None);
        }
        let alloc = *self.pages.allocator();
        self.known.reserve(1)?;
        match AtlasAllocator::with_options(alloc, self.options.page, &self.options.atlas) {
            Ok(page) => {
                self.pages.push(page)?;
                self.known.push_reserved(changed(0));
                Ok(Some((number, self.options.page)))
            }
            Err(_) => Err(CacheError::Memory),
        }
    }

    /// The last page goes, if nothing is live on it: its number. None exactly if there is no page, or if something is live
    /// on the last one; then nothing changes. Takes no memory.
    pub fn remove_page(&mut self) -> Option<u32>
        ensures drops { IfSome result (λ page. DropsIdle page self.old.pages self.new.pages) }
        ensures options { self.new.options ≡ self.old.options }
        ensures used { result ≡ None → IsLastInUse self.old.pages }
        ensures none { result ≡ None → self.new ≡ self.old }
    {
        if self.pages.is_empty() {
            return None;
        }
        let last = self.pages.len() - 1;
        if !self.pages[last].is_empty() {
            return None;
        }
        self.pages.truncate(last);
        self.known.truncate(last);
        Some(number(last, self.options.pages))
    }

    /// All rectangles go. The pages stay, with their sizes and what they have in reserve. Takes no memory.
    pub fn clear(&mut self)
        ensures nothing { IsNothingLive self.new.pages }
        ensures sizes { page_sizes self.new.pages ≡ page_sizes self.old.pages }
        ensures options { self.new.options ≡ self.old.options }
        ensures slots { UseAtMost 0 self.old.pages self.new.pages }
    {
        for page in 0..self.pages.len() {
            let _cleared = self.pages[page].clear();
            self.known[page] = changed(0);
        }
    }
}
