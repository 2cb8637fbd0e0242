//! A page's rectangles placed anew, and the areas of a page.
ghost use Rattle.std.specs.Prelude.{◌≡◌, ◌+◌, ◌-◌, ◌*◌, ◌<◌, All, Err, IsPermutation, length, map, slice_get, IfErr, IfOk, IfSome};
ghost use Rattle.std.specs.Prelude.{IsOkUnless, IsTrue, Ok, OnErr, OnOk, None, Some, []};
ghost use Rattle.std.specs.List.{list_any};
ghost use Rattle.guillotiere.specs.Boxes.{area, box_sides, Box};
ghost use Rattle.guillotiere.specs.Pages.{page_sizes};
ghost use Rattle.guillotiere.specs.Pixels.{box_of, sides_of};
ghost use Rattle.guillotiere.specs.Rearranging.{rearrangement_of, AreExactChanges};
ghost use Rattle.guillotiere.specs.Refits.Refitted.{HasExactRectangle, IsRefitOf};
ghost use Rattle.guillotiere.specs.Replies.{allocate_reply, grant_of, live_box, IsExact};
ghost use Rattle.guillotiere.specs.Reserves.{UsesAtMost};
ghost use Rattle.guillotiere.specs.States.{used_in};
ghost use Rattle.guillotiere.specs.Steps.{Step};
ghost use Rattle.guillotiere.specs.Steps.AtlasCall.{Allocate};
ghost use Rattle.guillotiere.specs.Stored.{state_of};
ghost use Rattle.atlas_cache.specs.Repacking.{free_by_page, live_by_page, IsLargestFirst, LosesSome, NamesPage, PlacesAnew};
ghost use Rattle.atlas_cache.specs.Repacking.{RepacksPage};
ghost use Rattle.atlas_cache.specs.Rooms.{has_area, IsRefusal};
ghost use Rattle.atlas_entries.specs.declared.error.CacheError.TheVariants.{Slots};

use crate::rooms::asking::changed;
use crate::rooms::usable::{extent, pixels_of};
use crate::rooms::{Rooms, refusal};
use atlas_entries::error::CacheError;
use guillotiere::{AllocId, Allocation, AtlasAllocator, Change, ChangeList, Rectangle, Size};
use std::alloc::Allocator;
use std::cmp::Reverse;

// How many pixels a rectangle has. A coordinate below 0 counts as 0.
pub(crate) fn area_of(rectangle: Rectangle) -> u64
    ensures { result ≡ area (box_of rectangle) }
{
    extent(rectangle.min.x, rectangle.max.x) * extent(rectangle.min.y, rectangle.max.y)
}

// How many pixels the rectangle of a live id has.
pub(crate) fn area_on<A: Allocator + Copy>(page: &AtlasAllocator<A>, id: AllocId) -> u64
    ensures { (box : Box) → live_box (state_of page.now) id ≡ Some box → result ≡ area box }
{
    match page.get(id) {
        Some(rectangle) => area_of(rectangle),
        None => 0,
    }
}

// Puts rectangles into the order in which they are placed: the largest first. Those of one area keep their order.
fn sort_by_area<A: Allocator>(held: &mut Vec<Allocation, A>) -> Result<(), CacheError>
    ensures permuted { IsPermutation held.old.items held.new.items }
    ensures ordered { OnOk result (IsLargestFirst held.old.items held.new.items) }
    ensures unless { IsOkUnless result CacheError.Memory }
{
    held.sort_by_key(|held| Reverse(area_of(held.rectangle)))?;
    Ok(())
}

// The size of a rectangle.
pub(crate) fn size_of_box(rectangle: Rectangle) -> Size
    requires { IsExact rectangle }
    ensures { sides_of result ≡ box_sides (box_of rectangle) }
{
    rectangle.size()
}

// Asks an atlas for a rectangle of the same sides.
fn request<A: Allocator + Copy>(
    atlas: &mut AtlasAllocator<A>,
    rectangle: Rectangle,
) -> Result<Option<Allocation>, CacheError>
    requires { IsExact rectangle }
    ensures step { IfOk result (λ granted. Step (state_of atlas.old) (Allocate (box_sides (box_of rectangle)))
        (allocate_reply (Ok granted)) (state_of atlas.new)) }
    ensures exact { IfOk result (λ granted. IfSome granted HasExactRectangle) }
    ensures errors { IfErr result IsRefusal }
    ensures slots { UsesAtMost 4 atlas.old atlas.new }
    ensures limit { (state_of atlas.new).limit ≡ (state_of atlas.old).limit }
    ensures short { result ≡ Err Slots → (state_of atlas.old).limit < used_in (state_of atlas.old) + 4 }
{
    match atlas.allocate(size_of_box(rectangle)) {
        Ok(granted) => Ok(granted),
        Err(error) => Err(refusal(error)),
    }
}

// Places rectangles in an atlas, in this order: what was granted, and what found no room, in the room of the order.
fn place_all<A: Allocator + Copy>(
    atlas: &mut AtlasAllocator<A>,
    order: Vec<Allocation, A>,
) -> Result<ChangeList<A>, CacheError>
    requires exact { All HasExactRectangle order.items }
    ensures refits { IfOk result (λ list. IsRefitOf (state_of atlas.old) (map grant_of order.items)
        (rearrangement_of list) (state_of atlas.new)) }
    ensures exact { IfOk result AreExactChanges }
    ensures errors { IfErr result IsRefusal }
    ensures short { result ≡ Err Slots
        → (state_of atlas.old).limit < used_in (state_of atlas.old) + 4 * length order.items }
{
    let mut failures = order;
    let mut changes = Vec::new(*failures.allocator());
    let mut failed = 0;
    for at in 0..failures.len() {
        let old = failures[at];
        match request(atlas, old.rectangle)? {
            Some(new) => changes.push(Change { old, new })?,
            None => {
                failures[failed] = old;
                failed += 1;
            }
        }
    }
    failures.truncate(failed);
    Ok(ChangeList { changes, failures })
}

impl<A: Allocator + Copy> Rooms<A> {
    /// Places rectangles in an empty page of the size of this one, which becomes this page: the largest first, and
    /// those of one area in the order of the list. Requires that there is such a page, and rectangles with the coordinates
    /// of boxes. If the list names what is live on the page, each once, then the answer lists each rectangle of the
    /// page once: those that were placed anew, with their former and their new ids, and those that found no room when
    /// their turn came, whose ids are no longer live. All former ids of the page are void. Other pages stay as they
    /// are. None, and then nothing changes, exactly if `whole` is asked for and one would find no room. `Slots` if the page has too few
    /// of them, which takes more than 4,194,303 rectangles, `Memory` if memory is refused; then nothing changes.
    pub fn repack(
        &mut self,
        page: u32,
        held: Vec<Allocation, A>,
        whole: bool,
    ) -> Result<Option<ChangeList<A>>, CacheError>
        requires page { page < length self.old.pages }
        requires exact { All HasExactRectangle held.items }
        ensures repacks { NamesPage self.old.pages page held.items
            → IfOk result (λ made. IfSome made (RepacksPage self.old.pages self.new.pages page)) }
        ensures placed { IfOk result (λ made. IfSome made (λ list. PlacesAnew self.old.pages self.new.pages page held.items
            list.changes.items list.failures.items)) }
        ensures all { IsTrue whole → IfOk result (λ made. IfSome made (λ list. list.failures.items ≡ [])) }
        ensures loses { result ≡ Ok None → IsTrue whole × LosesSome self.old.pages page held.items }
        ensures stays { result ≡ Ok None → self.new ≡ self.old }
        ensures sizes { page_sizes self.new.pages ≡ page_sizes self.old.pages }
        ensures options { self.new.options ≡ self.old.options }
        ensures refused { OnErr result (self.new ≡ self.old) }
        ensures errors { IfErr result IsRefusal }
        ensures short { result ≡ Err Slots → 16777216 < 1 + 4 * length held.items }
    {
        let mut order = held;
        sort_by_area(&mut order)?;
        let page = page as usize;
        let alloc = *self.pages.allocator();
        let size = self.pages[page].size();
        let Ok(mut placed) = AtlasAllocator::with_options(alloc, size, &self.options.atlas) else {
            return Err(CacheError::Memory);
        };
        let list = place_all(&mut placed, order)?;
        placed.prove_sound();
        if whole && !list.failures.is_empty() {
            return Ok(None);
        }
        self.known[page] = changed(placed.allocated_area());
        self.pages[page] = placed;
        Ok(Some(list))
    }

    /// The area of all live rectangles of a page together, in unit squares. Requires that there is such a page. Takes no
    /// memory, and no walk.
    pub fn live_area(&self, page: u32) -> u64
        requires { page < length self.now.pages }
        ensures { slice_get (live_by_page self.now.pages) page ≡ Some result }
    {
        self.known[page as usize].live
    }

    /// The area of all free rectangles of a page together, in unit squares. Requires that there is such a page. Takes no
    /// memory, and no walk.
    pub fn free_area(&self, page: u32) -> u64
        requires { page < length self.now.pages }
        ensures { slice_get (free_by_page self.now.pages) page ≡ Some result }
    {
        let atlas = &self.pages[page as usize];
        atlas.prove_sound();
        pixels_of(atlas.size()) - self.known[page as usize].live
    }

    /// Whether some page has as much free area as a request of this size has, in however many parts. A step for each page until then.
    pub(crate) fn have_area(&self, asked: Size) -> bool
        ensures { result ≡ list_any (has_area asked) self.now.pages }
    {
        let pixels = pixels_of(asked);
        for page in 0..self.len() {
            if pixels <= self.free_area(page) {
                return true;
            }
        }
        false
    }
}
