//! Room for a request by the eviction of what lies in one box of a page.
ghost use Rattle.std.specs.Prelude.{◌≡◌, ◌+◌, ◌<◌, ◌≤◌, ◌++◌, ◌∷◌, [], ℕ, List, nat_le, false, true, length, IfOk, IfSome, IsSome, None};
ghost use Rattle.std.specs.Prelude.{Ok, Some, slice_get};
ghost use Rattle.std.specs.Prelude.{vec_capacity, vec_len, IsOk, IsOkUnless, OnErr};
ghost use Rattle.guillotiere.specs.Boxes.{IsPositive};
ghost use Rattle.atlas_cache.specs.declared.cache.vacating.Vacated.TheVariants.{Crowded, Room, Unmarked};
ghost use Rattle.std.specs.List.{AllByRecursion};
ghost use Rattle.guillotiere.specs.Pages.{page_sizes, rectangle_on};
ghost use Rattle.guillotiere.specs.Pixels.{box_of, natural, sides_of};
ghost use Rattle.guillotiere.specs.States.{IsSound};
ghost use Rattle.guillotiere.specs.Stored.{state_of, AtlasValue};
ghost use Rattle.atlas_cache.specs.Caches.{entries_of, AreBordered, FramesFall, HasNoPageFor, HoldsEntries, IsFull};
ghost use Rattle.atlas_cache.specs.Changes.{IsCleared, IsExhausted, LetsGo, MakesRoom};
ghost use Rattle.atlas_cache.specs.Reserving.{room_in, HasReserves};
ghost use Rattle.atlas_cache.specs.Vacating.{idle_on, ids_on, inside_count, lies_in, state_with};
ghost use Rattle.atlas_cache.specs.Vacating.{AreAllShown, HasNoRoomWithout, IsRoomWithout, IsVacancy};
ghost use Rattle.atlas_entries.specs.declared.entries.Entry.{Entry};
ghost use Rattle.atlas_entries.specs.Entries.{entry_at, is_blank, lying, no_page, IsNumber};

use crate::cache::TextureCache;
use crate::cache::holding::{oldest_lying, place_of, take_out};
use crate::changes::{CacheChange, Changes};
use crate::counts::{Counts, count};
use crate::rooms::Rooms;
use atlas_entries::entries::{Entries, Entry};
use atlas_entries::error::CacheError;
use guillotiere::{Rectangle, Size};
use std::alloc::{AllocError, Allocator};
use std::hash::{BuildHasher, Hash};

// Shows an entry as gone, if it lies on a page, with those that are shown already: the box that would come free, if the request fits it.
fn show<K: Copy, A: Allocator + Copy>(
    rooms: &Rooms<A>,
    marks: &mut Vec<Vec<bool, A>, A>,
    asked: Size,
    entry: Entry<K>,
) -> Option<Rectangle>
    requires on_page { is_blank entry ≡ false → IsSome (rectangle_on rooms.now.pages entry.page entry.id) }
    requires numbered { length rooms.now.pages ≤ no_page }
    requires showing { (older : List (Entry K)) × AreAllShown rooms.now.pages marks.old.items (λ page. ids_on page older)
        × (is_blank entry ≡ false → ids_on entry.page older entry.id ≡ false) }
    ensures shown { (older : List (Entry K)) → AreAllShown rooms.now.pages marks.old.items (λ page. ids_on page older)
        → (is_blank entry ≡ false → ids_on entry.page older entry.id ≡ false)
        → AreAllShown rooms.now.pages marks.new.items (λ page. ids_on page (entry ∷ older)) }
    ensures none { (older : List (Entry K)) → AreAllShown rooms.now.pages marks.old.items (λ page. ids_on page older)
        → (is_blank entry ≡ false → ids_on entry.page older entry.id ≡ false) → result ≡ None
        → ((page : ℕ) → HasNoRoomWithout asked rooms.now.pages page (ids_on page older))
        → (page : ℕ) → HasNoRoomWithout asked rooms.now.pages page (ids_on page (entry ∷ older)) }
    ensures room { (older : List (Entry K)) → AreAllShown rooms.now.pages marks.old.items (λ page. ids_on page older)
        → (is_blank entry ≡ false → ids_on entry.page older entry.id ≡ false)
        → IfSome result (λ area. IsRoomWithout asked rooms.now.pages entry.page (ids_on entry.page (entry ∷ older)) (box_of area)) }
    ensures there { IfSome result (λ _. entry.page < length rooms.now.pages) }
{
    if entry.is_blank() {
        return None;
    }
    rooms.rehearse(entry.page, &mut marks[entry.page as usize], entry.id, asked)
}

// A box of a page that would be free, were so many of the least recently used entries gone.
#[derive(Clone, Copy)]
struct Vacancy {
    page: u32,
    area: Rectangle,
    count: usize,
}

// As if the entries went in the order of use that a frame didn't use: the first box that comes free and that a request fits; None if even
// then no page has room.
fn first_vacancy<K: Copy + Eq + Hash, S: BuildHasher, A: Allocator + Copy>(
    rooms: &Rooms<A>,
    entries: &Entries<K, S, A>,
    marks: &mut Vec<Vec<bool, A>, A>,
    frame: u64,
    asked: Size,
) -> Option<Vacancy>
    requires numbered { length rooms.now.pages ≤ no_page }
    requires held { HoldsEntries rooms.now.pages (lying (entries_of entries.now.entries)) }
    requires falls { FramesFall frame (entries_of entries.now.entries) }
    requires shown { AreAllShown rooms.now.pages marks.old.items (λ page id. false) }
    requires none { (page : ℕ) → HasNoRoomWithout asked rooms.now.pages page (λ id. false) }
    ensures found { IfSome result (λ v. (v.page < length rooms.now.pages)
        × IsVacancy asked frame v.page rooms.now.pages v.count (box_of v.area) entries.now.entries) }
    ensures crowded { result ≡ None → (page : ℕ)
        → HasNoRoomWithout asked rooms.now.pages page (idle_on frame page (entries_of entries.now.entries)) }
{
    entries.prove_kept();
    let mut next = entries.oldest();
    for looked in 0..entries.len() {
        let Some(number) = next else {
            return None;
        };
        let entry = entries.entry(number);
        if entry.frame == frame {
            return None;
        }
        if let Some(area) = show(rooms, marks, asked, entry) {
            return Some(Vacancy {
                page: entry.page,
                area,
                count: looked + 1,
            });
        }
        next = entries.newer(number);
    }
    None
}

// What `first_vacancy` finds, where nothing was shown before. An error is a refusal of memory for marks of slots.
fn find_vacancy<K: Copy + Eq + Hash, S: BuildHasher, A: Allocator + Copy>(
    rooms: &Rooms<A>,
    entries: &Entries<K, S, A>,
    marks: &mut Vec<Vec<bool, A>, A>,
    frame: u64,
    asked: Size,
) -> Result<Option<Vacancy>, AllocError>
    requires numbered { length rooms.now.pages ≤ no_page }
    requires held { HoldsEntries rooms.now.pages (lying (entries_of entries.now.entries)) }
    requires falls { FramesFall frame (entries_of entries.now.entries) }
    requires none { (page : ℕ) → HasNoRoomWithout asked rooms.now.pages page (λ id. false) }
    ensures found { IfOk result (λ found. IfSome found (λ v. (v.page < length rooms.now.pages)
        × IsVacancy asked frame v.page rooms.now.pages v.count (box_of v.area) entries.now.entries)) }
    ensures crowded { result ≡ Ok None → (page : ℕ)
        → HasNoRoomWithout asked rooms.now.pages page (idle_on frame page (entries_of entries.now.entries)) }
{
    rooms.show_none_on_all(marks)?;
    Ok(first_vacancy(rooms, entries, marks, frame, asked))
}

// Whether one coordinate is no greater than another, where those below 0 count as 0.
fn is_no_greater(a: i32, b: i32) -> bool
    ensures { result ≡ nat_le (natural a) (natural b) }
{
    a <= 0 || a <= b
}

// Whether an entry lies on a page inside a box.
fn lies_in<K: Copy>(entry: &Entry<K>, page: u32, area: &Rectangle) -> bool
    ensures { result ≡ lies_in page (box_of area.now) entry.now }
{
    let outer = *area;
    let inner = entry.rectangle;
    if entry.page != page {
        return false;
    }
    if !is_no_greater(outer.min.x, inner.min.x) || !is_no_greater(outer.min.y, inner.min.y) {
        return false;
    }
    is_no_greater(inner.max.x, outer.max.x) && is_no_greater(inner.max.y, outer.max.y)
}

// How many of so many of the least recently used entries lie on a page inside a box.
fn inside<K: Copy + Eq + Hash, S: BuildHasher, A: Allocator + Copy>(
    entries: &Entries<K, S, A>,
    count: usize,
    page: u32,
    area: &Rectangle,
) -> usize
    requires { count ≤ length entries.now.entries }
    ensures inside { (newer older : List (ℕ × Entry K)) → entries.now.entries ≡ newer ++ older → length older ≡ count
        → result ≡ inside_count page (box_of area.now) (entries_of older) }
    ensures few { result ≤ length entries.now.entries }
{
    entries.prove_kept();
    let mut next = entries.oldest();
    let mut found = 0;
    for looked in 0..count {
        let Some(number) = next else {
            return found;
        };
        let entry = entries.entry(number);
        if lies_in(&entry, page, area) {
            found += 1;
        }
        next = entries.newer(number);
    }
    found
}

// An entry goes, and the change that says so is listed, if it lies on a page inside a box; whether it did.
fn clear_one<K: Copy + Eq + Hash, S: BuildHasher, A: Allocator + Copy>(
    rooms: &mut Rooms<A>,
    entries: &mut Entries<K, S, A>,
    counts: &mut Counts,
    number: u32,
    vacancy: &Vacancy,
    changes: &mut Changes<K, A>,
)
    requires held { HoldsEntries rooms.old.pages (lying (entries_of entries.old.entries)) }
    requires bordered { AreBordered rooms.old.options.padding (entries_of entries.old.entries) }
    requires here { IsNumber number entries.old.entries }
    requires room { (e : Entry K) → entry_at number entries.old.entries ≡ Some e
        → lies_in vacancy.now.page (box_of vacancy.now.area) e ≡ true → vec_len changes.old < vec_capacity changes.old }
    ensures held { HoldsEntries rooms.new.pages (lying (entries_of entries.new.entries)) }
    ensures goes { (e : Entry K) → entry_at number entries.old.entries ≡ Some e
        → lies_in vacancy.now.page (box_of vacancy.now.area) e ≡ true
        → LetsGo number e changes.old.items changes.new.items rooms.old rooms.new entries.old entries.new
        counts.old counts.new }
    ensures stays { (e : Entry K) → entry_at number entries.old.entries ≡ Some e
        → lies_in vacancy.now.page (box_of vacancy.now.area) e ≡ false
        → (rooms.new ≡ rooms.old) × (entries.new ≡ entries.old) × (counts.new ≡ counts.old)
        × (changes.new.items ≡ changes.old.items) }
    ensures longer { (e : Entry K) → entry_at number entries.old.entries ≡ Some e
        → lies_in vacancy.now.page (box_of vacancy.now.area) e ≡ true → vec_len changes.new ≡ vec_len changes.old + 1 }
    ensures as_long { (e : Entry K) → entry_at number entries.old.entries ≡ Some e
        → lies_in vacancy.now.page (box_of vacancy.now.area) e ≡ false → vec_len changes.new ≡ vec_len changes.old }
    ensures capacity { vec_capacity changes.old ≤ vec_capacity changes.new }
{
    let entry = entries.entry(number);
    if !lies_in(&entry, vacancy.page, &vacancy.area) {
        return;
    }
    let place = place_of(entry, &rooms.options());
    take_out(rooms, entries, number, entry);
    counts.evictions = count(counts.evictions);
    let key = entry.key;
    changes.push_reserved(CacheChange::Evicted { key, place });
}

// Of so many of the least recently used entries those go that lie on a page inside a box.
fn clear<K: Copy + Eq + Hash, S: BuildHasher, A: Allocator + Copy>(
    rooms: &mut Rooms<A>,
    entries: &mut Entries<K, S, A>,
    counts: &mut Counts,
    frame: u64,
    vacancy: &Vacancy,
    changes: &mut Changes<K, A>,
)
    requires full { IsFull (state_with rooms.old entries.old frame counts.old) }
    requires held { HoldsEntries rooms.old.pages (lying (entries_of entries.old.entries)) }
    requires bordered { AreBordered rooms.old.options.padding (entries_of entries.old.entries) }
    requires count { vacancy.now.count ≤ length entries.old.entries }
    requires on_page { vacancy.now.page < length rooms.old.pages }
    requires numbered { length rooms.old.pages ≤ no_page }
    requires sound { (page : ℕ) (v : AtlasValue) → slice_get rooms.old.pages page ≡ Some v → IsSound (state_of v) }
    requires unused { (newer older : List (ℕ × Entry K)) → entries.old.entries ≡ newer ++ older
        → length older ≡ vacancy.now.count → AllByRecursion (λ e. e.frame < frame) (entries_of older) }
    requires room { (newer older : List (ℕ × Entry K)) → entries.old.entries ≡ newer ++ older
        → length older ≡ vacancy.now.count
        → vec_len changes.old + inside_count vacancy.now.page (box_of vacancy.now.area) (entries_of older)
        ≤ vec_capacity changes.old }
    ensures cleared { (newer older : List (ℕ × Entry K)) → entries.old.entries ≡ newer ++ older
        → length older ≡ vacancy.now.count
        → IsCleared vacancy.now.page (box_of vacancy.now.area) newer older changes.old.items changes.new.items
        (state_with rooms.old entries.old frame counts.old) (state_with rooms.new entries.new frame counts.new) }
    ensures held { HoldsEntries rooms.new.pages (lying (entries_of entries.new.entries)) }
    ensures bordered { AreBordered rooms.new.options.padding (entries_of entries.new.entries) }
    ensures options { rooms.new.options ≡ rooms.old.options }
    ensures sizes { page_sizes rooms.new.pages ≡ page_sizes rooms.old.pages }
    ensures capacity { vec_capacity changes.old ≤ vec_capacity changes.new }
    ensures length { vec_len changes.new + length entries.new.entries ≡ vec_len changes.old + length entries.old.entries }
{
    let mut next = entries.oldest();
    for looked in 0..vacancy.count {
        entries.prove_kept();
        let Some(number) = next else {
            return;
        };
        next = entries.newer(number);
        clear_one(rooms, entries, counts, number, vacancy, changes);
    }
}

/// What a rehearsal comes to.
#[derive(Clone, Copy)]
pub enum Vacated {
    /// There is room on this page now.
    Room(u32),
    /// There would be room on no page.
    Crowded,
    /// Memory for marks was refused.
    Unmarked,
}

impl<K: Copy + Eq + Hash, S: BuildHasher, A: Allocator + Copy> TextureCache<K, S, A> {
    /// As if entries that this frame didn't use went in the order of use until a request had room on a page: of these those go that lie
    /// in the box that it fits. `Memory`, before anything changes, if room for their changes is refused.
    pub(crate) fn vacate(
        &mut self,
        asked: Size,
        changes: &mut Changes<K, A>,
    ) -> Result<Vacated, CacheError>
        requires full { IsFull self.old }
        requires none { HasNoPageFor asked self.old }
        requires positive { IsPositive (sides_of asked) }
        ensures room { (page : ℕ) → result ≡ Ok (Room page) → MakesRoom asked page changes.old.items changes.new.items
            self.old self.new }
        ensures crowded { result ≡ Ok Crowded → IsExhausted asked self.old }
        ensures nothing { result ≡ Ok Crowded → (self.new ≡ self.old) × (changes.new.items ≡ changes.old.items) }
        ensures unmarked { result ≡ Ok Unmarked → (self.new ≡ self.old) × (changes.new.items ≡ changes.old.items) }
        ensures refused { OnErr result ((self.new ≡ self.old) × (changes.new.items ≡ changes.old.items)) }
        ensures unless { IsOkUnless result CacheError.Memory }
        ensures memory { length self.old.entries ≤ room_in changes.old → IsOk result }
        ensures capacity { vec_capacity changes.old ≤ vec_capacity changes.new }
        ensures reserves { (n : ℕ) → HasReserves n (room_in changes.old) self.old
            → HasReserves n (room_in changes.new) self.new }
    {
        self.rooms.prove_pages();
        let Some((_, oldest)) = oldest_lying(&mut self.entries) else {
            return Ok(Vacated::Crowded);
        };
        if oldest.frame == self.frame {
            return Ok(Vacated::Crowded);
        }
        let found = find_vacancy(
            &self.rooms,
            &self.entries,
            &mut self.marks,
            self.frame,
            asked,
        );
        let Ok(found) = found else {
            return Ok(Vacated::Unmarked);
        };
        let Some(vacancy) = found else {
            return Ok(Vacated::Crowded);
        };
        changes.reserve(inside(&self.entries, vacancy.count, vacancy.page, &vacancy.area))?;
        clear(
            &mut self.rooms,
            &mut self.entries,
            &mut self.counts,
            self.frame,
            &vacancy,
            changes,
        );
        Ok(Vacated::Room(vacancy.page))
    }
}
