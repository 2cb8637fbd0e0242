//! Lists of free boxes: each is a tree by links inside the entries, and no entry comes before the one that it hangs below.
ghost use Rattle.std.specs.Prelude.{◌≡◌, ◌≢◌, ◌<◌, ◌≤◌, ◌⊎◌, ℕ, true, false, length, map, slice_set};
ghost use Rattle.atlas_model.specs.Boxes.{IsPositive};
ghost use Rattle.atlas_model.specs.Choice.{ComesFirst};
ghost use Rattle.atlas_model.specs.Pixels.{sides_of};
ghost use Rattle.atlas_search.specs.Heaps.{Heap, IsAbove, IsHeap, members};
ghost use Rattle.atlas_search.specs.HeapCalls.{AreSeparate, ArePartsBelow, CanPush, CanRemove, HasPushed};
ghost use Rattle.atlas_search.specs.HeapCalls.{HasRemoved, IsHungLeft, IsRelinked, IsMelded, IsPut};
ghost use Rattle.atlas_search.specs.HeapCalls.{KeepsAreas, KeepsKinds};
ghost use Rattle.atlas_search.specs.Items.{forked, item_at, item_box, item_sides, linked};
ghost use Rattle.atlas_search.specs.Numbers.{no_slot, occurs};
ghost use Rattle.atlas_search.specs.Ranks.{corner_of};
ghost use Rattle.atlas_search.specs.Rectangles.{IsSolid, IsUnsigned};

use crate::best::corner;
use crate::cells::Cell;
use crate::cut::exact_size;
use crate::link::{Link, NO_SLOT};
use crate::search::Entry;
use atlas_model::Size;
use leaving::leave;
use sorting::{is_fork_before, sort_below, sort_in};

mod leaving;
mod sorting;

/// An entry whose links can be written.
pub trait Linked: Entry {
    /// What the entry is but for its links.
    ghost bare: { Self → Self };

    /// Hangs the entry below `up`, with these below it. All else of it stays.
    fn set_links(&mut self, up: Link, left: Link, right: Link)
        ensures links { Self.item self.new ≡ linked (Self.item self.old) up.number left.number right.number }
        ensures bare { Self.bare self.new ≡ Self.bare self.old };

    /// Whether what hangs below it is divided by size, from now on. All else of it stays.
    fn set_fork(&mut self, is_fork: bool)
        ensures fork { Self.item self.new ≡ forked (Self.item self.old) is_fork }
        ensures bare { Self.bare self.new ≡ Self.bare self.old };
}

// What an entry hangs below, and what hangs below it.
#[derive(Clone, Copy)]
struct Links {
    up: Link,
    left: Link,
    right: Link,
}

#[inline(always)]
fn links_at<E: Entry>(entries: &[E], at: Link) -> Links
    requires { at.number < length entries.now }
    ensures up { result.up.number ≡ (item_at (map E.item entries.now) at.number).up }
    ensures left { result.left.number ≡ (item_at (map E.item entries.now) at.number).left }
    ensures right { result.right.number ≡ (item_at (map E.item entries.now) at.number).right }
{
    let entry = &entries[at.number as usize];
    Links {
        up: entry.up(),
        left: entry.left(),
        right: entry.right(),
    }
}

// The `min` of an entry's rectangle as one number.
#[inline(always)]
fn corner_at<E: Entry>(entries: &[E], at: Link) -> u64
    requires inside { at.number < length entries.now }
    requires unsigned { IsUnsigned (item_at (map E.item entries.now) at.number).area }
    ensures corner { result ≡ corner_of (item_box (item_at (map E.item entries.now) at.number)) }
    ensures narrow { (item_box (item_at (map E.item entries.now) at.number)).min.x < 4294967296 }
{
    corner(entries[at.number as usize].rectangle())
}

// Writes the three links of an entry.
#[inline(always)]
fn relink<E: Linked>(entries: &mut [E], at: Link, up: Link, left: Link, right: Link)
    requires { at.number < length entries.old }
    ensures links { map E.item entries.new ≡ slice_set (map E.item entries.old) at.number
        (linked (item_at (map E.item entries.old) at.number) up.number left.number right.number) }
    ensures bare { map E.bare entries.new ≡ map E.bare entries.old }
{
    entries[at.number as usize].set_links(up, left, right);
}

// An entry hangs below another one, or a tag.
#[inline(always)]
fn set_up<E: Linked>(entries: &mut [E], at: Link, up: Link)
    requires { at.number < length entries.old }
    ensures links { map E.item entries.new ≡ slice_set (map E.item entries.old) at.number
        (linked (item_at (map E.item entries.old) at.number) up.number
        (item_at (map E.item entries.old) at.number).left (item_at (map E.item entries.old) at.number).right) }
    ensures bare { map E.bare entries.new ≡ map E.bare entries.old }
{
    let links = links_at(entries, at);
    relink(entries, at, up, links.left, links.right);
}

// Hangs an entry, with all below it, to the left below another one. What was there hangs to the right then.
#[inline(always)]
fn hang_left<E: Linked>(entries: &mut [E], above: Link, less: Link)
    requires above { above.number < length entries.old }
    requires less { less.number < length entries.old }
    requires apart { above.number ≢ less.number }
    ensures hung { IsHungLeft (map E.item entries.old) (map E.item entries.new) above.number less.number }
    ensures bare { map E.bare entries.new ≡ map E.bare entries.old }
{
    let links = links_at(entries, above);
    relink(entries, above, links.up, less, links.left);
    set_up(entries, less, above);
}

// What hangs on the right below an entry hangs on the left then, and the other way round.
#[inline(always)]
fn swap_below<E: Linked>(entries: &mut [E], above: Link)
    requires { above.number < length entries.old }
    ensures swapped { IsRelinked (map E.item entries.old) (map E.item entries.new) above.number
        (item_at (map E.item entries.old) above.number).up (item_at (map E.item entries.old) above.number).right
        (item_at (map E.item entries.old) above.number).left }
    ensures bare { map E.bare entries.new ≡ map E.bare entries.old }
{
    let links = links_at(entries, above);
    relink(entries, above, links.up, links.right, links.left);
}

// Hangs a heap below the top of another one that comes before it. On the way down the right each passed entry's left goes
// right, and the next one left.
fn hang<E: Linked>(entries: &mut [E], top: Link, part: Link)
    requires { (up : ℕ) × (g : Heap) × (under : ℕ) × (h : Heap)
        × AreSeparate (map E.item entries.old) up top.number g under part.number h
        × IsAbove (map E.item entries.old) top.number h }
    ensures hung { (up : ℕ) (g : Heap) (under : ℕ) (h : Heap)
        → AreSeparate (map E.item entries.old) up top.number g under part.number h
        → IsAbove (map E.item entries.old) top.number h
        → IsMelded (map E.item entries.old) (map E.item entries.new) up top.number g h }
    ensures areas { KeepsKinds (map E.item entries.old) (map E.item entries.new) }
    ensures bare { map E.bare entries.new ≡ map E.bare entries.old }
{
    let mut above = top;
    let mut rest = part;
    let mut rest_corner = corner_at(entries, rest);
    loop {
        let next = links_at(entries, above).right;
        if next.number == NO_SLOT {
            hang_left(entries, above, rest);
            return;
        }
        let next_corner = corner_at(entries, next);
        if rest_corner < next_corner {
            hang_left(entries, above, rest);
            above = rest;
            rest = next;
            rest_corner = next_corner;
        } else {
            swap_below(entries, above);
            above = next;
        }
    }
}

// Two heaps as one, whose top hangs below `up`. Answers the top.
#[inline(never)]
fn meld<E: Linked>(entries: &mut [E], one: Link, other: Link, up: Link) -> Link
    requires { (under : ℕ) × (g : Heap) × (h : Heap)
        × AreSeparate (map E.item entries.old) under one.number g under other.number h }
    ensures melded { (under : ℕ) (g h : Heap)
        → AreSeparate (map E.item entries.old) under one.number g under other.number h
        → IsMelded (map E.item entries.old) (map E.item entries.new) up.number result.number g h }
    ensures areas { KeepsKinds (map E.item entries.old) (map E.item entries.new) }
    ensures bare { map E.bare entries.new ≡ map E.bare entries.old }
{
    if corner_at(entries, other) < corner_at(entries, one) {
        set_up(entries, other, up);
        hang(entries, other, one);
        return other;
    }
    set_up(entries, one, up);
    hang(entries, one, other);
    one
}

// Writes the three links of an entry, and whether it is a fork.
#[inline(always)]
fn put<E: Linked>(entries: &mut [E], at: Link, up: Link, left: Link, right: Link, is_fork: bool)
    requires { at.number < length entries.old }
    ensures put { IsPut (map E.item entries.old) (map E.item entries.new) at.number up.number left.number right.number is_fork }
    ensures bare { map E.bare entries.new ≡ map E.bare entries.old }
{
    let entry = &mut entries[at.number as usize];
    entry.set_links(up, left, right);
    entry.set_fork(is_fork);
}

// An entry, if it is one, hangs below another one, or a tag.
#[inline(always)]
fn move_below<E: Linked>(entries: &mut [E], at: Link, up: Link)
    requires inside { at.number ≢ no_slot → at.number < length entries.old }
    requires short { length entries.old ≤ no_slot }
    ensures moved { (under : ℕ) (h : Heap) → IsHeap (map E.item entries.old) under at.number h
        → ((k : ℕ) → occurs k (members h) ≤ 1) → IsHeap (map E.item entries.new) up.number at.number h }
    ensures others { (k : ℕ) → (at.number ≢ no_slot → k ≢ at.number)
        → item_at (map E.item entries.new) k ≡ item_at (map E.item entries.old) k }
    ensures kinds { KeepsKinds (map E.item entries.old) (map E.item entries.new) }
    ensures bare { map E.bare entries.new ≡ map E.bare entries.old }
{
    if at.number != NO_SLOT {
        set_up(entries, at, up);
    }
}

// The size of an entry's rectangle.
#[inline(always)]
fn size_at<E: Entry>(entries: &[E], at: Link) -> Size
    requires inside { at.number < length entries.now }
    requires solid { IsSolid (item_at (map E.item entries.now) at.number).area }
    ensures positive { IsPositive (sides_of result) }
    ensures sides { sides_of result ≡ item_sides (item_at (map E.item entries.now) at.number) }
{
    exact_size(entries[at.number as usize].rectangle())
}

#[inline(always)]
fn is_fork<E: Entry>(entries: &[E], at: Link) -> bool
    requires { at.number < length entries.now }
    ensures { result ≡ (item_at (map E.item entries.now) at.number).is_fork }
{
    entries[at.number as usize].is_fork()
}

// Whether an entry is no fork and has the size of another one.
#[inline(always)]
fn is_alike<E: Entry>(entries: &[E], top: Link, at: Link) -> bool
    requires top { top.number < length entries.now }
    requires at { at.number < length entries.now }
    requires top_solid { IsSolid (item_at (map E.item entries.now) top.number).area }
    requires at_solid { IsSolid (item_at (map E.item entries.now) at.number).area }
    ensures yes { result ≡ true → ((item_at (map E.item entries.now) top.number).is_fork ≡ false)
        × (item_sides (item_at (map E.item entries.now) top.number) ≡ item_sides (item_at (map E.item entries.now) at.number)) }
    ensures no { result ≡ false → ((item_at (map E.item entries.now) top.number).is_fork ≡ true)
        ⊎ (item_sides (item_at (map E.item entries.now) top.number) ≢ item_sides (item_at (map E.item entries.now) at.number)) }
{
    if is_fork(entries, top) {
        return false;
    }
    let one = size_at(entries, top);
    let other = size_at(entries, at);
    one.width == other.width && one.height == other.height
}

// What hangs below an entry that is no fork becomes one heap, which hangs below `up`. Answers its top, or none.
#[inline(always)]
fn close<E: Linked>(entries: &mut [E], at: Link, up: Link) -> Link
    requires { (left : Heap) × (right : Heap) × ArePartsBelow (map E.item entries.old) at.number left right }
    ensures melded { (left right : Heap) → ArePartsBelow (map E.item entries.old) at.number left right
        → IsMelded (map E.item entries.old) (map E.item entries.new) up.number result.number left right }
    ensures areas { KeepsKinds (map E.item entries.old) (map E.item entries.new) }
    ensures bare { map E.bare entries.new ≡ map E.bare entries.old }
{
    let links = links_at(entries, at);
    if links.left.number == NO_SLOT {
        if links.right.number != NO_SLOT {
            set_up(entries, links.right, up);
        }
        return links.right;
    }
    if links.right.number == NO_SLOT {
        set_up(entries, links.left, up);
        return links.left;
    }
    meld(entries, links.left, links.right, up)
}

// Whether an entry, if there is one, has nothing on its left, comes before another one, and is alike.
#[inline(always)]
fn is_place<E: Entry>(entries: &[E], near: Link, at: Link) -> bool
    requires near { near.number ≢ no_slot → near.number < length entries.now }
    requires near_solid { near.number ≢ no_slot → IsSolid (item_at (map E.item entries.now) near.number).area }
    requires at { at.number < length entries.now }
    requires at_solid { IsSolid (item_at (map E.item entries.now) at.number).area }
    ensures some { result ≡ true → near.number ≢ no_slot }
    ensures left { result ≡ true → (item_at (map E.item entries.now) near.number).left ≡ no_slot }
    ensures alike { result ≡ true → ((item_at (map E.item entries.now) near.number).is_fork ≡ false)
        × (item_sides (item_at (map E.item entries.now) near.number) ≡ item_sides (item_at (map E.item entries.now) at.number)) }
    ensures first { result ≡ true → ComesFirst (item_box (item_at (map E.item entries.now) near.number))
        (item_box (item_at (map E.item entries.now) at.number)) }
{
    if near.number == NO_SLOT || links_at(entries, near).left.number != NO_SLOT {
        return false;
    }
    if !is_alike(entries, near, at) {
        return false;
    }
    corner_at(entries, near) < corner_at(entries, at)
}

/// An entry joins the heap with this top, which hangs below `tag`. `near` is none, or an entry of the heap, below which it
/// goes if it can. Answers the top.
#[inline(always)]
pub fn push<E: Linked>(entries: &mut [E], tag: Link, top: Link, near: Link, at: Link) -> Link
    requires { (h : Heap) × CanPush (map E.item entries.old) tag.number top.number near.number at.number h }
    ensures pushed { (h : Heap) → CanPush (map E.item entries.old) tag.number top.number near.number at.number h
        → HasPushed (map E.item entries.old) (map E.item entries.new) tag.number result.number at.number h }
    ensures areas { KeepsAreas (map E.item entries.old) (map E.item entries.new) }
    ensures bare { map E.bare entries.new ≡ map E.bare entries.old }
{
    let none = Link::NONE;
    let size = size_at(entries, at);
    if top.number == NO_SLOT {
        put(entries, at, tag, none, none, false);
        return at;
    }
    if is_place(entries, near, at) {
        put(entries, at, near, none, none, false);
        let links = links_at(entries, near);
        relink(entries, near, links.up, at, links.right);
        return top;
    }
    if is_alike(entries, top, at) {
        put(entries, at, tag, none, none, false);
        return meld(entries, top, at, tag);
    }
    let cell = Cell::around(size);
    if is_fork_before(entries, top, at) {
        sort_below(
            entries,
            top,
            at,
            cell.left,
            cell.right,
            cell.top,
            cell.bottom,
        );
        return top;
    }
    sort_in(entries, cell, tag, top, at)
}

/// An entry leaves its heap. Answers the top of what was below it, which took its place. A tag above the heap's top isn't
/// the number of an entry.
#[inline(always)]
pub fn remove<E: Linked>(entries: &mut [E], at: Link) -> Link
    requires { (tag : ℕ) × (top : ℕ) × (h : Heap) × CanRemove (map E.item entries.old) tag top at.number h }
    ensures removed { (tag top : ℕ) (h : Heap) → CanRemove (map E.item entries.old) tag top at.number h
        → HasRemoved (map E.item entries.old) (map E.item entries.new) tag top result.number at.number h }
    ensures areas { KeepsAreas (map E.item entries.old) (map E.item entries.new) }
    ensures bare { map E.bare entries.new ≡ map E.bare entries.old }
{
    let up = links_at(entries, at).up;
    let rest = leave(entries, at, up);
    if up.number as usize >= entries.len() {
        return rest;
    }
    let links = links_at(entries, up);
    if links.left.number == at.number {
        relink(entries, up, links.up, rest, links.right);
    } else {
        relink(entries, up, links.up, links.left, rest);
    }
    rest
}
