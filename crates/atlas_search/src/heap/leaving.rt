//! An entry leaves a heap: what hung below it becomes one heap.
ghost use Rattle.std.specs.Prelude.{◌≡◌, ◌≢◌, ◌<◌, ℕ, true, false, if◌then◌else◌, length, map};
ghost use Rattle.atlas_model.specs.Choice.{ComesFirst};
ghost use Rattle.atlas_search.specs.Heaps.{Heap};
ghost use Rattle.atlas_search.specs.HeapCalls.{AreHeapsOf, ArePartsBelow, HasLeft, KeepsAreas};
ghost use Rattle.atlas_search.specs.Items.{item_at, item_box};
ghost use Rattle.atlas_search.specs.Numbers.{no_slot};
ghost use Rattle.atlas_search.specs.Rectangles.{IsSolid};

use crate::heap::{Linked, close, corner_at, is_fork, links_at, move_below, put, set_up};
use crate::link::{Link, NO_SLOT};
use crate::search::Entry;

// Whether the left one of two entries comes first: it is there, and the right one isn't, or comes no earlier.
#[inline(always)]
fn is_left_first<E: Entry>(entries: &[E], left: Link, right: Link) -> bool
    requires left { left.number ≢ no_slot → left.number < length entries.now }
    requires right { right.number ≢ no_slot → right.number < length entries.now }
    requires left_solid { left.number ≢ no_slot → IsSolid (item_at (map E.item entries.now) left.number).area }
    requires right_solid { right.number ≢ no_slot → IsSolid (item_at (map E.item entries.now) right.number).area }
    ensures some { result ≡ true → left.number ≢ no_slot }
    ensures left { result ≡ true → right.number ≢ no_slot → ComesFirst
        (item_box (item_at (map E.item entries.now) left.number)) (item_box (item_at (map E.item entries.now) right.number)) }
    ensures right { result ≡ false → left.number ≢ no_slot → (right.number ≢ no_slot) × ComesFirst
        (item_box (item_at (map E.item entries.now) right.number)) (item_box (item_at (map E.item entries.now) left.number)) }
{
    if left.number == NO_SLOT {
        return false;
    }
    if right.number == NO_SLOT {
        return true;
    }
    corner_at(entries, left) <= corner_at(entries, right)
}

// Two heaps hung below a fork that goes. The top that comes first, the left one if `is_left`, takes its place below `up` and is a fork, and
// what hung below that one goes on in the same way.
#[inline(never)]
fn lift<E: Linked>(entries: &mut [E], up: Link, left: Link, right: Link, is_left: bool)
    requires heaps { (at : ℕ) × (g : Heap) × (h : Heap) × AreHeapsOf (map E.item entries.old) at left.number right.number g h }
    requires left { is_left ≡ true → (left.number ≢ no_slot) × (right.number ≢ no_slot → ComesFirst
        (item_box (item_at (map E.item entries.old) left.number)) (item_box (item_at (map E.item entries.old) right.number))) }
    requires right { is_left ≡ false → (right.number ≢ no_slot) × (left.number ≢ no_slot → ComesFirst
        (item_box (item_at (map E.item entries.old) right.number)) (item_box (item_at (map E.item entries.old) left.number))) }
    ensures lifted { (at : ℕ) (g h : Heap) → AreHeapsOf (map E.item entries.old) at left.number right.number g h
        → HasLeft (map E.item entries.old) (map E.item entries.new) up.number (if is_left then left.number else right.number) at g h }
    ensures areas { KeepsAreas (map E.item entries.old) (map E.item entries.new) }
    ensures bare { map E.bare entries.new ≡ map E.bare entries.old }
{
    if is_left {
        if right.number == NO_SLOT && !is_fork(entries, left) {
            set_up(entries, left, up);
            return;
        }
        move_below(entries, right, left);
        if !is_fork(entries, left) {
            let rest = close(entries, left, left);
            put(entries, left, up, rest, right, true);
            return;
        }
        let below = links_at(entries, left);
        let is_next_left = is_left_first(entries, below.left, below.right);
        let next = if is_next_left {
            below.left
        } else {
            below.right
        };
        put(entries, left, up, next, right, true);
        if next.number == NO_SLOT {
            return;
        }
        lift(entries, left, below.left, below.right, is_next_left);
    } else {
        if left.number == NO_SLOT && !is_fork(entries, right) {
            set_up(entries, right, up);
            return;
        }
        move_below(entries, left, right);
        if !is_fork(entries, right) {
            let rest = close(entries, right, right);
            put(entries, right, up, left, rest, true);
            return;
        }
        let below = links_at(entries, right);
        let is_next_left = is_left_first(entries, below.left, below.right);
        let next = if is_next_left {
            below.left
        } else {
            below.right
        };
        put(entries, right, up, left, next, true);
        if next.number == NO_SLOT {
            return;
        }
        lift(entries, right, below.left, below.right, is_next_left);
    }
}

// What hangs below an entry becomes one heap, which hangs below `up`. Of a fork's two sides the top that comes first comes up.
#[inline(never)]
fn leave_some<E: Linked>(entries: &mut [E], at: Link, up: Link) -> Link
    requires { (left : Heap) × (right : Heap) × ArePartsBelow (map E.item entries.old) at.number left right }
    ensures left { (left right : Heap) → ArePartsBelow (map E.item entries.old) at.number left right
        → HasLeft (map E.item entries.old) (map E.item entries.new) up.number result.number at.number left right }
    ensures areas { KeepsAreas (map E.item entries.old) (map E.item entries.new) }
    ensures bare { map E.bare entries.new ≡ map E.bare entries.old }
{
    if !is_fork(entries, at) {
        return close(entries, at, up);
    }
    let links = links_at(entries, at);
    let is_left = is_left_first(entries, links.left, links.right);
    let first = if is_left { links.left } else { links.right };
    if first.number != NO_SLOT {
        lift(entries, up, links.left, links.right, is_left);
    }
    first
}

// What hangs below an entry becomes one heap, which hangs below `up`: most often there is nothing.
#[inline(always)]
pub(crate) fn leave<E: Linked>(entries: &mut [E], at: Link, up: Link) -> Link
    requires { (left : Heap) × (right : Heap) × ArePartsBelow (map E.item entries.old) at.number left right }
    ensures left { (left right : Heap) → ArePartsBelow (map E.item entries.old) at.number left right
        → HasLeft (map E.item entries.old) (map E.item entries.new) up.number result.number at.number left right }
    ensures areas { KeepsAreas (map E.item entries.old) (map E.item entries.new) }
    ensures bare { map E.bare entries.new ≡ map E.bare entries.old }
{
    let links = links_at(entries, at);
    if links.left.number == NO_SLOT && links.right.number == NO_SLOT {
        return Link::NONE;
    }
    leave_some(entries, at, up)
}
