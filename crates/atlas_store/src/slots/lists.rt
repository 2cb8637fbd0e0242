//! The lists of free slots, by the bands of both sides, and the list of unused slots: links inside the slots.
ghost use Rattle.std.specs.Prelude.{◌≡◌, ◌<◌, ◌≤◌, ◌⊎◌, ◌==◌, ℕ, true, false, List, length, slice_set, vec_capacity};
ghost use Rattle.std.specs.Prelude.{if◌then◌else◌};
ghost use Rattle.atlas_search.specs.Heaps.{tag_of};
ghost use Rattle.atlas_search.specs.Numbers.{no_slot, occurs};
ghost use Rattle.atlas_search.specs.Tables.{head_of, is_used_at, CanHold};
ghost use Rattle.atlas_search.specs.Bands.{list_of};
ghost use Rattle.atlas_model.specs.Choice.{Options};
ghost use Rattle.atlas_model.specs.Pixels.{options_of};
ghost use Rattle.atlas_store.specs.Slots.{blank_slot, nodes, rings, node_at};
ghost use Rattle.atlas_search.specs.declared.link.Link.{Link};
ghost use Rattle.atlas_store.specs.Slots.Lists.{AreFiled, IsRecent, Places, node_sides};
ghost use Rattle.atlas_store.specs.declared.slots.NodeKind.TheVariants.{Free};
ghost use Rattle.atlas_store.specs.Slots.Links.{CanTake, IsFiledSlot, IsDetachedSlot, TakesFirst};
ghost use Rattle.atlas_store.specs.Slots.Links.{given_back, listed, lists_without, renewed, unlisted, with_right};
ghost use Rattle.atlas_model.specs.Trees.{most_slots};
ghost use Rattle.atlas_store.specs.Slots.Picks.{AreExact};

use crate::slots::{NodeKind, Slot, read_node, read_ring, write_node};
use atlas_model::{Rectangle, point2};
use atlas_search::bands::{BANDS, Scale};
use atlas_search::cut::{Orientation, exact_size};
use atlas_search::heap::{push, remove};
use atlas_search::link::{Link, NO_SLOT, TAG};
use atlas_search::table::{FEW, Table};
use std::alloc::Allocator;

/// The slot that was listed last, with the number of its list; none once it left it.
#[derive(Clone, Copy)]
pub struct Recent {
    pub at: Link,
    pub list: usize,
}

impl Recent {
    /// No slot.
    pub const NONE: Recent = Recent {
        at: Link::NONE,
        list: 0,
    };

    // The slot, if it stands in the list of this number.
    fn in_list(&self, list: usize) -> Link
        ensures { (free_lists : ℕ → List ℕ) → IsRecent self.now free_lists
            → (result.number ≡ no_slot) ⊎ (0 < occurs result.number (free_lists list)) }
    {
        if self.list == list {
            self.at
        } else {
            Link::NONE
        }
    }

    // This slot leaves its list.
    fn forget(&mut self, at: Link)
        ensures { (free_lists : ℕ → List ℕ) → IsRecent self.old free_lists
            → IsRecent self.new (lists_without free_lists at.number) }
    {
        if self.at.number == at.number {
            self.at = Link::NONE;
        }
    }
}

// Where `up` tells a list, it begins with `first` from now on.
fn set_top<A: Allocator>(lists: &mut Table<A>, up: Link, first: Link)
    requires { 4261412864 ≤ up.number
        → (k : ℕ) × (k < 2704) × (up.number ≡ tag_of k) × (is_used_at lists.old.heads k ≡ true)
        × (lists.old.is_grown ≡ false → CanHold lists.old.heads k first) }
    ensures heads { (k : ℕ) → head_of lists.new.heads k ≡ (if up.number == tag_of k then first else head_of lists.old.heads k) }
    ensures room { lists.new.is_grown ≡ lists.old.is_grown }
{
    if up.number >= TAG {
        lists.set_first((up.number - TAG) as usize, first);
    }
}

// What is on the right of a slot.
fn set_right(slots: &mut [Slot], at: Link, right: Link)
    requires { at.number < length slots.old }
    ensures written { rings slots.new ≡ with_right (rings slots.old) at.number right }
    ensures same_nodes { nodes slots.new ≡ nodes slots.old }
{
    let slot = &mut slots[at.number as usize];
    slot.right = right;
}

/// Takes a free slot out of its list; it is detached from then on.
#[inline(always)]
pub fn unlist<A: Allocator>(slots: &mut [Slot], lists: &mut Table<A>, recent: &mut Recent, at: Link)
    requires free { (node_at (nodes slots.old) at.number).kind ≡ Free }
    requires exact { AreExact (nodes slots.old) }
    requires kept { (o : Options) × IsFiledSlot o slots.old lists.old.heads at.number }
    requires short { length slots.old ≤ most_slots }
    requires few { lists.old.is_grown ≡ false → length slots.old ≤ FEW }
    ensures filed { (o : Options) (unused : Link) (p : Places)
        → AreFiled o (nodes slots.old) (rings slots.old) lists.old.heads unused p → p.detached at.number ≡ false
        → AreFiled o (nodes slots.new) (rings slots.new) lists.new.heads unused (unlisted p at.number) }
    ensures recent { (p : Places) → IsRecent recent.old p.free_lists
        → IsRecent recent.new (unlisted p at.number).free_lists }
    ensures same_nodes { nodes slots.new ≡ nodes slots.old }
    ensures room { lists.new.is_grown ≡ lists.old.is_grown }
{
    let up = read_ring(slots, at).up;
    let rest = remove(slots, at);
    set_top(lists, up, rest);
    recent.forget(at);
}

/// Puts a free and detached slot into its list. Each free slot has an exact rectangle.
#[inline(always)]
pub fn enlist<A: Allocator>(
    slots: &mut [Slot],
    lists: &mut Table<A>,
    options: &Scale,
    recent: &mut Recent,
    at: Link,
)
    requires free { (node_at (nodes slots.old) at.number).kind ≡ Free }
    requires exact { AreExact (nodes slots.old) }
    requires detached { IsDetachedSlot (options_of options.now) slots.old lists.old.heads recent.old at.number }
    requires short { length slots.old ≤ most_slots }
    requires few { lists.old.is_grown ≡ false → length slots.old ≤ FEW }
    ensures filed { (unused : Link) (p : Places)
        → AreFiled (options_of options.now) (nodes slots.old) (rings slots.old) lists.old.heads unused p
        → IsRecent recent.old p.free_lists → p.detached at.number ≡ true
        → AreFiled (options_of options.now) (nodes slots.new) (rings slots.new) lists.new.heads unused
        (listed p (list_of (options_of options.now) (node_sides (node_at (nodes slots.old) at.number))) at.number) }
    ensures recent { (p : Places) → IsRecent recent.new
        (listed p (list_of (options_of options.now) (node_sides (node_at (nodes slots.old) at.number))) at.number).free_lists }
    ensures same_nodes { nodes slots.new ≡ nodes slots.old }
    ensures room { lists.new.is_grown ≡ lists.old.is_grown }
{
    let node = read_node(slots, at);
    let place = options.place_for(exact_size(node.area));
    let list = BANDS * place.row + place.column;
    let first = push(
        slots,
        place.tag(),
        lists.head(place),
        recent.in_list(list),
        at,
    );
    lists.raise(place, first);
    *recent = Recent { at, list };
}

// A slot that was never taken.
fn fresh_slot() -> Slot
    ensures { result ≡ blank_slot }
{
    let none = Link { number: 0 };
    let corner = point2(0, 0);
    Slot {
        parent: none,
        previous: none,
        next: none,
        area: Rectangle {
            min: corner,
            max: corner,
        },
        up: none,
        left: none,
        right: none,
        kind: NodeKind::Unused,
        axis: Orientation::Vertical,
        generation: 0,
        is_fork: false,
    }
}

// The generation of a slot rises by one, and after 255 begins again at 0.
fn renew(slots: &mut [Slot], at: Link)
    requires { at.number < length slots.old }
    ensures written { nodes slots.new
        ≡ slice_set (nodes slots.old) at.number (renewed (node_at (nodes slots.old) at.number)) }
    ensures same_rings { rings slots.new ≡ rings slots.old }
{
    let mut node = read_node(slots, at);
    node.generation = node.generation.wrapping_add(1);
    write_node(slots, at, node);
}

/// Takes the first of the unused slots, whose generation rises, or else a new one, for which there is room. It is
/// claimed from then on.
pub fn take_slot<A: Allocator>(slots: &mut Vec<Slot, A>, unused: &mut Link) -> Link
    requires { CanTake slots.old.items (vec_capacity slots.old) unused.old }
    ensures taken { TakesFirst slots.old.items slots.new.items unused.old unused.new result }
    ensures capacity { vec_capacity slots.new ≡ vec_capacity slots.old }
{
    let at = *unused;
    if at.number == NO_SLOT {
        let number = slots.len() as u32;
        slots.push_reserved(fresh_slot());
        Link { number }
    } else {
        let ring = read_ring(slots, at);
        *unused = ring.right;
        renew(slots, at);
        at
    }
}

/// Puts a slot that is claimed, and not used, in front of the unused ones.
pub fn give_back(slots: &mut [Slot], unused: &mut Link, at: Link)
    requires { at.number < length slots.old }
    ensures filed { (o : Options) (heads : List Link) (p : Places)
        → AreFiled o (nodes slots.old) (rings slots.old) heads unused.old p → 0 < p.claimed at.number
        → AreFiled o (nodes slots.new) (rings slots.new) heads unused.new (given_back p at.number) }
    ensures same_nodes { nodes slots.new ≡ nodes slots.old }
{
    set_right(slots, at, *unused);
    *unused = at;
}
