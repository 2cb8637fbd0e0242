//! A rehearsal of freeings: the free box that there would be, were some allocated leaves freed. What is stored stays as it is; marks, one
//! for each slot, show which members would be free.
ghost use Rattle.std.specs.Prelude.{◌≡◌, ◌≢◌, ◌≤◌, ◌<◌, ◌⊎◌, ℕ, Bool, true, false, length};
ghost use Rattle.atlas_model.specs.Boxes.{IsInside};
ghost use Rattle.atlas_model.specs.Pixels.{box_of};
ghost use Rattle.atlas_model.specs.Replies.{IsExact};
ghost use Rattle.atlas_model.specs.Trees.{IsCut, most_slots};
ghost use Rattle.atlas_model.specs.Changes.{and_id};
ghost use Rattle.atlas_search.specs.Numbers.{no_slot};
ghost use Rattle.atlas_store.specs.declared.slots.NodeKind.TheVariants.{Alloc};
ghost use Rattle.atlas_store.specs.Slots.{nodes, node_at};
ghost use Rattle.atlas_store.specs.Slots.Numbered.{Numbered, erase};
ghost use Rattle.atlas_store.specs.Slots.Standing.{IsSlot, IsTree, Sequence, Stands};
ghost use Rattle.atlas_store.specs.Slots.Rehearsing.{is_open, leaf_id, AreShownIn, IsRunIn, IsUsedAt, IsRunStart, IsRunEnd};

use crate::slots::{Node, NodeKind, Slot, read_node};
use atlas_model::Rectangle;
use atlas_search::link::{Link, NO_SLOT};

// Whether there is a member at a slot that is free or shown as free.
fn is_open(slots: &[Slot], marks: &[bool], at: Link) -> bool
    requires slot { IsSlot (length slots.now) at.number }
    requires short { length slots.now ≤ most_slots }
    requires marks { length marks.now ≡ length slots.now }
    ensures { result ≡ is_open (nodes slots.now) marks.now at.number }
{
    at.number != NO_SLOT
        && (read_node(slots, at).kind == NodeKind::Free || marks[at.number as usize])
}

// The first of the open members of a sequence that come without a gap before the one at a slot, or this one.
fn first_open(slots: &[Slot], marks: &[bool], at: Link) -> Link
    requires tree { IsTree (nodes slots.now) }
    requires member { IsUsedAt (nodes slots.now) at.number }
    requires short { length slots.now ≤ most_slots }
    requires marks { length marks.now ≡ length slots.now }
    ensures { IsRunStart (nodes slots.now) (is_open (nodes slots.now) marks.now) result.number at.number }
{
    let mut low = at;
    loop {
        let before = read_node(slots, low).previous;
        if !is_open(slots, marks, before) {
            return low;
        }
        low = before;
    }
}

// The last of those that come without a gap after it, or this one.
fn last_open(slots: &[Slot], marks: &[bool], at: Link) -> Link
    requires tree { IsTree (nodes slots.now) }
    requires member { IsUsedAt (nodes slots.now) at.number }
    requires open { is_open (nodes slots.now) marks.now at.number ≡ true }
    requires short { length slots.now ≤ most_slots }
    requires marks { length marks.now ≡ length slots.now }
    ensures { IsRunEnd (nodes slots.now) (is_open (nodes slots.now) marks.now) at.number result.number }
{
    let mut high = at;
    loop {
        let after = read_node(slots, high).next;
        if !is_open(slots, marks, after) {
            return high;
        }
        high = after;
    }
}

// Whether a run that begins and ends with these members is all that a container holds.
fn fills_container(low: &Node, high: &Node) -> bool
    ensures fills { result ≡ true
        → (low.now.previous.number ≡ no_slot) × (high.now.next.number ≡ no_slot) × (low.now.parent.number ≢ no_slot) }
    ensures ends { result ≡ false
        → (low.now.previous.number ≢ no_slot) ⊎ ((high.now.next.number ≢ no_slot) ⊎ (low.now.parent.number ≡ no_slot)) }
{
    low.previous.number == NO_SLOT && high.next.number == NO_SLOT && low.parent.number != NO_SLOT
}

/// Shows an allocated leaf as free, and each container that has no other member left. The answer is the free box that would be around
/// it, were all that is shown freed.
pub fn show(slots: &[Slot], marks: &mut [bool], leaf: Link) -> Rectangle
    requires shown { (s : Sequence) × (n : Numbered) × (set : ℕ → Bool) × AreShownIn (nodes slots.now) marks.old set s n
        × (set (leaf_id (nodes slots.now) leaf.number) ≡ false) }
    requires allocated { (node_at (nodes slots.now) leaf.number).kind ≡ Alloc }
    requires short { length slots.now ≤ most_slots }
    requires marks { length marks.old ≡ length slots.now }
    ensures shown { (s : Sequence) (n : Numbered) (set : ℕ → Bool) → AreShownIn (nodes slots.now) marks.old set s n
        → set (leaf_id (nodes slots.now) leaf.number) ≡ false
        → AreShownIn (nodes slots.now) marks.new (and_id set (leaf_id (nodes slots.now) leaf.number)) s n }
    ensures run { (s : Sequence) (n : Numbered) (set : ℕ → Bool) → AreShownIn (nodes slots.now) marks.old set s n
        → set (leaf_id (nodes slots.now) leaf.number) ≡ false
        → IsRunIn (is_open (nodes slots.now) marks.new) (box_of result) false s 0 n }
    ensures around { (s : Sequence) (n : Numbered) → s.parent ≡ no_slot → Stands (nodes slots.now) s n
        → IsCut s.width (erase n)
        → IsInside (box_of (node_at (nodes slots.now) leaf.number).area) (box_of result) }
    ensures exact { IsExact result }
    ensures marks { length marks.new ≡ length marks.old }
{
    let mut at = leaf;
    loop {
        marks[at.number as usize] = true;
        let low = read_node(slots, first_open(slots, marks, at));
        let high = read_node(slots, last_open(slots, marks, at));
        if !fills_container(&low, &high) {
            return Rectangle {
                min: low.area.min,
                max: high.area.max,
            };
        }
        at = low.parent;
    }
}
