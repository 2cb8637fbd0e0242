//! The slots of an atlas: the tree's part and the lists' part of each, and the calls that read and write them.
ghost use Rattle.std.specs.Prelude.{◌≡◌, ◌<◌, length, slice_set};
ghost use Rattle.atlas_store.specs.Slots.{nodes, rings, node_at, ring_at};
ghost use Rattle.atlas_store.specs.Slots.SlotCalls.{IsChildLifted, IsFreePair, IsLeafFreed, IsLoneLeaf, IsNextJoined};
ghost use Rattle.atlas_store.specs.Slots.Standing.{IsTree, IsWhole, IsSlot, with_kind, with_previous};
ghost use Rattle.atlas_store.specs.declared.slots.NodeKind.TheVariants.{Alloc};

pub mod batch;
pub mod entry;
pub mod extending;
pub mod lists;
pub mod placing;
pub mod rehearsing;
pub mod walks;

use atlas_model::Rectangle;
use atlas_search::cut::Orientation;
use atlas_search::link::{Link, NO_SLOT};

/// What a slot of an atlas is used for.
#[derive(Clone, Copy, Debug, PartialEq, Eq, Hash)]
pub enum NodeKind {
    /// A sequence of other slots.
    Container,
    /// An allocated rectangle.
    Alloc,
    /// A free rectangle.
    Free,
    /// Nothing: the slot may be taken.
    Unused,
}

/// The tree's part of a slot: its place among its siblings, what it is, and its rectangle.
#[derive(Clone, Copy, Debug, PartialEq, Eq)]
pub struct Node {
    pub parent: Link,
    pub previous: Link,
    pub next: Link,
    pub area: Rectangle,
    pub kind: NodeKind,
    pub axis: Orientation,
    pub generation: u8,
}

/// The lists' part of a slot: in its list of free slots, what it hangs below, the two that hang below it, and whether those are
/// divided by size. The list of unused slots goes on with what is on the right.
#[derive(Clone, Copy, Debug, PartialEq, Eq)]
pub struct Ring {
    pub up: Link,
    pub left: Link,
    pub right: Link,
    pub is_fork: bool,
}

/// Both parts of a slot, side by side: so they take 44 bytes.
#[derive(Clone, Copy, Debug, PartialEq, Eq)]
pub struct Slot {
    pub parent: Link,
    pub previous: Link,
    pub next: Link,
    pub area: Rectangle,
    pub up: Link,
    pub left: Link,
    pub right: Link,
    pub kind: NodeKind,
    pub axis: Orientation,
    pub generation: u8,
    pub is_fork: bool,
}

/// The tree's part of a slot.
pub fn read_node(slots: &[Slot], at: Link) -> Node
    requires { at.number < length slots.now }
    ensures { result ≡ node_at (nodes slots.now) at.number }
{
    let slot = &slots[at.number as usize];
    Node {
        parent: slot.parent,
        previous: slot.previous,
        next: slot.next,
        area: slot.area,
        kind: slot.kind,
        axis: slot.axis,
        generation: slot.generation,
    }
}

/// The lists' part of a slot.
pub fn read_ring(slots: &[Slot], at: Link) -> Ring
    requires { at.number < length slots.now }
    ensures { result ≡ ring_at (rings slots.now) at.number }
{
    let slot = &slots[at.number as usize];
    Ring {
        up: slot.up,
        left: slot.left,
        right: slot.right,
        is_fork: slot.is_fork,
    }
}

/// Writes the tree's part of a slot.
pub fn write_node(slots: &mut [Slot], at: Link, node: Node)
    requires { at.number < length slots.old }
    ensures written { nodes slots.new ≡ slice_set (nodes slots.old) at.number node }
    ensures same_rings { rings slots.new ≡ rings slots.old }
{
    let slot = &mut slots[at.number as usize];
    slot.parent = node.parent;
    slot.previous = node.previous;
    slot.next = node.next;
    slot.area = node.area;
    slot.kind = node.kind;
    slot.axis = node.axis;
    slot.generation = node.generation;
}

/// What a slot is used for from now on.
pub fn set_kind(slots: &mut [Slot], at: Link, kind: NodeKind)
    requires { at.number < length slots.old }
    ensures written { nodes slots.new ≡ with_kind (nodes slots.old) at.number kind }
    ensures same_rings { rings slots.new ≡ rings slots.old }
{
    let mut node = read_node(slots, at);
    node.kind = kind;
    write_node(slots, at, node);
}

/// What is at `at`, if that is a slot, follows `previous` from now on.
pub fn set_previous(slots: &mut [Slot], at: Link, previous: Link)
    requires inside { IsSlot (length slots.old) at.number }
    requires short { length slots.old < NO_SLOT }
    ensures written { nodes slots.new ≡ with_previous (nodes slots.old) at.number previous }
    ensures same_rings { rings slots.new ≡ rings slots.old }
{
    if at.number != NO_SLOT {
        let mut node = read_node(slots, at);
        node.previous = previous;
        write_node(slots, at, node);
    }
}

/// The first turn of a freeing: an allocated leaf becomes free.
pub fn mark_free(slots: &mut [Slot], slot: Link)
    requires inside { slot.number < length slots.old }
    requires allocated { (node_at (nodes slots.old) slot.number).kind ≡ Alloc }
    ensures { IsLeafFreed slots.old slots.new slot.number }
{
    set_kind(slots, slot, NodeKind::Free);
}

/// One turn of a freeing: a free leaf takes in the next one, which is free too. The answer is the slot of the next one,
/// which is no longer used.
pub fn join_next(slots: &mut [Slot], slot: Link) -> Link
    requires stands { IsTree (nodes slots.old) }
    requires free { IsFreePair (nodes slots.old) slot.number }
    requires short { length slots.old < NO_SLOT }
    ensures next { result ≡ (node_at (nodes slots.old) slot.number).next }
    ensures joined { IsNextJoined slots.old slots.new slot.number result.number }
{
    let mut this = read_node(slots, slot);
    let next_slot = this.next;
    let next = read_node(slots, next_slot);
    let after_slot = next.next;
    this.next = after_slot;
    this.area.max = next.area.max;
    write_node(slots, slot, this);
    set_previous(slots, after_slot, slot);
    set_kind(slots, next_slot, NodeKind::Unused);
    next_slot
}

/// One turn of a freeing: a lone free leaf gives its place to its container, which becomes free. The answer is the
/// container's slot; the leaf's is no longer used.
pub fn lift(slots: &mut [Slot], child: Link) -> Link
    requires stands { IsWhole (nodes slots.old) }
    requires lone { IsLoneLeaf (nodes slots.old) child.number }
    requires short { length slots.old < NO_SLOT }
    ensures parent { result ≡ (node_at (nodes slots.old) child.number).parent }
    ensures lifted { IsChildLifted slots.old slots.new result.number child.number }
{
    let container = read_node(slots, child).parent;
    set_kind(slots, container, NodeKind::Free);
    set_kind(slots, child, NodeKind::Unused);
    container
}
