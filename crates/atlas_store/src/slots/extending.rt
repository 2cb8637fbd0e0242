//! The calls by which the top sequence of the slots' tree is extended: its last leaf is enlarged, a leaf is appended,
//! or the sequence is put into a new one along the other axis. They leave the lists alone.
ghost use Rattle.std.specs.Prelude.{◌≡◌, ◌<◌, length};
ghost use Rattle.atlas_store.specs.declared.slots.NodeKind.TheVariants.{Free};
ghost use Rattle.atlas_model.specs.Pixels.{sides_of, size_of};
ghost use Rattle.atlas_store.specs.Slots.{nodes, node_at};
ghost use Rattle.atlas_store.specs.Slots.SlotCalls.{CanAppendTo, CanNestTop, HasFirst};
ghost use Rattle.atlas_store.specs.Slots.SlotCalls.{IsLeafAppended, IsLeafStretched, IsTopHung, IsTopNested};

use crate::slots::{Node, NodeKind, Slot, read_node, write_node};
use atlas_model::{Rectangle, Size, point2};
use atlas_search::cut::{across, beyond};
use atlas_search::link::{Link, NO_SLOT};

/// The free leaf at `at` reaches to the far corner of a size.
pub fn stretch_leaf(slots: &mut [Slot], at: Link, size: Size)
    requires inside { at.number < length slots.old }
    requires free { (node_at (nodes slots.old) at.number).kind ≡ Free }
    requires exact { size ≡ size_of (sides_of size) }
    ensures { IsLeafStretched slots.old slots.new at.number size }
{
    let mut leaf = read_node(slots, at);
    leaf.area.max = point2(size.width, size.height);
    write_node(slots, at, leaf);
}

/// The unused slot `fresh` becomes a free leaf after the last member of the top sequence, and reaches to the far corner
/// of a size.
pub fn append_leaf(slots: &mut [Slot], last: Link, fresh: Link, size: Size)
    requires ready { CanAppendTo (nodes slots.old) last.number fresh.number }
    requires inside { fresh.number < length slots.old }
    requires exact { size ≡ size_of (sides_of size) }
    requires short { length slots.old < NO_SLOT }
    ensures { IsLeafAppended slots.old slots.new last.number fresh.number size }
{
    let mut leaf = read_node(slots, last);
    let unused = read_node(slots, fresh);
    let strip = Node {
        previous: last,
        next: Link::NONE,
        area: beyond(leaf.area, leaf.axis, size),
        kind: NodeKind::Free,
        generation: unused.generation,
        ..leaf
    };
    leaf.next = fresh;
    write_node(slots, last, leaf);
    write_node(slots, fresh, strip);
}

// Each member of the sequence that begins at `first` is held by the slot `container`.
fn hang(slots: &mut [Slot], first: Link, container: Link)
    requires stands { HasFirst (nodes slots.old) first.number }
    requires short { length slots.old < NO_SLOT }
    ensures { IsTopHung slots.old slots.new first.number container.number }
{
    let mut at = first;
    while at.number != NO_SLOT {
        let mut node = read_node(slots, at);
        node.parent = container;
        write_node(slots, at, node);
        at = node.next;
    }
}

/// The top sequence, which begins at `first` and spans the size `inner`, becomes the first of two members of a new one
/// along the other axis: the unused slot `container` holds it. The unused slot `strip` becomes the second, a free leaf
/// that reaches to the far corner of `size`. One pass along the sequence; each node is written once.
pub fn nest_top(
    slots: &mut [Slot],
    first: Link,
    container: Link,
    strip: Link,
    inner: Size,
    size: Size,
)
    requires ready { CanNestTop (nodes slots.old) first.number container.number strip.number }
    requires container { container.number < length slots.old }
    requires strip { strip.number < length slots.old }
    requires inner { inner ≡ size_of (sides_of inner) }
    requires exact { size ≡ size_of (sides_of size) }
    requires short { length slots.old < NO_SLOT }
    ensures { IsTopNested slots.old slots.new first.number container.number strip.number inner size }
{
    let none = Link::NONE;
    let axis = across(read_node(slots, first).axis);
    let outer = Node {
        parent: none,
        previous: none,
        next: strip,
        area: Rectangle::from(inner),
        kind: NodeKind::Container,
        axis,
        generation: read_node(slots, container).generation,
    };
    let leaf = Node {
        previous: container,
        next: none,
        area: beyond(outer.area, axis, size),
        kind: NodeKind::Free,
        generation: read_node(slots, strip).generation,
        ..outer
    };
    hang(slots, first, container);
    write_node(slots, container, outer);
    write_node(slots, strip, leaf);
}
