//! The writes by which a request is placed in the tree of slots: a leaf is cut in two, is put in a container of its own,
//! or is granted. They leave the lists alone.
ghost use Rattle.std.specs.Prelude.{◌≡◌, ◌≢◌, ◌<◌, length};
ghost use Rattle.atlas_model.specs.Boxes.{box_sides, side};
ghost use Rattle.atlas_model.specs.Pixels.{box_of, rectangle_of};
ghost use Rattle.atlas_store.specs.Slots.{nodes, rings, node_at, axis_of};
ghost use Rattle.atlas_store.specs.Slots.Placing.{across_of, CanPlace, IsCutInto, IsCarriedOut};
ghost use Rattle.atlas_store.specs.Slots.Reading.{extent_of};
ghost use Rattle.atlas_store.specs.Slots.Standing.{IsTree};
ghost use Rattle.atlas_store.specs.Slots.Parts.{back_part, front_node, front_part, inner_node};

use crate::slots::{Node, NodeKind, Slot, read_node, set_kind, set_previous, write_node};
use atlas_model::Rectangle;
use atlas_search::cut::{Orientation, across, back, front};
use atlas_search::link::{Link, NO_SLOT};

// The two parts of a leaf's rectangle that is cut after its first `extent` pixels along an axis.
#[inline(always)]
fn cut_area(area: Rectangle, axis: Orientation, extent: u32) -> (Rectangle, Rectangle)
    requires exact { area ≡ rectangle_of (box_of area) }
    requires less { extent < side (axis_of axis) (box_sides (box_of area)) }
    ensures first { result.0 ≡ rectangle_of (front_part (axis_of axis) extent (box_of area)) }
    ensures rest { result.1 ≡ rectangle_of (back_part (axis_of axis) extent (box_of area)) }
{
    let extent = extent as i32;
    (front(area, axis, extent), back(area, axis, extent))
}

/// How a free leaf gives way to a request that fits it, with the request's pixels along the leaf's sequence and across
/// it (docs/MODEL.md, "Changes of a tree").
#[derive(Clone, Copy, Debug, PartialEq, Eq)]
pub enum Plan {
    /// The leaf is granted whole.
    Whole,
    /// The leaf is cut along its sequence.
    StripAlong(u32),
    /// It is cut along its sequence, and its first part across.
    CornerAlong(u32, u32),
    /// It becomes a container, and is cut across.
    StripAcross(u32),
    /// It becomes a container, is cut across, and its first part along.
    CornerAcross(u32, u32),
}

/// The slots that a plan takes, each none where it takes no such slot: of what the first cut leaves, of the container
/// inside the leaf's own, of what is granted, and of what the second cut leaves. What is granted in the leaf's own slot
/// takes none.
#[derive(Clone, Copy)]
pub struct Parts {
    pub split: Link,
    pub container: Link,
    pub granted: Link,
    pub leftover: Link,
}

// A leaf is cut after its first `extent` pixels along its axis. The slot `front` is used for those as `kind` says; the
// unused slot `back` takes the rest as a free leaf after it. The answer is the first part.
#[inline(always)]
fn cut_leaf(
    slots: &mut [Slot],
    leaf: Node,
    extent: u32,
    front: Link,
    kind: NodeKind,
    back: Link,
) -> Node
    requires exact { leaf.area ≡ rectangle_of (box_of leaf.area) }
    requires less { extent < extent_of leaf }
    requires front { front.number < length slots.old }
    requires back { back.number < length slots.old }
    requires apart { front.number ≢ back.number }
    ensures cut { IsCutInto (nodes slots.old) (nodes slots.new) leaf extent front kind back }
    ensures first { result ≡ record (front_node leaf extent back) { kind = kind } }
    ensures same_rings { rings slots.new ≡ rings slots.old }
{
    let unused = read_node(slots, back);
    let (area, rest) = cut_area(leaf.area, leaf.axis, extent);
    let mut first = leaf;
    first.next = back;
    first.area = area;
    first.kind = kind;
    let second = Node {
        previous: front,
        area: rest,
        kind: NodeKind::Free,
        generation: unused.generation,
        ..leaf
    };
    write_node(slots, front, first);
    write_node(slots, back, second);
    first
}

// A leaf that is alone in the container of slot `at`, and fills it, is cut so; slot `front` was unused.
#[inline(always)]
fn cut_inside(
    slots: &mut [Slot],
    at: Link,
    container: Node,
    extent: u32,
    front: Link,
    kind: NodeKind,
    back: Link,
) -> Node
    requires exact { container.area ≡ rectangle_of (box_of container.area) }
    requires less { extent < across_of container }
    requires front { front.number < length slots.old }
    requires back { back.number < length slots.old }
    requires apart { front.number ≢ back.number }
    ensures cut { IsCutInto (nodes slots.old) (nodes slots.new)
        (inner_node container at (node_at (nodes slots.old) front.number)) extent front kind back }
    ensures first { result
        ≡ record (front_node (inner_node container at (node_at (nodes slots.old) front.number)) extent back)
        { kind = kind } }
    ensures same_rings { rings slots.new ≡ rings slots.old }
{
    let unused = read_node(slots, front);
    let none = Link::NONE;
    let inner = Node {
        parent: at,
        previous: none,
        next: none,
        kind: NodeKind::Free,
        axis: across(container.axis),
        generation: unused.generation,
        ..container
    };
    cut_leaf(slots, inner, extent, front, kind, back)
}

/// A free leaf gives way to what a plan says, in the slots of its parts, which were unused.
#[inline(always)]
pub fn place_leaf(slots: &mut [Slot], at: Link, plan: Plan, parts: Parts)
    requires stands { IsTree (nodes slots.old) }
    requires ready { CanPlace (nodes slots.old) at.number plan parts }
    requires short { length slots.old < NO_SLOT }
    ensures placed { IsCarriedOut (nodes slots.old) (nodes slots.new) at plan parts }
    ensures same_rings { rings slots.new ≡ rings slots.old }
{
    let leaf = read_node(slots, at);
    match plan {
        Plan::Whole => set_kind(slots, at, NodeKind::Alloc),
        Plan::StripAlong(along) => {
            cut_leaf(slots, leaf, along, at, NodeKind::Alloc, parts.split);
            set_previous(slots, leaf.next, parts.split);
        }
        Plan::CornerAlong(along, across) => {
            let front = cut_leaf(slots, leaf, along, at, NodeKind::Container, parts.split);
            set_previous(slots, leaf.next, parts.split);
            cut_inside(
                slots,
                at,
                front,
                across,
                parts.granted,
                NodeKind::Alloc,
                parts.leftover,
            );
        }
        Plan::StripAcross(across) => {
            set_kind(slots, at, NodeKind::Container);
            cut_inside(
                slots,
                at,
                leaf,
                across,
                parts.granted,
                NodeKind::Alloc,
                parts.split,
            );
        }
        Plan::CornerAcross(along, across) => {
            set_kind(slots, at, NodeKind::Container);
            let front = cut_inside(
                slots,
                at,
                leaf,
                across,
                parts.container,
                NodeKind::Container,
                parts.split,
            );
            cut_inside(
                slots,
                parts.container,
                front,
                along,
                parts.granted,
                NodeKind::Alloc,
                parts.leftover,
            );
        }
    }
}
