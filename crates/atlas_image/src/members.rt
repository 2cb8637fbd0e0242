//! Checks of one used slot by its neighbours: its container, the member before it, and the one after it.
ghost use Rattle.std.specs.Prelude.{◌≡◌, ◌↔◌, ◌<◌, ◌≤◌, IsTrue, length};
ghost use Rattle.atlas_image.specs.Members.{frame_around, span_in, rank_in, first_in, IsUsed};
ghost use Rattle.atlas_image.specs.Members.{IsAfter, IsFirst};
ghost use Rattle.atlas_image.specs.Members.{IsAcross, IsEnded, IsFirstOrAfter, IsLeafOrFilled, IsMember, IsTopOrHeld};
ghost use Rattle.atlas_search.specs.Numbers.{no_slot};
ghost use Rattle.atlas_search.specs.Rectangles.{IsSolid};
ghost use Rattle.atlas_store.specs.Slots.{node_at};
ghost use Rattle.atlas_store.specs.declared.slots.NodeKind.TheVariants.{Container};

use crate::order::Order;
use atlas_model::{Rectangle, Size, point2};
use atlas_search::cut::{Orientation, across};
use atlas_search::link::{Link, NO_SLOT};
use atlas_store::slots::{Node, NodeKind};
use std::alloc::Allocator;

/// Where a rectangle begins along an axis, and where it ends.
#[derive(Clone, Copy, Debug, PartialEq, Eq)]
pub struct Span {
    pub low: i32,
    pub high: i32,
}

// What stands for a slot past the end.
fn blank_node() -> Node
    ensures { result ≡ Rattle.atlas_store.specs.Slots.blank_node }
{
    let none = Link { number: 0 };
    Node {
        parent: none,
        previous: none,
        next: none,
        area: Rectangle {
            min: point2(0, 0),
            max: point2(0, 0),
        },
        kind: NodeKind::Unused,
        axis: Orientation::Vertical,
        generation: 0,
    }
}

/// The node of a slot. Past the end and at no slot it is a blank one, which is unused.
pub(crate) fn node(nodes: &[Node], at: Link) -> Node
    ensures { result ≡ node_at nodes.now at.number }
{
    match nodes.get(at.number as usize) {
        Some(node) => *node,
        None => blank_node(),
    }
}

/// Whether a slot is used.
pub(crate) fn is_used(node: &Node) -> bool
    ensures { IsTrue result ↔ IsUsed node.now }
{
    node.kind != NodeKind::Unused
}

/// Whether a slot is a container.
pub(crate) fn is_container(node: &Node) -> bool
    ensures { IsTrue result ↔ (node.now.kind ≡ Container) }
{
    node.kind == NodeKind::Container
}

/// Where a rectangle lies along an axis.
pub(crate) fn span_of(area: &Rectangle, axis: Orientation) -> Span
    ensures { result ≡ span_in axis area.now }
{
    match axis {
        Orientation::Horizontal => Span {
            low: area.min.x,
            high: area.max.x,
        },
        Orientation::Vertical => Span {
            low: area.min.y,
            high: area.max.y,
        },
    }
}

/// The rectangle that the sequence of a member divides: that of its container, or the whole atlas.
pub(crate) fn frame(nodes: &[Node], size: Size, member: &Node) -> Rectangle
    ensures { result ≡ frame_around nodes.now size member.now }
{
    if member.parent.number == NO_SLOT {
        Rectangle::from(size)
    } else {
        node(nodes, member.parent).area
    }
}

/// Whether a rectangle has sides above 0, and no corner below 0.
pub(crate) fn is_solid(area: &Rectangle) -> bool
    ensures { IsTrue result ↔ IsSolid area.now }
{
    area.min.x >= 0 && area.min.y >= 0 && area.min.x < area.max.x && area.min.y < area.max.y
}

// Whether a member is as wide across its sequence as what that divides.
fn is_across(member: &Node, frame: &Rectangle) -> bool
    ensures { IsTrue result ↔ IsAcross member.now frame.now }
{
    let axis = across(member.axis);
    span_of(&member.area, axis) == span_of(frame, axis)
}

// Whether a member is in a container that runs along the other axis, or in the top sequence.
fn is_held<A: Allocator>(nodes: &[Node], order: &Order<A>, member: &Node) -> bool
    ensures { IsTrue result ↔ IsTopOrHeld nodes.now order.now member.now }
{
    if member.parent.number == NO_SLOT {
        member.axis == node(nodes, order.top).axis
    } else {
        let container = node(nodes, member.parent);
        container.kind == NodeKind::Container && member.axis == across(container.axis)
    }
}

// Whether a member is the first of its sequence, and begins where that does.
fn is_first<A: Allocator>(order: &Order<A>, at: Link, member: &Node, frame: &Rectangle) -> bool
    ensures { IsTrue result ↔ IsFirst order.now at.number member.now frame.now }
{
    span_of(&member.area, member.axis).low == span_of(frame, member.axis).low
        && order.first(member.parent) == at
        && (member.parent.number == NO_SLOT || order.rank(member.parent) < order.rank(at))
}

// Whether a member comes after another one, and begins where that ends.
fn is_after<A: Allocator>(order: &Order<A>, before: &Node, at: Link, member: &Node) -> bool
    ensures { IsTrue result ↔ IsAfter before.now at.number member.now
        (rank_in order.now member.now.previous.number) (rank_in order.now at.number) }
{
    is_used(before)
        && before.next == at
        && before.parent == member.parent
        && before.axis == member.axis
        && span_of(&member.area, member.axis).low == span_of(&before.area, member.axis).high
        && order.rank(member.previous) < order.rank(at)
}

// Whether a member comes first in its sequence, or after another one.
fn is_begun<A: Allocator>(
    nodes: &[Node],
    order: &Order<A>,
    at: Link,
    member: &Node,
    frame: &Rectangle,
) -> bool
    ensures { IsTrue result ↔ IsFirstOrAfter nodes.now order.now at.number member.now frame.now }
{
    if member.previous.number == NO_SLOT {
        is_first(order, at, member, frame)
    } else {
        is_after(order, &node(nodes, member.previous), at, member)
    }
}

// Whether a member comes last in its sequence, and ends where that does, or a used slot follows it.
fn is_ended(nodes: &[Node], at: Link, member: &Node, frame: &Rectangle) -> bool
    ensures { IsTrue result ↔ IsEnded nodes.now at.number member.now frame.now }
{
    if member.next.number == NO_SLOT {
        span_of(&member.area, member.axis).high == span_of(frame, member.axis).high
    } else {
        let after = node(nodes, member.next);
        is_used(&after) && after.previous == at
    }
}

// Whether a member is no container, or has a first member.
fn is_filled<A: Allocator>(nodes: &[Node], order: &Order<A>, at: Link, member: &Node) -> bool
    ensures { IsTrue result ↔ IsLeafOrFilled nodes.now order.now at.number member.now }
{
    if member.kind != NodeKind::Container {
        return true;
    }
    let first = node(nodes, order.first(at));
    is_used(&first) && first.parent == at && first.previous.number == NO_SLOT
}

/// Whether all that a used slot says of its place agrees with its neighbours.
pub(crate) fn is_member<A: Allocator>(
    nodes: &[Node],
    order: &Order<A>,
    size: Size,
    at: Link,
    member: &Node,
) -> bool
    ensures { IsTrue result ↔ IsMember nodes.now order.now size at.number member.now }
{
    let frame = frame(nodes, size, member);
    is_solid(&member.area)
        && is_across(member, &frame)
        && is_held(nodes, order, member)
        && is_begun(nodes, order, at, member, &frame)
        && is_ended(nodes, at, member, &frame)
        && is_filled(nodes, order, at, member)
}
