//! Whether nodes are those of an atlas.
ghost use Rattle.std.specs.Prelude.{◌≡◌, ◌≤◌, ◌↔◌, IsTrue, IfOk, IfNone, IfSome, length};
ghost use Rattle.atlas_model.specs.Boxes.{IsPositive};
ghost use Rattle.atlas_model.specs.Choice.{AreValid};
ghost use Rattle.atlas_model.specs.Pixels.{options_of, sides_of};
ghost use Rattle.atlas_model.specs.Trees.{most_slots};
ghost use Rattle.atlas_image.specs.Imaged.{used_below, AreImaged, AreMembers};
ghost use Rattle.atlas_image.specs.Members.{IsFirstOf};
ghost use Rattle.atlas_search.specs.Numbers.{no_slot};

use crate::members::{is_member, is_used, node};
use crate::order::Order;
use crate::settled::is_settled;
use crate::unused::are_lined;
use atlas_model::{AllocatorOptions, Size};
use atlas_search::link::{Link, NO_SLOT};
use atlas_store::slots::Node;
use std::alloc::{AllocError, Allocator};

// Whether a slot is used, and comes first in the top sequence.
fn is_first_of_all(member: &Node) -> bool
    ensures { IsTrue result ↔ IsFirstOf member.now no_slot }
{
    is_used(member) && member.parent.number == NO_SLOT && member.previous.number == NO_SLOT
}

// Whether each used slot is a member of one tree, in its place.
fn are_members<A: Allocator>(
    nodes: &[Node],
    order: &Order<A>,
    size: Size,
    options: &AllocatorOptions,
) -> bool
    requires short { length nodes.now ≤ most_slots }
    requires valid { AreValid (options_of options.now) }
    ensures { IsTrue result ↔ AreMembers nodes.now order.now size options.now }
{
    for number in 0..nodes.len() {
        let at = Link {
            number: number as u32,
        };
        let member = node(nodes, at);
        if is_used(&member) {
            if !is_member(nodes, order, size, at, &member) {
                return false;
            }
            if !is_settled(nodes, options, &member) {
                return false;
            }
        }
    }
    true
}

/// How many slots are used.
pub fn count_used(nodes: &[Node]) -> u32
    requires { length nodes.now ≤ most_slots }
    ensures { result ≡ used_below nodes.now (length nodes.now) }
{
    let mut count = 0;
    for number in 0..nodes.len() {
        let member = node(
            nodes,
            Link {
                number: number as u32,
            },
        );
        if is_used(&member) {
            count += 1;
        }
    }
    count
}

/// The slot of the first member, if these are nodes of an atlas of this size with these options, of whose unused slots this one comes
/// first. Otherwise None.
pub fn first_of<A: Allocator + Copy>(
    alloc: A,
    nodes: &[Node],
    unused: Link,
    size: Size,
    options: &AllocatorOptions,
) -> Result<Option<Link>, AllocError>
    requires short { length nodes.now ≤ most_slots }
    requires positive { IsPositive (sides_of size) }
    requires valid { AreValid (options_of options.now) }
    ensures imaged { IfOk result (λ found. IfSome found (λ first. AreImaged nodes.now unused size options.now first)) }
    ensures complete { IfOk result (λ found. IfNone found ((first : Link) → AreImaged nodes.now unused size options.now first
        → ⊥)) }
{
    let order = Order::of(alloc, nodes)?;
    let first = node(nodes, order.top);
    if !is_first_of_all(&first) {
        return Ok(None);
    }
    if !are_members(nodes, &order, size, options) {
        return Ok(None);
    }
    let lined = are_lined(alloc, nodes, unused)?;
    if !lined {
        return Ok(None);
    }
    Ok(Some(order.top))
}

#[cfg(test)]
mod tests {
    use super::*;
    use atlas_model::{DEFAULT_OPTIONS, Rectangle, size2};
    use atlas_search::cut::Orientation;
    use atlas_store::slots::NodeKind;

    #[test]
    fn one_free_slot(rt: HostRuntime) {
        let size = size2(10, 20);
        let nodes = [Node {
            parent: Link::NONE,
            previous: Link::NONE,
            next: Link::NONE,
            area: Rectangle::from(size),
            kind: NodeKind::Free,
            axis: Orientation::Vertical,
            generation: 0,
        }];
        let found = first_of(rt.alloc(), &nodes, Link::NONE, size, &DEFAULT_OPTIONS);
        assert!(rt; found == Ok(Some(Link { number: 0 })));
    }
}
