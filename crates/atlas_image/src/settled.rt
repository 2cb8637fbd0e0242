//! Checks that a tree is normal, and that what is granted is aligned, slot by slot.
ghost use Rattle.std.specs.Prelude.{◌≡◌, ◌↔◌, IsTrue};
ghost use Rattle.atlas_model.specs.Boxes.{box_sides};
ghost use Rattle.atlas_model.specs.Choice.{AreValid};
ghost use Rattle.atlas_model.specs.Pixels.{box_of, options_of};
ghost use Rattle.atlas_model.specs.States.{IsAligned};
ghost use Rattle.atlas_search.specs.Rectangles.{IsSolid};
ghost use Rattle.atlas_image.specs.Members.{IsNormalAndAligned, IsSettledLeaf};

use crate::members::node;
use atlas_model::{AllocatorOptions, Rectangle};
use atlas_search::cut::exact_size;
use atlas_search::link::NO_SLOT;
use atlas_store::slots::{Node, NodeKind};

// Whether both sides of a rectangle are multiples of the alignment.
fn is_aligned(area: &Rectangle, options: &AllocatorOptions) -> bool
    requires solid { IsSolid area.now }
    requires valid { AreValid (options_of options.now) }
    ensures { IsTrue result ↔ IsAligned (options_of options.now) (box_sides (box_of area.now)) }
{
    let size = exact_size(*area);
    let least = options.alignment;
    size.width as u32 % least.width as u32 == 0 && size.height as u32 % least.height as u32 == 0
}

// Whether no free member follows a free one, and that isn't alone in a container.
fn is_calm(nodes: &[Node], member: &Node) -> bool
    ensures { IsTrue result ↔ IsSettledLeaf nodes.now member.now }
{
    node(nodes, member.next).kind != NodeKind::Free
        && (member.previous.number != NO_SLOT
            || member.next.number != NO_SLOT
            || member.parent.number == NO_SLOT)
}

/// Whether a used slot is one of a normal tree, and aligned where it is granted.
pub(crate) fn is_settled(nodes: &[Node], options: &AllocatorOptions, member: &Node) -> bool
    requires solid { IsSolid member.now.area }
    requires valid { AreValid (options_of options.now) }
    ensures { IsTrue result ↔ IsNormalAndAligned nodes.now options.now member.now }
{
    match member.kind {
        NodeKind::Free => is_calm(nodes, member),
        NodeKind::Alloc => is_aligned(&member.area, options),
        _ => true,
    }
}
