//! Where a box of some sides may lie in free boxes: the topmost corner, and of these the leftmost.
ghost use Rattle.std.specs.Prelude.{◌+◌, ◌<◌, ◌≤◌, ◌↔◌, IsTrue};
ghost use Rattle.atlas_maxrects.specs.Free.{IsBestCorner, IsBetter, corner_position, sides_by};
ghost use Rattle.atlas_maxrects.specs.Placing.{LiesBefore};

use crate::free::FreeBox;

/// A corner of a free box.
#[derive(Clone, Copy)]
pub struct Corner {
    pub x: u32,
    pub y: u32,
}

// Whether a box of these sides has room in a free one.
fn has_room(free: FreeBox, width: u32, height: u32) -> bool
    requires wide { 0 < width }
    requires high { 0 < height }
    ensures { IsTrue result ↔ ((free.left + width ≤ free.right) × (free.top + height ≤ free.bottom)) }
{
    width <= free.right.saturating_sub(free.left) && height <= free.bottom.saturating_sub(free.top)
}

// Whether the first corner is higher up, or as high and no further right.
fn comes_first(one: Corner, other: Corner) -> bool
    ensures { IsTrue result ↔ LiesBefore (corner_position one) (corner_position other) }
{
    one.y < other.y || one.y == other.y && one.x <= other.x
}

// The better of a corner, if there is one, and another.
fn better(best: Option<Corner>, other: Corner) -> Corner
    ensures { IsBetter best other result }
{
    match best {
        Some(one) if comes_first(one, other) => one,
        _ => other,
    }
}

/// The topmost corner of a free box that has room for these sides, and of these the leftmost.
pub fn best_corner(free: &[FreeBox], width: u32, height: u32) -> Option<Corner>
    requires wide { 0 < width }
    requires high { 0 < height }
    ensures { IsBestCorner free.now (sides_by width height) result }
{
    let mut best = None;
    for one in free {
        if has_room(*one, width, height) {
            let corner = Corner {
                x: one.left,
                y: one.top,
            };
            best = Some(better(best, corner));
        }
    }
    best
}
