//! Sprites in their places, and how full their sheet is.
ghost use Rattle.std.specs.Prelude.{◌≡◌, ◌≤◌, ◌*◌};
ghost use Rattle.atlas_pack.specs.Frames.{fullness, pixel_count, used_pixels};

use crate::sprites::Sprite;
use atlas_model::{Point, Size};

/// A sprite in its place.
#[derive(Debug, Drop)]
pub struct Frame {
    /// The sprite.
    pub sprite: Sprite,
    /// The upper left corner of its place, in pixels.
    pub corner: Point,
    /// Whether it is turned by 90 degrees: the place is as wide as the sprite is high.
    pub turned: bool,
}

// How many pixels a size has.
pub fn pixel_count(size: Size) -> u64
    ensures value { result ≡ pixel_count size }
    ensures bound { result ≤ 2147483647 * 2147483647 }
{
    let width = size.width.max(0) as u64;
    let height = size.height.max(0) as u64;
    width * height
}

// How many pixels the sprites have together.
fn used_pixels(frames: &[Frame]) -> u128
    ensures { result ≡ used_pixels frames.now }
{
    let mut used = 0;
    for frame in frames {
        used += u128::from(pixel_count(frame.sprite.size));
    }
    used
}

/// How many thousandths of the sheet's pixels the sprites have, rounded down; 0 for an empty sheet.
pub fn fullness(sheet: Size, frames: &[Frame]) -> u128
    ensures { result ≡ fullness sheet frames.now }
{
    let all = u128::from(pixel_count(sheet));
    1000 * used_pixels(frames).min(all) / all.max(1)
}
