//! Sprites on several textures.
ghost use Rattle.std.specs.Prelude.{◌≡◌, ◌<◌, length, All, IfOk, IfSome};

use atlas_sheet::{Allowed, Pages, SheetError, SheetOptions, pack_pages};
use guillotiere::{Rectangle, Size};
use std::alloc::Allocator;

/// Packs sprites on textures with sides of powers of two. Each sprite has a place on one of them.
pub fn textures<A: Allocator + Copy>(
    alloc: A,
    sprites: &[Size],
    side: i32,
) -> Result<Option<Pages<A>>, SheetError>
    ensures count { IfOk result (λ found. IfSome found (λ p. length p.places.items ≡ length sprites.now)) }
    ensures known { IfOk result (λ found. IfSome found (λ p.
        All (λ q. q.page < length p.sizes.items) p.places.items)) }
{
    let options = SheetOptions {
        padding: 1,
        ..SheetOptions::new(Allowed::Powers { greatest: side })
    };
    pack_pages(alloc, sprites, &options)
}

/// How large the texture of a sprite is, and where the sprite lies there.
pub fn place_of<A: Allocator + Copy>(pages: &Pages<A>, sprite: usize) -> (Size, Rectangle)
    requires inside { sprite < length pages.now.places.items }
    requires known { All (λ q. q.page < length pages.now.sizes.items) pages.now.places.items }
{
    let place = pages.places[sprite];
    (pages.sizes[place.page], place.placed.area)
}
