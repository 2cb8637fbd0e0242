//! Icons in one texture to which none is added later.
ghost use Rattle.std.specs.Prelude.{map, All, IfOk, IfSome};
ghost use Rattle.guillotiere.specs.Boxes.{AreDisjoint, IsWithin};
ghost use Rattle.guillotiere.specs.Pixels.{box_of, sides_of};

use atlas_sheet::{Allowed, Sheet, SheetError, SheetOptions, pack_dense};
use guillotiere::Size;
use std::alloc::Allocator;

/// Packs icons into as small a square as is found. Each has a place there, and no pixel is in two.
pub fn icons<A: Allocator + Copy>(
    alloc: A,
    icons: &[Size],
    side: i32,
) -> Result<Option<Sheet<A>>, SheetError>
    ensures inside { IfOk result (λ found. IfSome found (λ s.
        All (λ p. IsWithin (sides_of s.size) (box_of p.area)) s.places.items)) }
    ensures apart { IfOk result (λ found. IfSome found (λ s.
        AreDisjoint (map (λ p. box_of p.area) s.places.items))) }
{
    let options = SheetOptions {
        padding: 1,
        ..SheetOptions::new(Allowed::Squares {
            least: 1,
            greatest: side,
        })
    };
    pack_dense(alloc, icons, &options)
}
