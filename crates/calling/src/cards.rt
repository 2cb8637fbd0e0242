//! Sprites on one square texture, with no guillotine cuts.
ghost use Rattle.std.specs.Prelude.{◌≡◌, ◌<◌, length, IfOk, IfSome};

use atlas_sheet::{Allowed, Sheet, SheetError, SheetOptions, pack_dense};
use guillotiere::{Rectangle, Size};
use std::alloc::Allocator;

/// Packs cards on one square texture. Each card has a place there.
pub fn cards<A: Allocator + Copy>(
    alloc: A,
    sizes: &[Size],
    side: i32,
) -> Result<Option<Sheet<A>>, SheetError>
    ensures count { IfOk result (λ found. IfSome found (λ sheet. length sheet.places.items ≡ length sizes.now)) }
{
    let options = SheetOptions {
        padding: 1,
        ..SheetOptions::new(Allowed::Squares {
            least: 1,
            greatest: side,
        })
    };
    pack_dense(alloc, sizes, &options)
}

/// Where a card lies on the texture of these sizes.
pub fn area_of<A: Allocator + Copy>(sheet: &Sheet<A>, sizes: &[Size], card: usize) -> Rectangle
    requires count { length sheet.now.places.items ≡ length sizes.now }
    requires inside { card < length sizes.now }
{
    sheet.places[card].area
}
