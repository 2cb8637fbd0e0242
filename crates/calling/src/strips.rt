//! Sprites in a strip as low as they are found to lie.
ghost use Rattle.std.specs.Prelude.{IfNone, IfOk, IfSome};
ghost use Rattle.guillotiere.specs.Pixels.{sides_of};
ghost use Rattle.atlas_sheet.specs.Dense.{IsLeastDense, NoneIsDense};

use atlas_sheet::{Sheet, SheetError, SheetOptions, pack_dense};
use guillotiere::Size;
use std::alloc::Allocator;

/// Packs sprites. In a strip that is a pixel lower, or in the greatest where there is none, one finds no place if each lies
/// as high up as it can, and there as far left, the highest first.
pub fn strip<A: Allocator + Copy>(
    alloc: A,
    sprites: &[Size],
    options: &SheetOptions,
) -> Result<Option<Sheet<A>>, SheetError>
    ensures lower { IfOk result (λ found. IfSome found (λ s. IsLeastDense options.now sprites.now (sides_of s.size))) }
    ensures none { IfOk result (λ found. IfNone found (NoneIsDense options.now sprites.now)) }
{
    pack_dense(alloc, sprites, options)
}
