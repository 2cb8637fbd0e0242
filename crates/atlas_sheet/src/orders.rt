//! The orders in which sprites are placed.
ghost use Rattle.std.specs.Prelude.{◌≡◌, ◌<◌, pos, IfOk, IsOkUnless};
ghost use Rattle.std.specs.List.{enumerate_from};
ghost use Rattle.guillotiere.specs.Boxes.{IsPositive};
ghost use Rattle.guillotiere.specs.Pixels.{sides_of};
ghost use Rattle.atlas_sheet.specs.declared.error.SheetError.TheVariants.{Memory};
ghost use Rattle.atlas_sheet.specs.Orders.{AreGreatestFirst, IsOrderOf, key_of};

use crate::error::SheetError;
use guillotiere::Size;
use std::alloc::Allocator;
use std::cmp::Reverse;

/// What sprites are sorted by, the greatest first; those that compare equal keep their order.
#[derive(Clone, Copy, Debug, PartialEq, Eq)]
pub enum Key {
    Height,
    Area,
    LesserSide,
    GreaterSide,
    HeightTimesGreaterSide,
}

impl Key {
    /// The value of a sprite under this key: pixels, or pixels times pixels. A side below 0 counts as 0.
    pub fn of(self, sprite: Size) -> u64
        ensures { result ≡ key_of self (sides_of sprite) }
    {
        let width = sprite.width.max(0) as u64;
        let height = sprite.height.max(0) as u64;
        match self {
            Key::Height => height,
            Key::Area => width * height,
            Key::LesserSide => width.min(height),
            Key::GreaterSide => width.max(height),
            Key::HeightTimesGreaterSide => height * width.max(height),
        }
    }
}

// The sprites with their numbers, from 0.
pub fn numbered<A: Allocator>(
    alloc: A,
    sprites: &[Size],
) -> Result<Vec<(usize, Size), A>, SheetError>
    ensures numbered { IfOk result (λ order. order.items ≡ enumerate_from 0 sprites.now) }
    ensures unless { IsOkUnless result Memory }
{
    let mut order = Vec::with_capacity(alloc, sprites.len())?;
    order.extend(sprites.iter().copied().enumerate())?;
    Ok(order)
}

// The sprites with their numbers, those with the greatest key first.
pub fn greatest_first<A: Allocator>(
    alloc: A,
    sprites: &[Size],
    key: Key,
) -> Result<Vec<(usize, Size), A>, SheetError>
    ensures permuted { IfOk result (λ order. IsOrderOf sprites.now order.items) }
    ensures greatest { IfOk result (λ order. AreGreatestFirst key order.items) }
    ensures unless { IsOkUnless result Memory }
{
    let mut order = numbered(alloc, sprites)?;
    order.sort_by_key(|sprite| Reverse(key.of(sprite.1)))?;
    Ok(order)
}
