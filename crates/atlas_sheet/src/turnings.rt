//! How sprites that may be turned lie where the ways are tried with them.
ghost use Rattle.std.specs.Prelude.{◌≡◌, ◌+◌, ◌<◌, nat_le, IfOk, IsOkUnless};
ghost use Rattle.std.specs.List.{AllZip};
ghost use Rattle.guillotiere.specs.Boxes.{IsPositive};
ghost use Rattle.guillotiere.specs.Choice.{up};
ghost use Rattle.guillotiere.specs.Pixels.{natural, sides_of};
ghost use Rattle.atlas_sheet.specs.declared.error.SheetError.TheVariants.{Memory};
ghost use Rattle.atlas_sheet.specs.Lying.{MayLie};
ghost use Rattle.atlas_sheet.specs.Settings.{CanPack, spacing_of};
ghost use Rattle.atlas_sheet.specs.Sheets.{ArePackable};
ghost use Rattle.atlas_sheet.specs.Turnings.{AreLaid, fitted, has_room, turned_to};

use crate::changes::flipped;
use crate::error::SheetError;
use crate::options::{SheetOptions, Spacing};
use crate::places::inner;
use crate::search::greatest_sheet;
use guillotiere::Size;
use std::alloc::Allocator;

/// How sprites that may be turned lie when the ways are tried with them. One that has room in the greatest sheet only when
/// it lies the other way round lies that way.
#[derive(Clone, Copy, Debug, PartialEq, Eq)]
pub enum Turning {
    /// Each as it is given.
    AsGiven,
    /// Each at least as wide as high.
    Wide,
    /// Each at least as high as wide.
    High,
}

// Whether a side with its padding, rounded up to the alignment, is within another.
fn is_roomy(side: i32, padding: u16, step: i32, room: i32) -> bool
    requires side { 0 < natural side }
    requires step { 0 < natural step }
    requires room { 0 < natural room }
    ensures { result ≡ nat_le (up (natural side + padding) (natural step)) (natural room) }
{
    let step = step as u64;
    let asked = side as u64 + u64::from(padding);
    (asked + (step - 1)) / step * step <= room as u64
}

// Whether a sprite that lies so has room in an empty sheet.
fn has_room(sheet: Size, spacing: Spacing, lying: Size) -> bool
    requires sheet { IsPositive (sides_of sheet) }
    requires aligned { IsPositive (sides_of spacing.alignment) }
    requires positive { IsPositive (sides_of lying) }
    ensures { result ≡ has_room (sides_of sheet) spacing lying }
{
    let room = inner(sheet, spacing);
    is_roomy(
        lying.width,
        spacing.padding,
        spacing.alignment.width,
        room.width,
    ) && is_roomy(
        lying.height,
        spacing.padding,
        spacing.alignment.height,
        room.height,
    )
}

// A sprite as it is given, as wide as it can lie, or as high.
fn turned_to(how: Turning, sprite: Size) -> Size
    ensures { result ≡ turned_to how sprite }
{
    match how {
        Turning::AsGiven => sprite,
        Turning::Wide => {
            if sprite.width < sprite.height {
                flipped(sprite)
            } else {
                sprite
            }
        }
        Turning::High => {
            if sprite.height < sprite.width {
                flipped(sprite)
            } else {
                sprite
            }
        }
    }
}

// The other way where it has room in the sheet only so.
fn fitted(sheet: Size, spacing: Spacing, sprite: Size) -> Size
    requires sheet { IsPositive (sides_of sheet) }
    requires aligned { IsPositive (sides_of spacing.alignment) }
    requires positive { IsPositive (sides_of sprite) }
    ensures { result ≡ fitted (sides_of sheet) spacing sprite }
{
    let turned = flipped(sprite);
    if !has_room(sheet, spacing, sprite) && has_room(sheet, spacing, turned) {
        turned
    } else {
        sprite
    }
}

// A sprite that is laid so.
fn laid_one(sheet: Size, spacing: Spacing, how: Turning, sprite: Size) -> Size
    requires sheet { IsPositive (sides_of sheet) }
    requires aligned { IsPositive (sides_of spacing.alignment) }
    requires positive { IsPositive (sides_of sprite) }
    ensures { result ≡ fitted (sides_of sheet) spacing (turned_to how sprite) }
{
    fitted(sheet, spacing, turned_to(how, sprite))
}

/// The sprites as they are laid.
pub fn laid<A: Allocator + Copy>(
    alloc: A,
    sprites: &[Size],
    options: &SheetOptions,
    how: Turning,
) -> Result<Vec<Size, A>, SheetError>
    requires { CanPack options.now sprites.now }
    ensures laid { IfOk result (λ lying. AreLaid options.now how sprites.now lying.items) }
    ensures lies { IfOk result (λ lying. AllZip (MayLie options.now.turn) sprites.now lying.items) }
    ensures good { IfOk result (λ lying. ArePackable (spacing_of options.now) lying.items) }
    ensures unless { IsOkUnless result Memory }
{
    let sheet = greatest_sheet(options.allowed);
    if !options.turn {
        return Ok(Vec::from_slice(alloc, sprites)?);
    }
    let spacing = options.spacing();
    let mut lying = Vec::with_capacity(alloc, sprites.len())?;
    for sprite in sprites {
        lying.push(laid_one(sheet, spacing, how, *sprite))?;
    }
    Ok(lying)
}
