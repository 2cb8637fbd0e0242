//! Sprites placed in a grid of cells of the alignment's sides, each as high up as it can lie, and there as far left.
ghost use Rattle.std.specs.Prelude.{◌≡◌, ◌+◌, ◌*◌, ◌<◌, ◌≤◌, false, length, pos, replicate, All, IfNone, IfOk, IfSome};
ghost use Rattle.std.specs.Prelude.{IsOkUnless, IsSome, None};
ghost use Rattle.atlas_maxrects.specs.Placing.{PlacesTopmost};
ghost use Rattle.guillotiere.specs.Boxes.{IsPositive, box_at};
ghost use Rattle.guillotiere.specs.Pixels.{box_of, natural, sides_of};
ghost use Rattle.guillotiere.specs.Replies.{IsExact};
ghost use Rattle.atlas_sheet.specs.declared.error.SheetError.TheVariants.{Memory};
ghost use Rattle.atlas_sheet.specs.Dense.{AreAllPlaced, ArePaddedApart, FindAllTopmost, FindsTopmost, IsGridIn};
ghost use Rattle.atlas_sheet.specs.Dense.{IsSmallGrid, IsUpright, LeavesTopmost, TakesCells, cell_sides, empty_grid, grid_of};
ghost use Rattle.atlas_sheet.specs.Lying.{areas_of};
ghost use Rattle.atlas_sheet.specs.Orders.{IsOrderOf};
ghost use Rattle.atlas_sheet.specs.Settings.{spacing_of};
ghost use Rattle.atlas_sheet.specs.Sheets.{ArePackable, IsPackable, asked_sides, with_places};

use crate::error::SheetError;
use crate::options::{SheetOptions, Spacing};
use crate::placed::Placed;
use crate::places::{asked, inner, inset};
use atlas_maxrects::TopmostPacker;
use guillotiere::{Rectangle, Size, point2, size2};
use std::alloc::Allocator;

// How many whole cells a side has.
fn whole_cells(side: i32, cell: i32) -> i32
    requires side { 0 < natural side }
    requires cell { 0 < natural cell }
    ensures fit { natural result * natural cell ≤ natural side }
    ensures most { natural side < natural result * natural cell + natural cell }
{
    (side as u32 / cell as u32) as i32
}

// How many cells a side takes.
fn cells_for(side: i32, cell: i32) -> i32
    requires side { 0 < natural side }
    requires cell { 0 < natural cell }
    ensures enough { natural side ≤ natural result * natural cell }
    ensures least { natural result * natural cell < natural side + natural cell }
{
    ((side as u32 - 1) / cell as u32 + 1) as i32
}

// The grid of a sheet.
fn grid_in(sheet: Size, spacing: Spacing) -> Size
    requires positive { IsPositive (sides_of sheet) }
    requires aligned { IsPositive (sides_of spacing.alignment) }
    ensures lies { IsGridIn (sides_of result) spacing (sides_of sheet) }
    ensures small { IsSmallGrid (sides_of result) spacing }
    ensures whole { sides_of result ≡ grid_of spacing (sides_of sheet) }
{
    let room = inner(sheet, spacing);
    size2(
        whole_cells(room.width, spacing.alignment.width),
        whole_cells(room.height, spacing.alignment.height),
    )
}

// How many cells a sprite takes.
fn cells_of(asked: Size, cell: Size) -> Size
    requires positive { IsPositive (sides_of asked) }
    requires cell { IsPositive (sides_of cell) }
    ensures wide { (sides_of asked).width ≤ (sides_of result).width * (sides_of cell).width }
    ensures high { (sides_of asked).height ≤ (sides_of result).height * (sides_of cell).height }
    ensures cells { sides_of result ≡ cell_sides (sides_of cell) (sides_of asked) }
{
    size2(
        cells_for(asked.width, cell.width),
        cells_for(asked.height, cell.height),
    )
}

// A number that fits an `i32`, as one.
fn signed(number: u32) -> i32
    requires { number ≤ 2147483647 }
    ensures { result ≡ pos number }
{
    number as i32
}

// A number, or 0 for one below 0.
fn unsigned(number: i32) -> u32
    ensures { result ≡ natural number }
{
    number.max(0) as u32
}

// Where a side begins that begins at a cell, and where it ends.
fn stretch(from: i32, cell: i32, side: i32) -> (i32, i32)
    requires small { natural from * natural cell + natural side ≤ 2147483647 }
    ensures from { result.0 ≡ pos (natural from * natural cell) }
    ensures to { result.1 ≡ pos (natural from * natural cell + natural side) }
{
    let low = unsigned(from) * unsigned(cell);
    (signed(low), signed(low + unsigned(side)))
}

// The box with these sides that begins at a corner of a cell.
fn box_from(cells: Rectangle, cell: Size, asked: Size) -> Rectangle
    requires wide { (box_of cells).min.x * (sides_of cell).width + (sides_of asked).width ≤ 2147483647 }
    requires high { (box_of cells).min.y * (sides_of cell).height + (sides_of asked).height ≤ 2147483647 }
    ensures lies { box_of result ≡ box_at (record {
      x = (box_of cells).min.x * (sides_of cell).width;
      y = (box_of cells).min.y * (sides_of cell).height;
    }) (sides_of asked) }
    ensures exact { IsExact result }
{
    let across = stretch(cells.min.x, cell.width, asked.width);
    let down = stretch(cells.min.y, cell.height, asked.height);
    Rectangle {
        min: point2(across.0, down.0),
        max: point2(across.1, down.1),
    }
}

// The cells of a box of this size, if they have room.
fn take_cells<A: Allocator + Copy>(
    packer: &mut TopmostPacker<A>,
    size: Size,
) -> Result<Option<Rectangle>, SheetError>
    ensures placed { IfOk result (λ found. PlacesTopmost packer.old (sides_of size) found packer.new) }
    ensures unless { IsOkUnless result Memory }
{
    Ok(packer.place(size)?)
}

// Places a sprite, if it has room.
fn place_sprite<A: Allocator + Copy>(
    packer: &mut TopmostPacker<A>,
    sprite: Size,
    spacing: Spacing,
) -> Result<Option<Rectangle>, SheetError>
    requires packable { IsPackable spacing sprite }
    requires aligned { IsPositive (sides_of spacing.alignment) }
    requires small { IsSmallGrid packer.old.sheet spacing }
    ensures placed { IfOk result (λ found. IfSome found (λ place.
        TakesCells spacing packer.old sprite place packer.new)) }
    ensures topmost { IfOk result (λ found. FindsTopmost spacing packer.old sprite found packer.new) }
    ensures unless { IsOkUnless result Memory }
{
    let wanted = asked(sprite, spacing.padding);
    match take_cells(packer, cells_of(wanted, spacing.alignment))? {
        None => Ok(None),
        Some(cells) => {
            let area = box_from(cells, spacing.alignment, wanted);
            Ok(Some(inset(area, sprite, spacing.padding)))
        }
    }
}

// So many sprites without a place.
fn none_yet<A: Allocator>(alloc: A, count: usize) -> Result<Vec<Option<Placed>, A>, SheetError>
    ensures none { IfOk result (λ placed. placed.items ≡ replicate count None) }
    ensures unless { IsOkUnless result Memory }
{
    let placed = vec![in alloc; None; count]?;
    Ok(placed)
}

/// Sprites in a grid of cells, one after another in this order. None as soon as one has no room.
pub fn topmost_places<A: Allocator + Copy>(
    alloc: A,
    sprites: &[Size],
    options: &SheetOptions,
    order: &[(usize, Size)],
    sheet: Size,
) -> Result<Option<Vec<Option<Placed>, A>>, SheetError>
    requires positive { IsPositive (sides_of sheet) }
    requires good { ArePackable (spacing_of options.now) sprites.now }
    requires permuted { IsOrderOf sprites.now order.now }
    ensures each { IfOk result (λ found. IfSome found (λ placed.
        AreAllPlaced options.now (sides_of sheet) sprites.now placed.items)) }
    ensures apart { IfOk result (λ found. IfSome found (λ placed.
        ArePaddedApart (spacing_of options.now) placed.items)) }
    ensures whole { IfOk result (λ found. IfSome found (λ placed. All IsSome placed.items)) }
    ensures upright { IfOk result (λ found. IfSome found (λ placed. All IsUpright placed.items)) }
    ensures found { IfOk result (λ found. IfSome found (λ placed. FindAllTopmost (spacing_of options.now)
        (empty_grid (spacing_of options.now) (sides_of sheet)) (with_places (areas_of placed.items) order.now))) }
    ensures left { IfOk result (λ found. IfNone found
        (LeavesTopmost (spacing_of options.now) (sides_of sheet) order.now)) }
    ensures unless { IsOkUnless result Memory }
{
    let spacing = options.spacing();
    let mut packer = TopmostPacker::new(alloc, grid_in(sheet, spacing))?;
    let mut placed = none_yet(alloc, sprites.len())?;
    for sprite in order {
        match place_sprite(&mut packer, sprite.1, spacing)? {
            Some(area) => placed[sprite.0] = Some(upright(area)),
            None => return Ok(None),
        }
    }
    Ok(Some(placed))
}

// A place that isn't turned.
fn upright(area: Rectangle) -> Placed
    ensures { result ≡ record { area = area; turned = false } }
{
    Placed {
        area,
        turned: false,
    }
}
