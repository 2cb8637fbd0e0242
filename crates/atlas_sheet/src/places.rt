//! Places for sprites, one after another.
ghost use Rattle.std.specs.Prelude.{◌≡◌, ◌+◌, ◌-◌, ◌<◌, ◌≤◌, max, length, pos, All, IfNone, IfOk, IfSome, IsOkUnless, None};
ghost use Rattle.std.specs.Prelude.{OnOk};
ghost use Rattle.guillotiere.specs.Boxes.{IsPositive, box_at};
ghost use Rattle.guillotiere.specs.Choice.{HasNoRoom};
ghost use Rattle.guillotiere.specs.Pixels.{box_of, natural, sides_of};
ghost use Rattle.guillotiere.specs.Simple.{simple_start};
ghost use Rattle.guillotiere.specs.SimpleStored.{simple_state_of};
ghost use Rattle.atlas_sheet.specs.declared.error.SheetError.TheVariants.{Memory};
ghost use Rattle.atlas_sheet.specs.Orders.{AreNumberedOnce, IsOrderOf, choice_options};
ghost use Rattle.atlas_sheet.specs.Packings.{AllFindPlaces, LeavesOne};
ghost use Rattle.atlas_sheet.specs.Sheets.{AreFoundBy, ArePackable, ArePlaces, FindPlaces, FindsPlace, GivesBox, IsPackable};
ghost use Rattle.atlas_sheet.specs.Sheets.{asked_sides, inner_sides, padded, with_places};
ghost use Rattle.guillotiere.specs.Replies.{IsExact};

use crate::error::SheetError;
use crate::options::Spacing;
use crate::orders::greatest_first;
use crate::ways::{Choice, Way};
use guillotiere::{Point, Rectangle, SimpleAtlasAllocator, Size, point2, size2};
use std::alloc::Allocator;

// What stands for a place until it is found.
const NOWHERE: Rectangle = Rectangle {
    min: Point { x: 0, y: 0 },
    max: Point { x: 0, y: 0 },
};

// What is left of a sheet's side without the padding at one end, and at least 1.
fn inner_side(side: i32, padding: u16) -> i32
    requires { 0 < natural side }
    ensures left { natural result ≡ max (natural side - padding) 1 }
    ensures positive { 0 < natural result }
{
    (side as u32).saturating_sub(u32::from(padding)).max(1) as i32
}

/// What is left of a sheet without the padding at its right and below.
pub fn inner(sheet: Size, spacing: Spacing) -> Size
    requires { IsPositive (sides_of sheet) }
    ensures sides { sides_of result ≡ inner_sides spacing (sides_of sheet) }
    ensures positive { IsPositive (sides_of result) }
{
    size2(
        inner_side(sheet.width, spacing.padding),
        inner_side(sheet.height, spacing.padding),
    )
}

// A new sheet, in which each sprite has the padding at its left and above.
fn start<A: Allocator + Copy>(
    alloc: A,
    sheet: Size,
    spacing: Spacing,
    choice: Choice,
) -> Result<SimpleAtlasAllocator<A>, SheetError>
    requires positive { IsPositive (sides_of sheet) }
    requires aligned { IsPositive (sides_of spacing.alignment) }
    ensures start { IfOk result (λ packer. simple_state_of packer
        ≡ simple_start (inner_sides spacing (sides_of sheet)) (choice_options spacing choice)) }
    ensures unless { IsOkUnless result Memory }
{
    Ok(SimpleAtlasAllocator::with_options(alloc, inner(sheet, spacing), &choice.options(spacing))?)
}

// What a sprite asks for: its sides with the padding.
pub fn asked(sprite: Size, padding: u16) -> Size
    requires positive { IsPositive (sides_of sprite) }
    requires wide { (sides_of sprite).width + padding ≤ 2147483647 }
    requires high { (sides_of sprite).height + padding ≤ 2147483647 }
    ensures { sides_of result ≡ asked_sides padding sprite }
{
    let border = i32::from(padding);
    size2(sprite.width + border, sprite.height + border)
}

// A part of a box's side behind the padding.
fn inset_side(low: i32, padding: u16, side: i32) -> (i32, i32)
    requires low { pos (natural low) ≡ low }
    requires side { 0 < natural side }
    requires small { natural low + (natural side + padding) ≤ 2147483647 }
    ensures from { result.0 ≡ pos (natural low + padding) }
    ensures to { result.1 ≡ pos (natural low + (natural side + padding)) }
{
    let from = low + i32::from(padding);
    (from, from + side)
}

// The place of a sprite in the corner of a box, without the padding at its left and above.
pub fn inset(area: Rectangle, sprite: Size, padding: u16) -> Rectangle
    requires positive { IsPositive (sides_of sprite) }
    requires exact { IsExact area }
    requires wide { (box_of area).min.x + ((sides_of sprite).width + padding) ≤ (box_of area).max.x }
    requires high { (box_of area).min.y + ((sides_of sprite).height + padding) ≤ (box_of area).max.y }
    ensures exact { IsExact result }
    ensures padded { padded padding result ≡ box_at (box_of area).min (asked_sides padding sprite) }
    ensures left { padding ≤ (box_of result).min.x }
    ensures above { padding ≤ (box_of result).min.y }
{
    let across = inset_side(area.min.x, padding, sprite.width);
    let down = inset_side(area.min.y, padding, sprite.height);
    Rectangle {
        min: point2(across.0, down.0),
        max: point2(across.1, down.1),
    }
}

// Asks for a box of these sides.
fn request<A: Allocator + Copy>(
    packer: &mut SimpleAtlasAllocator<A>,
    size: Size,
) -> Result<Option<Rectangle>, SheetError>
    ensures step { IfOk result (λ found. GivesBox (simple_state_of packer.old) (sides_of size) found
        (simple_state_of packer.new)) }
    ensures unless { IsOkUnless result Memory }
{
    Ok(packer.allocate(size)?)
}

// Asks for a place for a sprite.
fn place<A: Allocator + Copy>(
    packer: &mut SimpleAtlasAllocator<A>,
    sprite: Size,
    spacing: Spacing,
) -> Result<Option<Rectangle>, SheetError>
    requires packable { IsPackable spacing sprite }
    requires aligned { IsPositive (simple_state_of packer.old).options.alignment }
    ensures step { IfOk result (λ found.
        FindsPlace spacing (simple_state_of packer.old) sprite found (simple_state_of packer.new)) }
    ensures unless { IsOkUnless result Memory }
{
    let Some(area) = request(packer, asked(sprite, spacing.padding))? else {
        return Ok(None);
    };
    Ok(Some(inset(area, sprite, spacing.padding)))
}

// Asks for a place for a sprite, if it hasn't the size that found none just before.
fn place_unless<A: Allocator + Copy>(
    packer: &mut SimpleAtlasAllocator<A>,
    sprite: Size,
    spacing: Spacing,
    refused: Option<Size>,
) -> Result<Option<Rectangle>, SheetError>
    requires packable { IsPackable spacing sprite }
    requires aligned { IsPositive (simple_state_of packer.old).options.alignment }
    requires refused { IfSome refused (λ s. HasNoRoom (simple_state_of packer.old).free
        (simple_state_of packer.old).options (asked_sides spacing.padding s)) }
    ensures step { IfOk result (λ found.
        FindsPlace spacing (simple_state_of packer.old) sprite found (simple_state_of packer.new)) }
    ensures unless { IsOkUnless result Memory }
{
    if refused == Some(sprite) {
        return Ok(None);
    }
    place(packer, sprite, spacing)
}

// The size that found no place, if it found none.
fn refused_by(sprite: Size, found: Option<Rectangle>) -> Option<Size>
    ensures { IfSome result (λ s. (s ≡ sprite) × (found ≡ None)) }
{
    match found {
        Some(_) => None,
        None => Some(sprite),
    }
}

// Numbered sprites ask one after another; what each finds is written at its number.
fn find_in<A: Allocator + Copy>(
    packer: &mut SimpleAtlasAllocator<A>,
    order: &[(usize, Size)],
    spacing: Spacing,
    places: &mut [Option<Rectangle>],
) -> Result<(), SheetError>
    requires aligned { IsPositive (simple_state_of packer.old).options.alignment }
    requires packable { All (λ s. IsPackable spacing s.1) order.now }
    requires numbers { All (λ s. s.0 < length places.old) order.now }
    requires once { AreNumberedOnce order.now }
    ensures found { OnOk result
        (FindPlaces spacing (simple_state_of packer.old) (with_places places.new order.now)) }
    ensures unless { IsOkUnless result Memory }
{
    let mut refused = None;
    for sprite in order {
        let found = place_unless(packer, sprite.1, spacing, refused)?;
        places[sprite.0] = found;
        refused = refused_by(sprite.1, found);
    }
    Ok(())
}

/// What each of the numbered sprites finds in a new sheet, in the order of the numbers.
pub fn find_places<A: Allocator + Copy>(
    alloc: A,
    sprites: &[Size],
    order: &[(usize, Size)],
    sheet: Size,
    spacing: Spacing,
    choice: Choice,
) -> Result<Vec<Option<Rectangle>, A>, SheetError>
    requires positive { IsPositive (sides_of sheet) }
    requires good { ArePackable spacing sprites.now }
    requires permuted { IsOrderOf sprites.now order.now }
    ensures count { IfOk result (λ places. length places.items ≡ length sprites.now) }
    ensures found { IfOk result (λ places.
        FindPlaces spacing (simple_start (inner_sides spacing (sides_of sheet)) (choice_options spacing choice))
        (with_places places.items order.now)) }
    ensures unless { IsOkUnless result Memory }
{
    let mut places = vec![in alloc; None; sprites.len()]?;
    let mut packer = start(alloc, sheet, spacing, choice)?;
    find_in(&mut packer, order, spacing, &mut places)?;
    Ok(places)
}

// A place for each of the numbered sprites in a new sheet, in the order of the numbers. None as soon as one finds none.
pub fn find_all<A: Allocator + Copy>(
    alloc: A,
    sprites: &[Size],
    order: &[(usize, Size)],
    sheet: Size,
    spacing: Spacing,
    choice: Choice,
) -> Result<Option<Vec<Rectangle, A>>, SheetError>
    requires positive { IsPositive (sides_of sheet) }
    requires good { ArePackable spacing sprites.now }
    requires permuted { IsOrderOf sprites.now order.now }
    ensures count { IfOk result (λ found. IfSome found (λ places. length places.items ≡ length sprites.now)) }
    ensures found { IfOk result (λ found. IfSome found (λ places.
        AllFindPlaces (sides_of sheet) spacing choice order.now places.items)) }
    ensures left { IfOk result (λ found. IfNone found (LeavesOne (sides_of sheet) spacing choice order.now)) }
    ensures unless { IsOkUnless result Memory }
{
    let mut places = vec![in alloc; NOWHERE; sprites.len()]?;
    let mut packer = start(alloc, sheet, spacing, choice)?;
    for sprite in order {
        match place(&mut packer, sprite.1, spacing)? {
            Some(found) => places[sprite.0] = found,
            None => return Ok(None),
        }
    }
    Ok(Some(places))
}

/// What sprites find in a new sheet by one way.
#[derive(Drop)]
pub struct Found<A: Allocator> {
    /// The numbered sprites in the order in which they ask.
    pub order: Vec<(usize, Size), A>,
    /// A place or none for each sprite, in the order of the sprites.
    pub places: Vec<Option<Rectangle>, A>,
}

/// What each sprite finds in a new sheet in this way.
pub fn try_way<A: Allocator + Copy>(
    alloc: A,
    sprites: &[Size],
    sheet: Size,
    spacing: Spacing,
    way: Way,
) -> Result<Found<A>, SheetError>
    requires positive { IsPositive (sides_of sheet) }
    requires good { ArePackable spacing sprites.now }
    ensures places { IfOk result (λ found.
        ArePlaces (sides_of sheet) spacing sprites.now found.places.items) }
    ensures found { IfOk result (λ found.
        AreFoundBy (sides_of sheet) spacing sprites.now way found.order.items found.places.items) }
    ensures unless { IsOkUnless result Memory }
{
    let order = greatest_first(alloc, sprites, way.key)?;
    let places = find_places(alloc, sprites, &order, sheet, spacing, way.choice)?;
    Ok(Found { order, places })
}
