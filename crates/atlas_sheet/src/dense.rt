//! Sheets that are packed with no guillotine cuts.
ghost use Rattle.std.specs.List.{AllZip, sum_by};
ghost use Rattle.std.specs.Prelude.{◌≡◌, ◌<◌, ◌↔◌, false, length, map, min, All, IfErr, IfNone, IfOk, IfSome, IsOkUnless, IsSome};
ghost use Rattle.std.specs.Prelude.{IsTrue, MatchOption, Some};
ghost use Rattle.guillotiere.specs.Boxes.{AreDisjoint, IsPositive, IsWithin, box_sides};
ghost use Rattle.guillotiere.specs.Pixels.{box_of, natural, sides_of};
ghost use Rattle.atlas_sheet.specs.declared.error.SheetError.TheVariants.{Memory};
ghost use Rattle.atlas_sheet.specs.Allowances.{HasNoSmaller, IsAllowed, IsGreatest, IsNextSmaller, IsRow, IsUsable, pixels};
ghost use Rattle.atlas_sheet.specs.Dense.{AreAllPlaced, ArePaddedApart, FindAllTopmost, IsByHeight, IsLeastDense};
ghost use Rattle.atlas_sheet.specs.Dense.{IsNoLargerThanWays, IsPackedOrDense, IsSmallerThanWays, IsUpright, IsWholeSheet, LeavesDense};
ghost use Rattle.atlas_sheet.specs.Dense.{NoWayFinds, NoneIsDense, empty_grid, height_rank};
ghost use Rattle.atlas_sheet.specs.Lying.{areas_of, placed_area};
ghost use Rattle.atlas_sheet.specs.Orders.{IsOrder};
ghost use Rattle.atlas_sheet.specs.Settings.{CanPack, IsSheetFault, spacing_of};
ghost use Rattle.atlas_sheet.specs.Sheets.{ArePackable, used_area, with_places};

use crate::allowed::Allowed;
use crate::cells::topmost_places;
use crate::error::SheetError;
use crate::filling::used_area;
use crate::options::SheetOptions;
use crate::orders::numbered;
use crate::placed::{Placed, whole};
use crate::search::{greatest_sheet, smaller_sheet};
use crate::sheets::{Sheet, check_all, numbers_of, pack};
use guillotiere::{Rectangle, Size};
use std::alloc::Allocator;
use std::cmp::Reverse;

// What a sprite counts: its height, and among those as high its width.
fn height_rank(sprite: Size) -> u64
    ensures { result ≡ height_rank sprite }
{
    sprite.height.max(0) as u64 * 4294967296 + sprite.width.max(0) as u64
}

// The sprites with their numbers: the highest come first, and of those as high the widest.
fn by_height<A: Allocator + Copy>(
    alloc: A,
    sprites: &[Size],
) -> Result<Vec<(usize, Size), A>, SheetError>
    ensures by { IfOk result (λ order. IsByHeight sprites.now order.items) }
    ensures unless { IsOkUnless result Memory }
{
    let mut order = numbered(alloc, sprites)?;
    order.sort_by_key(|sprite| Reverse(height_rank(sprite.1)))?;
    Ok(order)
}

// Where a sprite lies, if it has a place.
fn area_of(placed: Option<Placed>) -> Option<Rectangle>
    ensures { result ≡ placed_area placed }
{
    let Some(placed) = placed else {
        return None;
    };
    Some(placed.area)
}

// Where sprites lie.
fn areas<A: Allocator + Copy>(
    alloc: A,
    placed: &[Option<Placed>],
) -> Result<Vec<Option<Rectangle>, A>, SheetError>
    ensures areas { IfOk result (λ areas. areas.items ≡ areas_of placed.now) }
    ensures unless { IsOkUnless result Memory }
{
    let mut areas = Vec::new(alloc);
    for place in placed {
        areas.push(area_of(*place))?;
    }
    Ok(areas)
}

/// How many pixels a sheet has.
pub fn pixels_of(size: Size) -> u64
    ensures { result ≡ pixels (sides_of size) }
{
    size.width.max(0) as u64 * size.height.max(0) as u64
}

/// How many pixels the sprites have together, but at most 2^64 - 1.
pub fn sprite_pixels(sprites: &[Size]) -> u64
    ensures { result ≡ min (sum_by (λ s. pixels (sides_of s)) sprites.now) 18446744073709551615 }
{
    let mut area: u64 = 0;
    for sprite in sprites {
        area = area.saturating_add(pixels_of(*sprite));
    }
    area
}

// A sheet on which each sprite has one of these places.
fn sheet_of<A: Allocator + Copy>(
    alloc: A,
    sprites: &[Size],
    options: &SheetOptions,
    order: &[(usize, Size)],
    size: Size,
    placed: &[Option<Placed>],
) -> Result<Sheet<A>, SheetError>
    requires whole { All IsSome placed.now }
    requires allowed { IsAllowed options.now.allowed (sides_of size) }
    requires each { AreAllPlaced options.now (sides_of size) sprites.now placed.now }
    requires apart { ArePaddedApart (spacing_of options.now) placed.now }
    requires upright { All IsUpright placed.now }
    requires by { IsByHeight sprites.now order.now }
    requires found { FindAllTopmost (spacing_of options.now)
        (empty_grid (spacing_of options.now) (sides_of size)) (with_places (areas_of placed.now) order.now) }
    requires smaller { IsSmallerThanWays options.now sprites.now (sides_of size) }
    ensures whole { IfOk result (IsWholeSheet options.now sprites.now) }
    ensures size { IfOk result (λ sheet. sheet.size ≡ size) }
    ensures unless { IsOkUnless result Memory }
{
    let areas = areas(alloc, placed)?;
    let places = whole(alloc, placed)?;
    let order = numbers_of(alloc, order)?;
    let used_area = used_area(&areas);
    Ok(Sheet {
        size,
        places,
        used_area,
        order,
    })
}

// All sprites in a grid of cells in a sheet of this size, if they find room.
fn dense_at<A: Allocator + Copy>(
    alloc: A,
    sprites: &[Size],
    options: &SheetOptions,
    order: &[(usize, Size)],
    size: Size,
) -> Result<Option<Sheet<A>>, SheetError>
    requires positive { IsPositive (sides_of size) }
    requires good { ArePackable (spacing_of options.now) sprites.now }
    requires by { IsByHeight sprites.now order.now }
    requires allowed { IsAllowed options.now.allowed (sides_of size) }
    requires smaller { IsSmallerThanWays options.now sprites.now (sides_of size) }
    ensures whole { IfOk result (λ found. IfSome found (IsWholeSheet options.now sprites.now)) }
    ensures size { IfOk result (λ found. IfSome found (λ sheet. sheet.size ≡ size)) }
    ensures left { IfOk result (λ found. IfNone found (LeavesDense options.now sprites.now (sides_of size))) }
    ensures unless { IsOkUnless result Memory }
{
    match topmost_places(alloc, sprites, options, order, size)? {
        None => Ok(None),
        Some(placed) => {
            let sheet = sheet_of(alloc, sprites, options, order, size, &placed)?;
            Ok(Some(sheet))
        }
    }
}

// Whether a sheet has fewer pixels than the best one, if there is one.
fn is_smaller<A: Allocator>(size: Size, best: &Option<Sheet<A>>) -> bool
    ensures { IsTrue result ↔ IfSome best.now (λ sheet. pixels (sides_of size) < pixels (sides_of sheet.size)) }
{
    match best {
        None => true,
        Some(sheet) => pixels_of(size) < pixels_of(sheet.size),
    }
}

// A sheet of this size whose sprites lie in a grid of cells, if it is smaller than the best one and takes all sprites.
fn denser_at<A: Allocator + Copy>(
    alloc: A,
    sprites: &[Size],
    options: &SheetOptions,
    order: &[(usize, Size)],
    size: Size,
    best: &Option<Sheet<A>>,
) -> Result<Option<Sheet<A>>, SheetError>
    requires positive { IsPositive (sides_of size) }
    requires good { ArePackable (spacing_of options.now) sprites.now }
    requires by { IsByHeight sprites.now order.now }
    requires allowed { IsAllowed options.now.allowed (sides_of size) }
    requires best { IfSome best.now (IsWholeSheet options.now sprites.now) }
    requires none { IfNone best.now (NoWayFinds options.now sprites.now) }
    ensures whole { IfOk result (λ found. IfSome found (IsWholeSheet options.now sprites.now)) }
    ensures size { IfOk result (λ found. IfSome found (λ sheet. sheet.size ≡ size)) }
    ensures left { IfOk result (λ found. IfNone found (
        IfSome best.now (λ sheet. pixels (sides_of size) < pixels (sides_of sheet.size))
        → LeavesDense options.now sprites.now (sides_of size))) }
    ensures unless { IsOkUnless result Memory }
{
    if pixels_of(size) < sprite_pixels(sprites) {
        return Ok(None);
    }
    if is_smaller(size, best) {
        dense_at(alloc, sprites, options, order, size)
    } else {
        Ok(None)
    }
}

// What was found, or else the best one.
fn newer<A: Allocator>(found: Option<Sheet<A>>, best: Option<Sheet<A>>) -> Option<Sheet<A>>
    ensures { MatchOption found (result ≡ best) (λ sheet. result ≡ Some sheet) }
{
    match found {
        Some(sheet) => Some(sheet),
        None => best,
    }
}

// The smallest sheet of a row that is found by bisection, or the first.
fn denser_in_row<A: Allocator + Copy>(
    alloc: A,
    sprites: &[Size],
    options: &SheetOptions,
    order: &[(usize, Size)],
    first: Option<Sheet<A>>,
) -> Result<Option<Sheet<A>>, SheetError>
    requires good { CanPack options.now sprites.now }
    requires row { IsRow options.now.allowed }
    requires by { IsByHeight sprites.now order.now }
    requires whole { IfSome first (IsWholeSheet options.now sprites.now) }
    requires none { IfNone first (NoWayFinds options.now sprites.now) }
    ensures whole { IfOk result (λ found. IfSome found (IsWholeSheet options.now sprites.now)) }
    ensures none { IfOk result (λ found. IfNone found
        (NoWayFinds options.now sprites.now)) }
    ensures least { IfOk result (λ found. IfSome found (λ sheet.
        IsLeastDense options.now sprites.now (sides_of sheet.size))) }
    ensures full { IfOk result (λ found. IfNone found (NoneIsDense options.now sprites.now)) }
    ensures unless { IsOkUnless result Memory }
{
    let mut low = 0;
    let mut high = options.allowed.count();
    let mut best = first;
    while low < high {
        let middle = low + (high - low) / 2;
        let size = options.allowed.nth(middle);
        let found = denser_at(alloc, sprites, options, order, size, &best)?;
        best = newer(found, best);
        if is_smaller(size, &best) {
            low = middle + 1;
        } else {
            high = middle;
        }
    }
    Ok(best)
}

// The sheet after the best one: the greatest, if there is none.
fn next_size<A: Allocator>(
    options: &SheetOptions,
    sprites: &[Size],
    best: &Option<Sheet<A>>,
) -> Option<Size>
    requires usable { IsUsable options.now.allowed }
    requires best { IfSome best.now (IsWholeSheet options.now sprites.now) }
    ensures allowed { IfSome result (λ size. IsAllowed options.now.allowed (sides_of size)) }
    ensures positive { IfSome result (λ size. IsPositive (sides_of size)) }
    ensures first { IfNone best.now (IfSome result (λ size. IsGreatest options.now.allowed (sides_of size))) }
    ensures some { IfNone best.now (IsSome result) }
    ensures next { IfSome best.now (λ sheet. MatchOption result
        (HasNoSmaller options.now.allowed (sides_of sheet.size))
        (λ size. IsNextSmaller options.now.allowed (sides_of sheet.size) (sides_of size)
        × (pixels (sides_of size) < pixels (sides_of sheet.size)))) }
{
    match best {
        None => Some(greatest_sheet(options.allowed)),
        Some(sheet) => smaller_sheet(options.allowed, sheet.size),
    }
}

// Smaller and smaller powers of two, from the first on.
fn denser_powers<A: Allocator + Copy>(
    alloc: A,
    sprites: &[Size],
    options: &SheetOptions,
    order: &[(usize, Size)],
    first: Option<Sheet<A>>,
) -> Result<Option<Sheet<A>>, SheetError>
    requires good { CanPack options.now sprites.now }
    requires by { IsByHeight sprites.now order.now }
    requires whole { IfSome first (IsWholeSheet options.now sprites.now) }
    requires none { IfNone first (NoWayFinds options.now sprites.now) }
    ensures whole { IfOk result (λ found. IfSome found (IsWholeSheet options.now sprites.now)) }
    ensures none { IfOk result (λ found. IfNone found
        (NoWayFinds options.now sprites.now)) }
    ensures least { IfOk result (λ found. IfSome found (λ sheet.
        IsLeastDense options.now sprites.now (sides_of sheet.size))) }
    ensures full { IfOk result (λ found. IfNone found (NoneIsDense options.now sprites.now)) }
    ensures unless { IsOkUnless result Memory }
{
    let mut best = first;
    let mut next = next_size(options, sprites, &best);
    while let Some(size) = next {
        let found = denser_at(alloc, sprites, options, order, size, &best)?;
        if found.is_none() {
            return Ok(best);
        }
        best = found;
        next = next_size(options, sprites, &best);
    }
    Ok(best)
}

// A sheet whose sprites lie in a grid of cells, if one is found that is smaller than the first.
fn denser<A: Allocator + Copy>(
    alloc: A,
    sprites: &[Size],
    options: &SheetOptions,
    first: Option<Sheet<A>>,
) -> Result<Option<Sheet<A>>, SheetError>
    requires good { CanPack options.now sprites.now }
    requires whole { IfSome first (IsWholeSheet options.now sprites.now) }
    requires none { IfNone first (NoWayFinds options.now sprites.now) }
    ensures whole { IfOk result (λ found. IfSome found (IsWholeSheet options.now sprites.now)) }
    ensures none { IfOk result (λ found. IfNone found
        (NoWayFinds options.now sprites.now)) }
    ensures least { IfOk result (λ found. IfSome found (λ sheet.
        IsLeastDense options.now sprites.now (sides_of sheet.size))) }
    ensures full { IfOk result (λ found. IfNone found (NoneIsDense options.now sprites.now)) }
    ensures unless { IsOkUnless result Memory }
{
    let order = by_height(alloc, sprites)?;
    match options.allowed {
        Allowed::Powers { .. } => denser_powers(alloc, sprites, options, &order, first),
        _ => denser_in_row(alloc, sprites, options, &order, first),
    }
}

/// The sheet of `pack`, or a smaller one laid out without guillotine cuts: the sprites come by height, the highest
/// first, and each is placed as high up as it can lie, and there as far left. That is tried in smaller sheets than that of
/// `pack`, by bisection, and among powers of two in one after another; where `pack` finds none, in the greatest too. The
/// sheet never has more pixels than that of `pack`. In a smaller one no sprite is turned.
///
/// The errors are those of `pack`.
pub fn pack_dense<A: Allocator + Copy>(
    alloc: A,
    sprites: &[Size],
    options: &SheetOptions,
) -> Result<Option<Sheet<A>>, SheetError>
    ensures allowed { IfOk result (λ found. IfSome found (λ sheet.
        IsAllowed options.now.allowed (sides_of sheet.size))) }
    ensures count { IfOk result (λ found. IfSome found (λ sheet. length sheet.places.items ≡ length sprites.now)) }
    ensures each { IfOk result (λ found. IfSome found (λ sheet.
        AreAllPlaced options.now (sides_of sheet.size) sprites.now (map Some sheet.places.items))) }
    ensures padded { IfOk result (λ found. IfSome found (λ sheet.
        ArePaddedApart (spacing_of options.now) (map Some sheet.places.items))) }
    ensures inside { IfOk result (λ found. IfSome found (λ sheet.
        All (λ placed. IsWithin (sides_of sheet.size) (box_of placed.area)) sheet.places.items)) }
    ensures apart { IfOk result (λ found. IfSome found (λ sheet.
        AreDisjoint (map (λ placed. box_of placed.area) sheet.places.items))) }
    ensures upright { options.now.turn ≡ false → IfOk result (λ found. IfSome found (λ sheet.
        AllZip (λ sprite placed. box_sides (box_of placed.area) ≡ sides_of sprite) sprites.now sheet.places.items)) }
    ensures area { IfOk result (λ found. IfSome found (λ sheet.
        sheet.used_area ≡ used_area (areas_of (map Some sheet.places.items)))) }
    ensures order { IfOk result (λ found. IfSome found (λ sheet. IsOrder (length sprites.now) sheet.order.items)) }
    ensures larger { IfOk result (λ found. IfSome found (λ sheet.
        IsNoLargerThanWays options.now sprites.now (sides_of sheet.size))) }
    ensures way { IfOk result (λ found. IfSome found (λ sheet. IsPackedOrDense options.now sprites.now
        (sides_of sheet.size) sheet.order.items sheet.places.items)) }
    ensures least { IfOk result (λ found. IfSome found (λ sheet.
        IsLeastDense options.now sprites.now (sides_of sheet.size))) }
    ensures none { IfOk result (λ found. IfNone found
        (NoWayFinds options.now sprites.now)) }
    ensures full { IfOk result (λ found. IfNone found (NoneIsDense options.now sprites.now)) }
    ensures fault { IfErr result (λ e. IsSheetFault options.now sprites.now e) }
{
    check_all(sprites, options)?;
    let first = pack(alloc, sprites, options)?;
    let found = denser(alloc, sprites, options, first)?;
    Ok(found)
}
