//! Sheets as callers see them.
ghost use Rattle.std.specs.List.{AllZip};
ghost use Rattle.std.specs.Prelude.{◌≡◌, ◌<◌, ◌≤◌, ◌⊎◌, false, length, map, take, All, IfErr, IfNone, IfOk, IfSome, IsOkUnless};
ghost use Rattle.std.specs.Prelude.{IsSome, OnOk, Some};
ghost use Rattle.guillotiere.specs.Boxes.{AreDisjoint, IsWithin, box_sides};
ghost use Rattle.guillotiere.specs.Pixels.{box_of, sides_of};
ghost use Rattle.atlas_sheet.specs.declared.error.SheetError.TheVariants.{Memory};
ghost use Rattle.atlas_sheet.specs.declared.ways.TheConstants.{WAYS};
ghost use Rattle.atlas_sheet.specs.Allowances.{IsAllowed, IsGreatest};
ghost use Rattle.atlas_sheet.specs.Fillings.{FindsFewer, IsBestFound, IsNoBetter, ways_tried};
ghost use Rattle.atlas_sheet.specs.Lying.{IsArranged, IsShown, HoldsAll, areas_of};
ghost use Rattle.atlas_sheet.specs.Packings.{IsFirstFound, IsNoLarger, IsSmaller, IsToldLast, NoneIsFound};
ghost use Rattle.atlas_sheet.specs.Settings.{CanPack, IsSheetFault, spacing_of};
ghost use Rattle.atlas_sheet.specs.Sheets.{used_area};
ghost use Rattle.atlas_sheet.specs.Turnings.{AreLaid, InEach, InFirst, InOne};

use crate::allowed::check_allowed;
use crate::arrangement::Arrangement;
use crate::climbing::improve;
use crate::error::SheetError;
use crate::filling::{check, fill_by, used_area};
use crate::options::SheetOptions;
use crate::packing::packed;
use crate::placed::{Placed, placed_all, whole};
use crate::random::Random;
use crate::search::greatest_sheet;
use crate::turnings::{Turning, laid};
use crate::ways::{WAYS, ways_tried};
use guillotiere::Size;
use std::alloc::{Allocator, Global};

/// A sheet that takes all sprites.
#[derive(Drop)]
pub struct Sheet<A: Allocator = Global> {
    /// The size of the sheet, in pixels.
    pub size: Size,
    /// A place for each sprite, in the order of the sprites.
    pub places: Vec<Placed, A>,
    /// How many pixels these places have together.
    pub used_area: u128,
    /// The numbers of the sprites, counted from 0, in the order in which they asked for places.
    pub order: Vec<usize, A>,
}

/// A filled sheet.
#[derive(Drop)]
pub struct Filled<A: Allocator = Global> {
    /// The size of the sheet, in pixels.
    pub size: Size,
    /// A place or none for each sprite, in the order of the sprites.
    pub places: Vec<Option<Placed>, A>,
    /// How many pixels these places have together.
    pub used_area: u128,
    /// The numbers of the sprites, counted from 0, in the order in which they asked for places.
    pub order: Vec<usize, A>,
}

// Whether the options and all sprites are good.
pub fn check_all(sprites: &[Size], options: &SheetOptions) -> Result<(), SheetError>
    ensures good { OnOk result (CanPack options.now sprites.now) }
    ensures fault { IfErr result (λ e. IsSheetFault options.now sprites.now e) }
{
    check_allowed(options.allowed)?;
    if !options.alignment.is_positive() {
        return Err(SheetError::EmptyAlignment);
    }
    check(sprites, options.spacing())
}

// The numbers of numbered sprites.
pub fn numbers_of<A: Allocator>(
    alloc: A,
    order: &[(usize, Size)],
) -> Result<Vec<usize, A>, SheetError>
    ensures numbers { IfOk result (λ numbers. numbers.items ≡ map (λ s. s.0) order.now) }
    ensures unless { IsOkUnless result Memory }
{
    let mut numbers = Vec::with_capacity(alloc, order.len())?;
    numbers.extend(order.iter().map(|sprite| sprite.0))?;
    Ok(numbers)
}

// An arrangement as a filled sheet.
pub fn filled_of<A: Allocator + Copy>(
    alloc: A,
    sprites: &[Size],
    options: &SheetOptions,
    arrangement: &Arrangement<A>,
) -> Result<Filled<A>, SheetError>
    requires { IsArranged options.now sprites.now arrangement.now }
    ensures size { IfOk result (λ filled. filled.size ≡ arrangement.now.size) }
    ensures shown { IfOk result (λ filled. IsShown (sides_of filled.size) (spacing_of options.now) options.now.turn
        sprites.now filled.order.items filled.places.items) }
    ensures areas { IfOk result (λ filled. areas_of filled.places.items ≡ arrangement.now.places.items) }
    ensures order { IfOk result (λ filled. filled.order.items ≡ map (λ s. s.0) arrangement.now.order.items) }
    ensures area { IfOk result (λ filled. filled.used_area ≡ used_area (areas_of filled.places.items)) }
    ensures unless { IsOkUnless result Memory }
{
    let used = used_area(&arrangement.places);
    let order = numbers_of(alloc, &arrangement.order)?;
    let places = placed_all(alloc, sprites, options, arrangement)?;
    Ok(Filled {
        size: arrangement.size,
        places,
        used_area: used,
        order,
    })
}

// What the best of the first ways finds for the sprites as they are laid.
fn filled_so<A: Allocator + Copy>(
    alloc: A,
    sprites: &[Size],
    options: &SheetOptions,
    size: Size,
    how: Turning,
) -> Result<Arrangement<A>, SheetError>
    requires good { CanPack options.now sprites.now }
    requires greatest { IsGreatest options.now.allowed (sides_of size) }
    ensures arranged { IfOk result (IsArranged options.now sprites.now) }
    ensures size { IfOk result (λ a. a.size ≡ size) }
    ensures laid { IfOk result (λ a. AreLaid options.now how sprites.now a.lying.items) }
    ensures found { IfOk result (λ a. IsBestFound
        (take (ways_tried (length sprites.now)) WAYS) (sides_of size) (spacing_of options.now) a.lying.items
        (map (λ s. s.0) a.order.items) a.places.items) }
    ensures unless { IsOkUnless result Memory }
{
    let lying = laid(alloc, sprites, options, how)?;
    let ways = ways_tried(sprites.len());
    let filling = fill_by(alloc, &lying, size, options.spacing(), &WAYS[..ways])?;
    Ok(Arrangement {
        size,
        choice: filling.way.choice,
        lying,
        order: filling.found.order,
        places: filling.found.places,
    })
}

// The arrangement with more pixels of sprites; of two with as many the first.
fn fuller<A: Allocator>(one: Arrangement<A>, other: Arrangement<A>) -> Arrangement<A>
    ensures { ((result ≡ one) × (used_area other.places.items ≤ used_area one.places.items))
        ⊎ ((result ≡ other) × (used_area one.places.items < used_area other.places.items)) }
{
    if used_area(&one.places) < used_area(&other.places) {
        other
    } else {
        one
    }
}

// What the best of the first ways finds, however the sprites are laid.
fn first_filled<A: Allocator + Copy>(
    alloc: A,
    sprites: &[Size],
    options: &SheetOptions,
) -> Result<Arrangement<A>, SheetError>
    requires { CanPack options.now sprites.now }
    ensures arranged { IfOk result (IsArranged options.now sprites.now) }
    ensures size { IfOk result (λ a. IsGreatest options.now.allowed (sides_of a.size)) }
    ensures best { IfOk result (λ a. InEach options.now sprites.now (λ lying. All
        (IsNoBetter (sides_of a.size) (spacing_of options.now) lying (used_area a.places.items))
        (take (ways_tried (length sprites.now)) WAYS))) }
    ensures found { IfOk result (λ a. InFirst options.now sprites.now
        (λ lying. IsBestFound (take (ways_tried (length sprites.now)) WAYS) (sides_of a.size) (spacing_of options.now)
        lying (map (λ s. s.0) a.order.items) a.places.items)
        (λ lying. All (FindsFewer (sides_of a.size) (spacing_of options.now) lying (used_area a.places.items))
        (take (ways_tried (length sprites.now)) WAYS))) }
    ensures unless { IsOkUnless result Memory }
{
    let size = greatest_sheet(options.allowed);
    let given = filled_so(alloc, sprites, options, size, Turning::AsGiven)?;
    if !options.turn {
        return Ok(given);
    }
    let wide = filled_so(alloc, sprites, options, size, Turning::Wide)?;
    let high = filled_so(alloc, sprites, options, size, Turning::High)?;
    Ok(fuller(given, fuller(wide, high)))
}

// What the first ways find, and no fewer pixels by changes of the order.
pub fn best_filled<A: Allocator + Copy>(
    alloc: A,
    sprites: &[Size],
    options: &SheetOptions,
) -> Result<Arrangement<A>, SheetError>
    requires { CanPack options.now sprites.now }
    ensures arranged { IfOk result (IsArranged options.now sprites.now) }
    ensures size { IfOk result (λ a. IsGreatest options.now.allowed (sides_of a.size)) }
    ensures best { IfOk result (λ a. InEach options.now sprites.now (λ lying. All
        (IsNoBetter (sides_of a.size) (spacing_of options.now) lying (used_area a.places.items))
        (take (ways_tried (length sprites.now)) WAYS))) }
    ensures plain { options.now.effort ≡ 0 → IfOk result (λ a. InFirst options.now sprites.now
        (λ lying. IsBestFound (take (ways_tried (length sprites.now)) WAYS) (sides_of a.size) (spacing_of options.now)
        lying (map (λ s. s.0) a.order.items) a.places.items)
        (λ lying. All (FindsFewer (sides_of a.size) (spacing_of options.now) lying (used_area a.places.items))
        (take (ways_tried (length sprites.now)) WAYS))) }
    ensures unless { IsOkUnless result Memory }
{
    let first = first_filled(alloc, sprites, options)?;
    if options.effort == 0 {
        return Ok(first);
    }
    let mut tries = options.effort;
    let mut random = Random::new(options.seed);
    let best = improve(alloc, options, &mut random, &mut tries, first)?;
    Ok(best)
}

/// Places sprites in the greatest sheet that is allowed. The places have no fewer pixels than those that any of the
/// first `ways_tried` of `WAYS` finds; without effort they are those of the best of these ways, of equal ones the last.
/// Where sprites may be turned, this holds with each `Turning`, and of equal ones the first is taken. With effort the order
/// is changed so many times, and a change stays if it leaves no more pixels of sprites without a place. A sprite that found
/// no room has no place.
///
/// `EmptySheet` if the least allowed side is below 1, else `EmptyRange` if the greatest is less than the least, else
/// `EmptyAlignment` if a side of the alignment is below 1; else `EmptySprite` and `GreatSprite` name the first sprite that
/// can't be placed in any sheet; `Memory` if memory is refused.
pub fn fill<A: Allocator + Copy>(
    alloc: A,
    sprites: &[Size],
    options: &SheetOptions,
) -> Result<Filled<A>, SheetError>
    ensures size { IfOk result (λ filled. IsGreatest options.now.allowed (sides_of filled.size)) }
    ensures shown { IfOk result (λ filled. IsShown (sides_of filled.size) (spacing_of options.now) options.now.turn
        sprites.now filled.order.items filled.places.items) }
    ensures area { IfOk result (λ filled. filled.used_area ≡ used_area (areas_of filled.places.items)) }
    ensures best { IfOk result (λ filled. InEach options.now sprites.now (λ lying. All
        (IsNoBetter (sides_of filled.size) (spacing_of options.now) lying filled.used_area)
        (take (ways_tried (length sprites.now)) WAYS))) }
    ensures plain { options.now.effort ≡ 0 → IfOk result (λ filled. InOne options.now sprites.now (λ lying. IsBestFound
        (take (ways_tried (length sprites.now)) WAYS) (sides_of filled.size) (spacing_of options.now) lying
        filled.order.items (areas_of filled.places.items))) }
    ensures earliest { options.now.effort ≡ 0 → IfOk result (λ filled. InFirst options.now sprites.now
        (λ lying. IsBestFound (take (ways_tried (length sprites.now)) WAYS) (sides_of filled.size)
        (spacing_of options.now) lying filled.order.items (areas_of filled.places.items))
        (λ lying. All (FindsFewer (sides_of filled.size) (spacing_of options.now) lying filled.used_area)
        (take (ways_tried (length sprites.now)) WAYS))) }
    ensures fault { IfErr result (λ e. IsSheetFault options.now sprites.now e) }
{
    check_all(sprites, options)?;
    let best = best_filled(alloc, sprites, options)?;
    let filled = filled_of(alloc, sprites, options, &best)?;
    Ok(filled)
}

// A filled sheet in which each sprite has a place.
fn sheet_of<A: Allocator + Copy>(alloc: A, filled: Filled<A>) -> Result<Sheet<A>, SheetError>
    requires { All IsSome filled.places.items }
    ensures size { IfOk result (λ sheet. sheet.size ≡ filled.size) }
    ensures places { IfOk result (λ sheet. map Some sheet.places.items ≡ filled.places.items) }
    ensures area { IfOk result (λ sheet. sheet.used_area ≡ filled.used_area) }
    ensures order { IfOk result (λ sheet. sheet.order.items ≡ filled.order.items) }
    ensures unless { IsOkUnless result Memory }
{
    Ok(Sheet {
        size: filled.size,
        places: whole(alloc, &filled.places)?,
        used_area: filled.used_area,
        order: filled.order,
    })
}

/// Places all sprites in a sheet that is as small as the search finds. Without effort the first of `WAYS` that packs them
/// into it is taken, and none does into the allowed sheet that is a pixel lower (among powers of two: into any with fewer
/// pixels, nor into one with as many that is nearer to a square, or that is this one turned and wider than high). Where
/// sprites may be turned, this is the smallest of the sheets that are found so with each `Turning`, of equal ones the
/// first. With effort so many more orders are tried, each a small change of the one before, on a sheet that is one step
/// smaller than the best; the sheet is never larger than without effort. None only where no way, and no order that was
/// tried, packs all sprites into the greatest sheet that is allowed.
///
/// `EmptySheet` if the least allowed side is below 1, else `EmptyRange` if the greatest is less than the least, else
/// `EmptyAlignment` if a side of the alignment is below 1; else `EmptySprite` and `GreatSprite` name the first sprite that
/// can't be placed in any sheet; `Memory` if memory is refused.
pub fn pack<A: Allocator + Copy>(
    alloc: A,
    sprites: &[Size],
    options: &SheetOptions,
) -> Result<Option<Sheet<A>>, SheetError>
    ensures allowed { IfOk result (λ found. IfSome found (λ sheet.
        IsAllowed options.now.allowed (sides_of sheet.size))) }
    ensures shown { IfOk result (λ found. IfSome found (λ sheet. IsShown (sides_of sheet.size)
        (spacing_of options.now) options.now.turn sprites.now sheet.order.items (map Some sheet.places.items))) }
    ensures inside { IfOk result (λ found. IfSome found (λ sheet.
        All (λ placed. IsWithin (sides_of sheet.size) (box_of placed.area)) sheet.places.items)) }
    ensures apart { IfOk result (λ found. IfSome found (λ sheet.
        AreDisjoint (map (λ placed. box_of placed.area) sheet.places.items))) }
    ensures upright { options.now.turn ≡ false → IfOk result (λ found. IfSome found (λ sheet.
        AllZip (λ sprite placed. box_sides (box_of placed.area) ≡ sides_of sprite) sprites.now sheet.places.items)) }
    ensures area { IfOk result (λ found. IfSome found (λ sheet.
        sheet.used_area ≡ used_area (areas_of (map Some sheet.places.items)))) }
    ensures first { options.now.effort ≡ 0 → IfOk result (λ found. IfSome found (λ sheet.
        InOne options.now sprites.now (λ lying. IsFirstFound WAYS options.now.allowed (spacing_of options.now) lying
        (sides_of sheet.size) sheet.order.items (areas_of (map Some sheet.places.items))))) }
    ensures earliest { options.now.effort ≡ 0 → IfOk result (λ found. IfSome found (λ sheet.
        InFirst options.now sprites.now
        (λ lying. IsFirstFound WAYS options.now.allowed (spacing_of options.now) lying (sides_of sheet.size)
        sheet.order.items (areas_of (map Some sheet.places.items)))
        (λ lying. IsSmaller WAYS options.now.allowed (spacing_of options.now) lying (sides_of sheet.size)))) }
    ensures larger { IfOk result (λ found. IfSome found (λ sheet. InEach options.now sprites.now (λ lying.
        IsNoLarger WAYS options.now.allowed (spacing_of options.now) lying (sides_of sheet.size)))) }
    ensures none { IfOk result (λ found. IfNone found (InEach options.now sprites.now (λ lying.
        NoneIsFound WAYS options.now.allowed (spacing_of options.now) lying))) }
    ensures fault { IfErr result (λ e. IsSheetFault options.now sprites.now e) }
{
    pack_telling(alloc, sprites, options, |_| {})
}

/// `pack`, and calls `told` with the size of each sheet that takes all sprites as soon as it is found: first that which
/// is found without changes of the order, then smaller and smaller ones. The last is the size of the sheet.
pub fn pack_telling<A: Allocator + Copy, F: FnMut(Size)>(
    alloc: A,
    sprites: &[Size],
    options: &SheetOptions,
    told: F,
) -> Result<Option<Sheet<A>>, SheetError>
    requires { F.IsAlwaysCallable told }
    ensures allowed { IfOk result (λ found. IfSome found (λ sheet.
        IsAllowed options.now.allowed (sides_of sheet.size))) }
    ensures shown { IfOk result (λ found. IfSome found (λ sheet. IsShown (sides_of sheet.size)
        (spacing_of options.now) options.now.turn sprites.now sheet.order.items (map Some sheet.places.items))) }
    ensures inside { IfOk result (λ found. IfSome found (λ sheet.
        All (λ placed. IsWithin (sides_of sheet.size) (box_of placed.area)) sheet.places.items)) }
    ensures apart { IfOk result (λ found. IfSome found (λ sheet.
        AreDisjoint (map (λ placed. box_of placed.area) sheet.places.items))) }
    ensures upright { options.now.turn ≡ false → IfOk result (λ found. IfSome found (λ sheet.
        AllZip (λ sprite placed. box_sides (box_of placed.area) ≡ sides_of sprite) sprites.now sheet.places.items)) }
    ensures area { IfOk result (λ found. IfSome found (λ sheet.
        sheet.used_area ≡ used_area (areas_of (map Some sheet.places.items)))) }
    ensures first { options.now.effort ≡ 0 → IfOk result (λ found. IfSome found (λ sheet.
        InOne options.now sprites.now (λ lying. IsFirstFound WAYS options.now.allowed (spacing_of options.now) lying
        (sides_of sheet.size) sheet.order.items (areas_of (map Some sheet.places.items))))) }
    ensures earliest { options.now.effort ≡ 0 → IfOk result (λ found. IfSome found (λ sheet.
        InFirst options.now sprites.now
        (λ lying. IsFirstFound WAYS options.now.allowed (spacing_of options.now) lying (sides_of sheet.size)
        sheet.order.items (areas_of (map Some sheet.places.items)))
        (λ lying. IsSmaller WAYS options.now.allowed (spacing_of options.now) lying (sides_of sheet.size)))) }
    ensures larger { IfOk result (λ found. IfSome found (λ sheet. InEach options.now sprites.now (λ lying.
        IsNoLarger WAYS options.now.allowed (spacing_of options.now) lying (sides_of sheet.size)))) }
    ensures none { IfOk result (λ found. IfNone found (InEach options.now sprites.now (λ lying.
        NoneIsFound WAYS options.now.allowed (spacing_of options.now) lying))) }
    ensures told { IfOk result (λ found. IfSome found (λ sheet. IsToldLast
        (λ p size q. F.step p size tt q) (HoldsAll options.now sprites.now) told sheet.size)) }
    ensures fault { IfErr result (λ e. IsSheetFault options.now sprites.now e) }
{
    check_all(sprites, options)?;
    let found = packed(alloc, sprites, options, told)?;
    let Some(best) = found else {
        return Ok(None);
    };
    let filled = filled_of(alloc, sprites, options, &best)?;
    let sheet = sheet_of(alloc, filled)?;
    Ok(Some(sheet))
}
