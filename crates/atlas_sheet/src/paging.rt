//! All sprites on several sheets.
ghost use Rattle.std.specs.Prelude.{◌≡◌, ◌<◌, ◌↔◌, ◌⊎◌, length, map, take, All, IfErr, IfNone, IfOk, IfSome, IsNone};
ghost use Rattle.std.specs.Prelude.{IsOkUnless, IsSome, IsTrue, Some};
ghost use Rattle.std.specs.List.{AllZip};
ghost use Rattle.guillotiere.specs.Pixels.{sides_of};
ghost use Rattle.atlas_sheet.specs.declared.error.SheetError.TheVariants.{Memory};
ghost use Rattle.atlas_sheet.specs.declared.ways.TheConstants.{WAYS};
ghost use Rattle.atlas_sheet.specs.Allowances.{IsAllowed, IsGreatest};
ghost use Rattle.atlas_sheet.specs.Dense.{IsNoLargerThanWays};
ghost use Rattle.atlas_sheet.specs.Fillings.{IsNoBetter, ways_tried};
ghost use Rattle.atlas_sheet.specs.Lying.{IsArranged};
ghost use Rattle.atlas_sheet.specs.Paging.{AreGreatest, ArePages, AreUsed, IsOnPage, NoPlacesOverlap, OneIsTooLarge};
ghost use Rattle.atlas_sheet.specs.Paging.{found_on, holes, put_on, sprites_left};
ghost use Rattle.atlas_sheet.specs.Settings.{CanPack, IsSheetFault, spacing_of};
ghost use Rattle.atlas_sheet.specs.Sheets.{used_area};
ghost use Rattle.atlas_sheet.specs.Turnings.{InEach};

use crate::arrangement::Arrangement;
use crate::climbing::is_whole;
use crate::error::SheetError;
use crate::options::SheetOptions;
use crate::packing::packed;
use crate::placed::Placed;
use crate::sheets::{best_filled, check_all, filled_of};
use guillotiere::Size;
use std::alloc::{Allocator, Global};

/// A place on one of several sheets.
#[derive(Clone, Copy, Debug, PartialEq, Eq)]
pub struct OnPage {
    /// The number of the sheet, counted from 0.
    pub page: usize,
    /// The place on this sheet.
    pub placed: Placed,
}

/// Sheets that take all sprites together.
#[derive(Drop)]
pub struct Pages<A: Allocator = Global> {
    /// The size of each sheet, in pixels.
    pub sizes: Vec<Size, A>,
    /// A place for each sprite, in the order of the sprites.
    pub places: Vec<OnPage, A>,
}

/// Whether no sprite has a place.
pub fn is_bare(places: &[Option<Placed>]) -> bool
    ensures { IsTrue result ↔ All IsNone places.now }
{
    places.iter().all(|place| place.is_none())
}

/// Where the sprites without a place lie next: in the smallest sheet that takes them all, or in a full one.
pub fn next_page<A: Allocator + Copy>(
    alloc: A,
    left: &[Size],
    options: &SheetOptions,
) -> Result<Arrangement<A>, SheetError>
    requires { CanPack options.now left.now }
    ensures arranged { IfOk result (IsArranged options.now left.now) }
    ensures allowed { IfOk result (λ a. IsAllowed options.now.allowed (sides_of a.size)) }
    ensures kind { IfOk result (λ a.
        (All IsSome a.places.items × IsNoLargerThanWays options.now left.now (sides_of a.size))
        ⊎ (IsGreatest options.now.allowed (sides_of a.size)
        × InEach options.now left.now (λ lying. All
        (IsNoBetter (sides_of a.size) (spacing_of options.now) lying (used_area a.places.items))
        (take (ways_tried (length left.now)) WAYS))
        × (All IsSome a.places.items → ⊥))) }
    ensures unless { IsOkUnless result Memory }
{
    let filled = best_filled(alloc, left, options)?;
    if !is_whole(&filled) {
        return Ok(filled);
    }
    let smallest = packed(alloc, left, options, |_| {})?;
    match smallest {
        Some(sheet) => Ok(sheet),
        None => Ok(filled),
    }
}

/// The sprites that have no place.
pub fn sprites_left<A: Allocator>(
    alloc: A,
    sprites: &[Size],
    places: &[Option<OnPage>],
) -> Result<Vec<Size, A>, SheetError>
    requires { length places.now ≡ length sprites.now }
    ensures left { IfOk result (λ left. left.items ≡ sprites_left sprites.now places.now) }
    ensures unless { IsOkUnless result Memory }
{
    let mut left = Vec::new(alloc);
    for (number, place) in places.iter().enumerate() {
        if place.is_none() {
            left.push(sprites[number])?;
        }
    }
    Ok(left)
}

// What was found on a sheet.
fn found_on(page: usize, place: Option<Placed>) -> Option<OnPage>
    ensures { result ≡ found_on page place }
{
    let Some(placed) = place else {
        return None;
    };
    Some(OnPage { page, placed })
}

/// The places, with those added that the sprites without one found on a sheet, in their order.
pub fn put_on<A: Allocator>(
    alloc: A,
    page: usize,
    places: &[Option<OnPage>],
    found: &[Option<Placed>],
) -> Result<Vec<Option<OnPage>, A>, SheetError>
    requires { length found.now ≡ holes places.now }
    ensures places { IfOk result (λ all. all.items ≡ put_on page places.now found.now) }
    ensures unless { IsOkUnless result Memory }
{
    let mut all = Vec::new(alloc);
    let mut next = 0;
    for place in places {
        match place {
            Some(before) => all.push(Some(*before))?,
            None => {
                all.push(found_on(page, found[next]))?;
                next += 1;
            }
        }
    }
    Ok(all)
}

/// The places, where each sprite has one.
pub fn all_on<A: Allocator>(
    alloc: A,
    places: &[Option<OnPage>],
) -> Result<Vec<OnPage, A>, SheetError>
    requires { All IsSome places.now }
    ensures all { IfOk result (λ all. map Some all.items ≡ places.now) }
    ensures unless { IsOkUnless result Memory }
{
    let mut all = Vec::new(alloc);
    for place in places {
        if let Some(placed) = place {
            all.push(*placed)?;
        }
    }
    Ok(all)
}

// One sheet after another, until each sprite has a place or one fits no empty sheet.
fn paged<A: Allocator + Copy>(
    alloc: A,
    sprites: &[Size],
    options: &SheetOptions,
) -> Result<Option<Pages<A>>, SheetError>
    requires { CanPack options.now sprites.now }
    ensures pages { IfOk result (λ found. IfSome found (λ p.
        ArePages WAYS options.now sprites.now p.sizes.items (map Some p.places.items))) }
    ensures none { IfOk result (λ found. IfNone found (OneIsTooLarge options.now sprites.now)) }
    ensures unless { IsOkUnless result Memory }
{
    let mut sizes = Vec::new(alloc);
    let mut places = vec![in alloc; None; sprites.len()]?;
    let mut left = Vec::from_slice(alloc, sprites)?;
    while !left.is_empty() {
        let next = next_page(alloc, &left, options)?;
        let page = filled_of(alloc, &left, options, &next)?;
        if is_bare(&page.places) {
            return Ok(None);
        }
        places = put_on(alloc, sizes.len(), &places, &page.places)?;
        sizes.push(page.size)?;
        left = sprites_left(alloc, sprites, &places)?;
    }
    let all = all_on(alloc, &places)?;
    Ok(Some(Pages { sizes, places: all }))
}

/// Places all sprites on as few sheets as are found: on each what `fill` places there of the sprites that are left, and
/// the last sprites in as small a sheet as `pack` finds. Each sheet but the last is the greatest that is allowed. A
/// sprite on a later sheet asked for a place on each earlier one, and found no room there; no sheet is empty. With no
/// sprites there are no sheets. `effort` changes of the order are tried for each sheet. None only where a sprite, in each
/// of the ways that it may lie, is too large for an empty sheet; then nothing is packed.
///
/// `EmptySheet` if the least allowed side is below 1, else `EmptyRange` if the greatest is less than the least, else
/// `EmptyAlignment` if a side of the alignment is below 1; else `EmptySprite` and `GreatSprite` name the first sprite that
/// can't be placed in any sheet; `Memory` if memory is refused.
pub fn pack_pages<A: Allocator + Copy>(
    alloc: A,
    sprites: &[Size],
    options: &SheetOptions,
) -> Result<Option<Pages<A>>, SheetError>
    ensures count { IfOk result (λ found. IfSome found (λ p. length p.places.items ≡ length sprites.now)) }
    ensures known { IfOk result (λ found. IfSome found (λ p.
        All (λ q. q.page < length p.sizes.items) p.places.items)) }
    ensures each { IfOk result (λ found. IfSome found (λ p.
        AllZip (IsOnPage options.now p.sizes.items) sprites.now p.places.items)) }
    ensures apart { IfOk result (λ found. IfSome found (λ p. NoPlacesOverlap p.sizes.items p.places.items)) }
    ensures used { IfOk result (λ found. IfSome found (λ p. AreUsed p.sizes.items p.places.items)) }
    ensures greatest { IfOk result (λ found. IfSome found (λ p. AreGreatest options.now p.sizes.items)) }
    ensures pages { IfOk result (λ found. IfSome found (λ p.
        ArePages WAYS options.now sprites.now p.sizes.items (map Some p.places.items))) }
    ensures none { IfOk result (λ found. IfNone found (OneIsTooLarge options.now sprites.now)) }
    ensures fault { IfErr result (λ e. IsSheetFault options.now sprites.now e) }
{
    check_all(sprites, options)?;
    let found = paged(alloc, sprites, options)?;
    Ok(found)
}
