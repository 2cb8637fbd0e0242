//! Sprites that are chosen for one sheet: whole groups, and sprites in no group.
ghost use Rattle.std.specs.Prelude.{◌≡◌, ◌==◌, ◌+◌, ◌-◌, ◌<◌, ◌≤◌, ◌⊎◌, ℕ, Bool, List, Option, false, is_none, is_some};
ghost use Rattle.std.specs.Prelude.{length, map, All, IfNone, IfOk, IfSome, IsNone, IsOkUnless, IsSome, Some};
ghost use Rattle.std.specs.List.{count_by};
ghost use Rattle.guillotiere.specs.Boxes.{Sides};
ghost use Rattle.guillotiere.specs.Pixels.{sides_of};
ghost use Rattle.atlas_sheet.specs.declared.error.SheetError.TheVariants.{Memory};
ghost use Rattle.atlas_sheet.specs.declared.ways.TheConstants.{WAYS};
ghost use Rattle.atlas_sheet.specs.Allowances.{IsAllowed, IsGreatest, pixels};
ghost use Rattle.atlas_sheet.specs.Dense.{IsNoLargerThanWays, NoWayFinds};
ghost use Rattle.atlas_sheet.specs.Grouping.{AreChosen, AreGroupsThere, AreSpritesThere, AreTooMany, HasMember};
ghost use Rattle.atlas_sheet.specs.Grouping.{IsClosed, IsFirstGroup, IsGroupPage, IsGroupSheet, chosen_row, members, picked};
ghost use Rattle.atlas_sheet.specs.Grouping.{pixels_together, spread, those_placed, with_one};
ghost use Rattle.atlas_sheet.specs.Lying.{IsArranged, IsShown};
ghost use Rattle.atlas_sheet.specs.Paging.{IsPage};
ghost use Rattle.atlas_sheet.specs.Settings.{CanPack, spacing_of};

use crate::arrangement::Arrangement;
use crate::climbing::is_whole;
use crate::dense::{pixels_of, sprite_pixels};
use crate::error::SheetError;
use crate::options::SheetOptions;
use crate::packing::packed;
use crate::picking::{picked, row_of, row_with, row_with_single, spread};
use crate::placed::Placed;
use crate::search::greatest_sheet;
use crate::sheets::{Filled, best_filled, filled_of};
use crate::slots::{is_open, slot_pixels, slots_of};
use guillotiere::Size;
use std::alloc::{Allocator, Global};

/// A sheet, and a place or none on it for each of the sprites that have none yet.
#[derive(Drop)]
pub struct OneSheet<A: Allocator = Global> {
    /// The size of the sheet.
    pub size: Size,
    /// A place or none for each of these sprites.
    pub places: Vec<Option<Placed>, A>,
}

/// Some of the sprites, and how all of them lie on one sheet.
#[derive(Drop)]
pub struct Chosen<A: Allocator> {
    /// Which of the sprites are chosen.
    pub row: Vec<bool, A>,
    /// How they lie.
    pub page: Arrangement<A>,
}

/// The first group of a sprite.
pub fn first_group(groups: &[Option<usize>]) -> Option<usize>
    ensures some { IfSome result (λ group. HasMember group groups.now) }
    ensures first { IfSome result (λ group. IsFirstGroup group groups.now) }
    ensures none { IfNone result (All IsNone groups.now) }
{
    for number in groups {
        if let Some(group) = number {
            return Some(*group);
        }
    }
    None
}

// What the best of the first ways finds, without changes of the order.
fn plainly_filled<A: Allocator + Copy>(
    alloc: A,
    sprites: &[Size],
    options: &SheetOptions,
) -> Result<Arrangement<A>, SheetError>
    requires { CanPack options.now sprites.now }
    ensures arranged { IfOk result (IsArranged options.now sprites.now) }
    ensures allowed { IfOk result (λ a. IsAllowed options.now.allowed (sides_of a.size)) }
    ensures whole { IfOk result (λ a. All IsSome a.places.items ⊎ AreTooMany options.now sprites.now) }
    ensures unless { IsOkUnless result Memory }
{
    let plain = SheetOptions {
        effort: 0,
        ..*options
    };
    let page = best_filled(alloc, sprites, &plain)?;
    Ok(page)
}

// The smallest sheet that one of the ways finds, without changes of the order.
fn plainly_packed<A: Allocator + Copy>(
    alloc: A,
    sprites: &[Size],
    options: &SheetOptions,
) -> Result<Option<Arrangement<A>>, SheetError>
    requires { CanPack options.now sprites.now }
    ensures arranged { IfOk result (λ found. IfSome found (IsArranged options.now sprites.now)) }
    ensures allowed { IfOk result (λ found. IfSome found (λ a. IsAllowed options.now.allowed (sides_of a.size))) }
    ensures whole { IfOk result (λ found. IfSome found (λ a. All IsSome a.places.items)) }
    ensures none { IfOk result (λ found. IfNone found (NoWayFinds options.now sprites.now)) }
    ensures unless { IsOkUnless result Memory }
{
    let plain = SheetOptions {
        effort: 0,
        ..*options
    };
    let found = packed(alloc, sprites, &plain, |_| {})?;
    Ok(found)
}

// The chosen sprites on the greatest sheet, if the best of the first ways finds places for all of them.
fn all_of<A: Allocator + Copy>(
    alloc: A,
    row: Vec<bool, A>,
    sprites: &[Size],
    options: &SheetOptions,
) -> Result<Option<Chosen<A>>, SheetError>
    requires good { CanPack options.now sprites.now }
    requires long { length row.items ≡ length sprites.now }
    ensures chosen { IfOk result (λ found. IfSome found (λ c. (groups : List (Option ℕ)) → IsClosed groups row.items
        → AreChosen options.now sprites.now groups c)) }
    ensures row { IfOk result (λ found. IfSome found (λ c. c.row ≡ row)) }
    ensures many { IfOk result (λ found. IfNone found (AreTooMany options.now (picked row.items sprites.now))) }
    ensures unless { IsOkUnless result Memory }
{
    let some = picked(alloc, &row, sprites)?;
    if pixels_of(greatest_sheet(options.allowed)) < sprite_pixels(&some) {
        return Ok(None);
    }
    let page = plainly_filled(alloc, &some, options)?;
    if is_whole(&page) {
        Ok(Some(Chosen { row, page }))
    } else {
        Ok(None)
    }
}

// With the group as well, if the sheet takes it.
fn with_group<A: Allocator + Copy>(
    alloc: A,
    sprites: &[Size],
    groups: &[Option<usize>],
    options: &SheetOptions,
    group: usize,
    chosen: Chosen<A>,
) -> Result<Chosen<A>, SheetError>
    requires good { CanPack options.now sprites.now }
    requires long { length groups.now ≡ length sprites.now }
    requires chosen { AreChosen options.now sprites.now groups.now chosen }
    ensures chosen { IfOk result (AreChosen options.now sprites.now groups.now) }
    ensures taken { (there : ℕ → Bool) → chosen.row.items ≡ chosen_row there 0 groups.now
        → IfOk result (λ c. (c.row.items ≡ chosen_row (with_one group there) 0 groups.now)
        ⊎ ((c.row.items ≡ chosen.row.items)
        × AreTooMany options.now (picked (chosen_row (with_one group there) 0 groups.now) sprites.now))) }
    ensures unless { IsOkUnless result Memory }
{
    let row = row_with(alloc, &chosen.row, group, groups)?;
    match all_of(alloc, row, sprites, options)? {
        Some(more) => Ok(more),
        None => Ok(chosen),
    }
}

// How many pixels of the greatest sheet the sprites don't take where the row says so.
fn room_beside<A: Allocator>(
    alloc: A,
    row: &[bool],
    sprites: &[Size],
    options: &SheetOptions,
) -> Result<u64, SheetError>
    requires good { CanPack options.now sprites.now }
    requires long { length row.now ≡ length sprites.now }
    ensures room { IfOk result (λ room. (sheet : Sides) × IsGreatest options.now.allowed sheet
        × (pixels sheet ≤ room + pixels_together (picked row.now sprites.now))) }
    ensures unless { IsOkUnless result Memory }
{
    let some = picked(alloc, row, sprites)?;
    let room = pixels_of(greatest_sheet(options.allowed));
    Ok(room.saturating_sub(sprite_pixels(&some)))
}

// With each other group that the sheet takes, in the order of their first sprites. Each is asked for once, and one with more
// pixels than are left isn't tried.
fn with_groups<A: Allocator + Copy>(
    alloc: A,
    sprites: &[Size],
    groups: &[Option<usize>],
    options: &SheetOptions,
    first: Chosen<A>,
) -> Result<Chosen<A>, SheetError>
    requires good { CanPack options.now sprites.now }
    requires long { length groups.now ≡ length sprites.now }
    requires chosen { AreChosen options.now sprites.now groups.now first }
    requires first { (group : ℕ) × IsFirstGroup group groups.now
        × (first.row.items ≡ chosen_row (λ n. n == group) 0 groups.now) }
    ensures chosen { IfOk result (AreChosen options.now sprites.now groups.now) }
    ensures there { IfOk result (λ c. (there : ℕ → Bool) × AreGroupsThere options.now sprites.now groups.now there
        × (c.row.items ≡ chosen_row there 0 groups.now)) }
    ensures unless { IsOkUnless result Memory }
{
    let slots = slots_of(alloc, groups)?;
    let pixels = slot_pixels(alloc, &slots, sprites)?;
    let mut asked = vec![in alloc; false; slots.len()]?;
    let mut room = room_beside(alloc, &first.row, sprites, options)?;
    let mut chosen = first;
    for (number, place) in groups.iter().enumerate() {
        if let Some(group) = place {
            let is_chosen = chosen.row[number];
            if is_open(&mut asked, slots[number], is_chosen, &pixels, room) {
                chosen = with_group(alloc, sprites, groups, options, *group, chosen)?;
                room = room_beside(alloc, &chosen.row, sprites, options)?;
            }
        }
    }
    Ok(chosen)
}

// How many sprites are in no group.
fn single_count(groups: &[Option<usize>]) -> usize
    ensures { result ≡ count_by is_none groups.now }
{
    groups.iter().filter(|number| number.is_none()).count()
}

// With as many sprites in no group as the sheet takes, by bisection: with one more it doesn't take them, or there are no more.
fn with_singles<A: Allocator + Copy>(
    alloc: A,
    sprites: &[Size],
    groups: &[Option<usize>],
    options: &SheetOptions,
    first: Chosen<A>,
) -> Result<Chosen<A>, SheetError>
    requires good { CanPack options.now sprites.now }
    requires long { length groups.now ≡ length sprites.now }
    requires chosen { AreChosen options.now sprites.now groups.now first }
    requires there { (there : ℕ → Bool) × AreGroupsThere options.now sprites.now groups.now there
        × (first.row.items ≡ chosen_row there 0 groups.now) }
    ensures chosen { IfOk result (AreChosen options.now sprites.now groups.now) }
    ensures there { IfOk result (λ c. AreSpritesThere options.now sprites.now groups.now c.row.items) }
    ensures unless { IsOkUnless result Memory }
{
    let whole = Vec::from_slice(alloc, &first.row)?;
    let mut chosen = first;
    let mut taken = 0;
    let mut refused = single_count(groups) + 1;
    while taken + 1 < refused {
        let many = taken + (refused - taken) / 2;
        let row = row_with_single(alloc, &whole, many, groups)?;
        match all_of(alloc, row, sprites, options)? {
            Some(more) => {
                chosen = more;
                taken = many;
            }
            None => refused = many,
        }
    }
    Ok(chosen)
}

// The chosen sprites in the smallest sheet that is found for them, or else as they lie.
fn smallest<A: Allocator + Copy>(
    alloc: A,
    sprites: &[Size],
    options: &SheetOptions,
    page: Arrangement<A>,
) -> Result<Arrangement<A>, SheetError>
    requires good { CanPack options.now sprites.now }
    requires arranged { IsArranged options.now sprites.now page }
    requires allowed { IsAllowed options.now.allowed (sides_of page.size) }
    requires whole { All IsSome page.places.items }
    ensures arranged { IfOk result (IsArranged options.now sprites.now) }
    ensures allowed { IfOk result (λ a. IsAllowed options.now.allowed (sides_of a.size)) }
    ensures whole { IfOk result (λ a. All IsSome a.places.items) }
    ensures larger { IfOk result (λ a. IsNoLargerThanWays options.now sprites.now (sides_of a.size)) }
    ensures unless { IsOkUnless result Memory }
{
    let found = packed(alloc, sprites, options, |_| {})?;
    match found {
        Some(smaller) => Ok(smaller),
        None => Ok(page),
    }
}

// The smallest sheet for these sprites, as it is shown.
fn shown_smallest<A: Allocator + Copy>(
    alloc: A,
    sprites: &[Size],
    options: &SheetOptions,
    page: Arrangement<A>,
) -> Result<Filled<A>, SheetError>
    requires good { CanPack options.now sprites.now }
    requires arranged { IsArranged options.now sprites.now page }
    requires allowed { IsAllowed options.now.allowed (sides_of page.size) }
    requires whole { All IsSome page.places.items }
    ensures shown { IfOk result (λ f. IsShown (sides_of f.size) (spacing_of options.now) options.now.turn sprites.now
        f.order.items f.places.items) }
    ensures allowed { IfOk result (λ f. IsAllowed options.now.allowed (sides_of f.size)) }
    ensures whole { IfOk result (λ f. All IsSome f.places.items) }
    ensures larger { IfOk result (λ f. IsNoLargerThanWays options.now sprites.now (sides_of f.size)) }
    ensures unless { IsOkUnless result Memory }
{
    let smaller = smallest(alloc, sprites, options, page)?;
    let filled = filled_of(alloc, sprites, options, &smaller)?;
    Ok(filled)
}

// The sheet of the chosen sprites.
fn sheet_of_chosen<A: Allocator + Copy>(
    alloc: A,
    sprites: &[Size],
    groups: &[Option<usize>],
    options: &SheetOptions,
    chosen: Chosen<A>,
) -> Result<OneSheet<A>, SheetError>
    requires good { CanPack options.now sprites.now }
    requires chosen { AreChosen options.now sprites.now groups.now chosen }
    ensures page { IfOk result (λ s. IsPage WAYS options.now (those_placed s.places.items sprites.now) (sides_of s.size)
        (those_placed s.places.items s.places.items)) }
    ensures count { IfOk result (λ s. length s.places.items ≡ length sprites.now) }
    ensures closed { IfOk result (λ s. IsClosed groups.now (map is_some s.places.items)) }
    ensures row { IfOk result (λ s. map is_some s.places.items ≡ chosen.row.items) }
    ensures unless { IsOkUnless result Memory }
{
    let some = picked(alloc, &chosen.row, sprites)?;
    let filled = shown_smallest(alloc, &some, options, chosen.page)?;
    let places = spread(alloc, &chosen.row, &filled.places)?;
    Ok(OneSheet {
        size: filled.size,
        places,
    })
}

/// The sprites of a group in the smallest sheet that one of the ways finds for them.
pub fn opened<A: Allocator + Copy>(
    alloc: A,
    sprites: &[Size],
    groups: &[Option<usize>],
    options: &SheetOptions,
    group: usize,
) -> Result<Option<Chosen<A>>, SheetError>
    requires good { CanPack options.now sprites.now }
    requires long { length groups.now ≡ length sprites.now }
    requires there { HasMember group groups.now }
    ensures chosen { IfOk result (λ found. IfSome found (AreChosen options.now sprites.now groups.now)) }
    ensures row { IfOk result (λ found. IfSome found (λ c. c.row.items ≡ chosen_row (λ n. n == group) 0 groups.now)) }
    ensures none { IfOk result (λ found. IfNone found (NoWayFinds options.now (members group groups.now sprites.now))) }
    ensures unless { IsOkUnless result Memory }
{
    let row = row_of(alloc, group, groups)?;
    let some = picked(alloc, &row, sprites)?;
    let found = plainly_packed(alloc, &some, options)?;
    match found {
        Some(page) => Ok(Some(Chosen { row, page })),
        None => Ok(None),
    }
}

/// A sheet with a group on it, with other groups and with sprites in no group; none where no way packs the group into one.
pub fn group_sheet<A: Allocator + Copy>(
    alloc: A,
    sprites: &[Size],
    groups: &[Option<usize>],
    options: &SheetOptions,
    group: usize,
) -> Result<Option<OneSheet<A>>, SheetError>
    requires good { CanPack options.now sprites.now }
    requires long { length groups.now ≡ length sprites.now }
    requires there { HasMember group groups.now }
    requires first { IsFirstGroup group groups.now }
    ensures page { IfOk result (λ found. IfSome found (λ s.
        IsGroupPage WAYS options.now sprites.now (sides_of s.size) s.places.items)) }
    ensures sheet { IfOk result (λ found. IfSome found (λ s.
        IsGroupSheet options.now sprites.now groups.now (sides_of s.size) s.places.items)) }
    ensures count { IfOk result (λ found. IfSome found (λ s. length s.places.items ≡ length sprites.now)) }
    ensures closed { IfOk result (λ found. IfSome found (λ s. IsClosed groups.now (map is_some s.places.items))) }
    ensures none { IfOk result (λ found. IfNone found (NoWayFinds options.now (members group groups.now sprites.now))) }
    ensures unless { IsOkUnless result Memory }
{
    let Some(one) = opened(alloc, sprites, groups, options, group)? else {
        return Ok(None);
    };
    let whole = with_groups(alloc, sprites, groups, options, one)?;
    let more = with_singles(alloc, sprites, groups, options, whole)?;
    let sheet = sheet_of_chosen(alloc, sprites, groups, options, more)?;
    Ok(Some(sheet))
}
