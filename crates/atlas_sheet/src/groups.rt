//! All sprites on several sheets, those of a group on one.
ghost use Rattle.std.specs.Prelude.{◌≡◌, ℕ, Bool, ◌<◌, ◌⊎◌, ◌++◌, [], ◌∷◌, if◌then◌else◌, length, map, None, All, IfErr, IfNone, IfOk};
ghost use Rattle.std.specs.Prelude.{IfSome};
ghost use Rattle.std.specs.Prelude.{IsNone, IsOkUnless, Some, is_some};
ghost use Rattle.std.specs.List.{AllZip};
ghost use Rattle.guillotiere.specs.Pixels.{sides_of};
ghost use Rattle.atlas_sheet.specs.declared.error.SheetError.TheVariants.{Memory};
ghost use Rattle.atlas_sheet.specs.declared.ways.TheConstants.{WAYS};
ghost use Rattle.atlas_sheet.specs.Allowances.{IsAllowed};
ghost use Rattle.atlas_sheet.specs.Dense.{NoWayFinds};
ghost use Rattle.atlas_sheet.specs.Grouping.{AreGroupPages, AreGroupSheets, AreKept, HasMember, IsFirstGroup, IsGroupPage};
ghost use Rattle.atlas_sheet.specs.Grouping.{IsNextSheet, IsSoFar, LieTogether, SaysOf, is_in, members, padded_to, to_do, waiting};
ghost use Rattle.atlas_sheet.specs.Grouping.{without_group};
ghost use Rattle.atlas_sheet.specs.Paging.{ArePages, AreUsed, IsOnPage, IsPage, NoPlacesOverlap, OneIsTooLarge, holes, put_on};
ghost use Rattle.atlas_sheet.specs.Paging.{sprites_left};
ghost use Rattle.atlas_sheet.specs.Settings.{CanPack, IsSheetFault};

use crate::choosing::{OneSheet, first_group, group_sheet, opened};
use crate::error::SheetError;
use crate::options::SheetOptions;
use crate::paging::{OnPage, Pages, all_on, is_bare, next_page, put_on, sprites_left};
use crate::picking::is_in;
use crate::sheets::{check_all, filled_of};
use crate::slots::{asks, slots_of};
use guillotiere::Size;
use std::alloc::{Allocator, Global};

// Sheets for some of the sprites.
#[derive(Drop)]
struct SoFar<A: Allocator = Global> {
    sizes: Vec<Size, A>,
    // A place or none for each sprite.
    places: Vec<Option<OnPage>, A>,
    // The sprites that have no place.
    left: Vec<Size, A>,
    // The group of each sprite; none where no way packs it.
    kept: Vec<Option<usize>, A>,
}

// The numbers of so many sprites, none where the list ends before.
fn padded_to<A: Allocator + Copy>(
    alloc: A,
    count: usize,
    groups: &[Option<usize>],
) -> Result<Vec<Option<usize>, A>, SheetError>
    ensures padded { IfOk result (λ all. all.items ≡ padded_to count groups.now) }
    ensures unless { IsOkUnless result Memory }
{
    let mut all = Vec::from_slice(alloc, &groups[..groups.len().min(count)])?;
    all.resize(count, None)?;
    Ok(all)
}

// The numbers of the sprites that have no place.
fn waiting<A: Allocator + Copy>(
    alloc: A,
    groups: &[Option<usize>],
    places: &[Option<OnPage>],
) -> Result<Vec<Option<usize>, A>, SheetError>
    requires { length places.now ≡ length groups.now }
    ensures waiting { IfOk result (λ all. all.items ≡ waiting groups.now places.now) }
    ensures unless { IsOkUnless result Memory }
{
    let mut all = Vec::new(alloc);
    for (number, place) in places.iter().enumerate() {
        if place.is_none() {
            all.push(groups[number])?;
        }
    }
    Ok(all)
}

// The number, if it isn't that of the group.
fn unless_in(group: usize, number: Option<usize>) -> Option<usize>
    ensures { result ≡ (if is_in group number then None else number) }
{
    if is_in(group, number) { None } else { number }
}

// The numbers, without that of one group.
fn without<A: Allocator>(
    alloc: A,
    group: usize,
    groups: &[Option<usize>],
) -> Result<Vec<Option<usize>, A>, SheetError>
    ensures without { IfOk result (λ all. all.items ≡ without_group group groups.now) }
    ensures unless { IsOkUnless result Memory }
{
    let mut all = Vec::with_capacity(alloc, groups.len())?;
    all.extend(groups.iter().map(|number| unless_in(group, *number)))?;
    Ok(all)
}

// A sheet as for sprites in no group, or none where one is too large.
fn plain_sheet<A: Allocator + Copy>(
    alloc: A,
    sprites: &[Size],
    options: &SheetOptions,
) -> Result<Option<OneSheet<A>>, SheetError>
    requires good { CanPack options.now sprites.now }
    requires some { 0 < length sprites.now }
    ensures page { IfOk result (λ found. IfSome found (λ s.
        IsPage WAYS options.now sprites.now (sides_of s.size) s.places.items)) }
    ensures count { IfOk result (λ found. IfSome found (λ s. length s.places.items ≡ length sprites.now)) }
    ensures none { IfOk result (λ found. IfNone found (OneIsTooLarge options.now sprites.now)) }
    ensures unless { IsOkUnless result Memory }
{
    let next = next_page(alloc, sprites, options)?;
    let page = filled_of(alloc, sprites, options, &next)?;
    if is_bare(&page.places) {
        return Ok(None);
    }
    Ok(Some(OneSheet {
        size: page.size,
        places: page.places,
    }))
}

// One sheet more.
fn with_sheet<A: Allocator + Copy>(
    alloc: A,
    sprites: &[Size],
    so_far: SoFar<A>,
    sheet: OneSheet<A>,
) -> Result<SoFar<A>, SheetError>
    requires count { length sheet.places.items ≡ holes so_far.places.items }
    requires long { length so_far.places.items ≡ length sprites.now }
    ensures sizes { IfOk result (λ s. s.sizes.items ≡ so_far.sizes.items ++ sheet.size ∷ []) }
    ensures places { IfOk result (λ s. s.places.items
        ≡ put_on (length so_far.sizes.items) so_far.places.items sheet.places.items) }
    ensures left { IfOk result (λ s. s.left.items ≡ sprites_left sprites.now s.places.items) }
    ensures kept { IfOk result (λ s. s.kept ≡ so_far.kept) }
    ensures unless { IsOkUnless result Memory }
{
    let places = put_on(alloc, so_far.sizes.len(), &so_far.places, &sheet.places)?;
    let left = sprites_left(alloc, sprites, &places)?;
    let mut sizes = so_far.sizes;
    sizes.push(sheet.size)?;
    Ok(SoFar {
        sizes,
        places,
        left,
        kept: so_far.kept,
    })
}

// After a sheet on which a group lies whole or not at all.
fn after_sheet<A: Allocator + Copy>(
    alloc: A,
    sprites: &[Size],
    groups: &[Option<usize>],
    options: &SheetOptions,
    so_far: SoFar<A>,
    sheet: OneSheet<A>,
) -> Result<SoFar<A>, SheetError>
    requires so_far { IsSoFar options.now sprites.now groups.now so_far }
    requires page { IsGroupPage WAYS options.now so_far.left.items (sides_of sheet.size) sheet.places.items }
    requires next { IsNextSheet options.now so_far.left.items (waiting so_far.kept.items so_far.places.items)
        (sides_of sheet.size) sheet.places.items }
    requires count { length sheet.places.items ≡ length so_far.left.items }
    requires says { (whether : ℕ → Bool)
        × AllZip (SaysOf whether) (waiting so_far.kept.items so_far.places.items) (map is_some sheet.places.items) }
    ensures so_far { IfOk result (IsSoFar options.now sprites.now groups.now) }
    ensures less { IfOk result (λ s. to_do sprites.now s.left.items s.kept.items
        < to_do sprites.now so_far.left.items so_far.kept.items) }
    ensures unless { IsOkUnless result Memory }
{
    let more = with_sheet(alloc, sprites, so_far, sheet)?;
    Ok(more)
}

// No sheets yet, with the groups that are kept.
fn begun<A: Allocator + Copy>(
    alloc: A,
    sprites: &[Size],
    groups: &[Option<usize>],
    options: &SheetOptions,
    kept: Vec<Option<usize>, A>,
) -> Result<SoFar<A>, SheetError>
    requires long { length groups.now ≡ length sprites.now }
    requires kept { AreKept options.now sprites.now groups.now kept.items }
    ensures so_far { IfOk result (IsSoFar options.now sprites.now groups.now) }
    ensures left { IfOk result (λ s. s.left.items ≡ sprites.now) }
    ensures kept { IfOk result (λ s. s.kept ≡ kept) }
    ensures unless { IsOkUnless result Memory }
{
    let places = vec![in alloc; None; sprites.len()]?;
    let left = Vec::from_slice(alloc, sprites)?;
    let sizes = Vec::new(alloc);
    Ok(SoFar {
        sizes,
        places,
        left,
        kept,
    })
}

// Without a group, if no way packs it into one sheet.
fn kept_unless_lost<A: Allocator + Copy>(
    alloc: A,
    sprites: &[Size],
    groups: &[Option<usize>],
    options: &SheetOptions,
    kept: Vec<Option<usize>, A>,
    group: usize,
) -> Result<Vec<Option<usize>, A>, SheetError>
    requires good { CanPack options.now sprites.now }
    requires long { length groups.now ≡ length sprites.now }
    requires there { HasMember group groups.now }
    requires kept { AreKept options.now sprites.now groups.now kept.items }
    ensures kept { IfOk result (λ all. AreKept options.now sprites.now groups.now all.items) }
    ensures unless { IsOkUnless result Memory }
{
    let found = opened(alloc, sprites, groups, options, group)?;
    if found.is_some() {
        return Ok(kept);
    }
    let less = without(alloc, group, &kept)?;
    Ok(less)
}

// The groups that a way packs into one sheet, each by itself. Each is asked for once.
fn kept_groups<A: Allocator + Copy>(
    alloc: A,
    sprites: &[Size],
    groups: &[Option<usize>],
    options: &SheetOptions,
) -> Result<Vec<Option<usize>, A>, SheetError>
    requires good { CanPack options.now sprites.now }
    requires long { length groups.now ≡ length sprites.now }
    ensures kept { IfOk result (λ all. AreKept options.now sprites.now groups.now all.items) }
    ensures unless { IsOkUnless result Memory }
{
    let slots = slots_of(alloc, groups)?;
    let mut asked = vec![in alloc; false; slots.len()]?;
    let mut kept = Vec::from_slice(alloc, groups)?;
    for (number, place) in groups.iter().enumerate() {
        if let Some(group) = place {
            let slot = slots[number];
            let is_new = asks(&mut asked, slot);
            if is_new {
                kept = kept_unless_lost(alloc, sprites, groups, options, kept, *group)?;
            }
        }
    }
    Ok(kept)
}

// A group that was kept and that no way packs is given up, and the sheets begin anew.
fn after_group<A: Allocator + Copy>(
    alloc: A,
    sprites: &[Size],
    groups: &[Option<usize>],
    options: &SheetOptions,
    so_far: SoFar<A>,
    group: usize,
) -> Result<SoFar<A>, SheetError>
    requires long { length groups.now ≡ length sprites.now }
    requires so_far { IsSoFar options.now sprites.now groups.now so_far }
    requires there { HasMember group (waiting so_far.kept.items so_far.places.items) }
    requires none { NoWayFinds options.now
        (members group (waiting so_far.kept.items so_far.places.items) so_far.left.items) }
    ensures so_far { IfOk result (IsSoFar options.now sprites.now groups.now) }
    ensures less { IfOk result (λ s. to_do sprites.now s.left.items s.kept.items
        < to_do sprites.now so_far.left.items so_far.kept.items) }
    ensures unless { IsOkUnless result Memory }
{
    let kept = without(alloc, group, &so_far.kept)?;
    let again = begun(alloc, sprites, groups, options, kept)?;
    Ok(again)
}

// The next sheet has a group on it; or no way packs it into one.
fn group_step<A: Allocator + Copy>(
    alloc: A,
    sprites: &[Size],
    groups: &[Option<usize>],
    options: &SheetOptions,
    so_far: SoFar<A>,
    numbers: &[Option<usize>],
    group: usize,
) -> Result<SoFar<A>, SheetError>
    requires good { CanPack options.now sprites.now }
    requires long { length groups.now ≡ length sprites.now }
    requires so_far { IsSoFar options.now sprites.now groups.now so_far }
    requires numbers { numbers.now ≡ waiting so_far.kept.items so_far.places.items }
    requires there { HasMember group numbers.now }
    requires first { IsFirstGroup group numbers.now }
    ensures so_far { IfOk result (IsSoFar options.now sprites.now groups.now) }
    ensures less { IfOk result (λ s. to_do sprites.now s.left.items s.kept.items
        < to_do sprites.now so_far.left.items so_far.kept.items) }
    ensures unless { IsOkUnless result Memory }
{
    let found = group_sheet(alloc, &so_far.left, numbers, options, group)?;
    match found {
        Some(sheet) => after_sheet(alloc, sprites, groups, options, so_far, sheet),
        None => after_group(alloc, sprites, groups, options, so_far, group),
    }
}

// The next sheet, where no group is left; none where a sprite is too large.
fn plain_step<A: Allocator + Copy>(
    alloc: A,
    sprites: &[Size],
    groups: &[Option<usize>],
    options: &SheetOptions,
    so_far: SoFar<A>,
) -> Result<Option<SoFar<A>>, SheetError>
    requires good { CanPack options.now sprites.now }
    requires so_far { IsSoFar options.now sprites.now groups.now so_far }
    requires some { 0 < length so_far.left.items }
    requires no_group { All IsNone (waiting so_far.kept.items so_far.places.items) }
    ensures so_far { IfOk result (λ found. IfSome found (IsSoFar options.now sprites.now groups.now)) }
    ensures less { IfOk result (λ found. IfSome found (λ s.
        to_do sprites.now s.left.items s.kept.items
        < to_do sprites.now so_far.left.items so_far.kept.items)) }
    ensures none { IfOk result (λ found. IfNone found (OneIsTooLarge options.now sprites.now)) }
    ensures unless { IsOkUnless result Memory }
{
    let found = plain_sheet(alloc, &so_far.left, options)?;
    match found {
        Some(sheet) => {
            let more = after_sheet(alloc, sprites, groups, options, so_far, sheet)?;
            Ok(Some(more))
        }
        None => Ok(None),
    }
}

// One sheet more, or one group less; none where a sprite is too large.
fn step<A: Allocator + Copy>(
    alloc: A,
    sprites: &[Size],
    groups: &[Option<usize>],
    options: &SheetOptions,
    so_far: SoFar<A>,
) -> Result<Option<SoFar<A>>, SheetError>
    requires good { CanPack options.now sprites.now }
    requires long { length groups.now ≡ length sprites.now }
    requires so_far { IsSoFar options.now sprites.now groups.now so_far }
    requires some { 0 < length so_far.left.items }
    ensures so_far { IfOk result (λ found. IfSome found (IsSoFar options.now sprites.now groups.now)) }
    ensures less { IfOk result (λ found. IfSome found (λ s.
        to_do sprites.now s.left.items s.kept.items
        < to_do sprites.now so_far.left.items so_far.kept.items)) }
    ensures none { IfOk result (λ found. IfNone found (OneIsTooLarge options.now sprites.now)) }
    ensures unless { IsOkUnless result Memory }
{
    let numbers = waiting(alloc, &so_far.kept, &so_far.places)?;
    match first_group(&numbers) {
        Some(group) => {
            let more = group_step(alloc, sprites, groups, options, so_far, &numbers, group)?;
            Ok(Some(more))
        }
        None => plain_step(alloc, sprites, groups, options, so_far),
    }
}

// One sheet after another, until each sprite has a place or one fits no empty sheet.
fn grouped<A: Allocator + Copy>(
    alloc: A,
    sprites: &[Size],
    groups: &[Option<usize>],
    options: &SheetOptions,
) -> Result<Option<Pages<A>>, SheetError>
    requires good { CanPack options.now sprites.now }
    requires long { length groups.now ≡ length sprites.now }
    ensures pages { IfOk result (λ found. IfSome found (λ p.
        AreGroupPages WAYS options.now sprites.now p.sizes.items (map Some p.places.items))) }
    ensures together { IfOk result (λ found. IfSome found (λ p. (group : ℕ)
        → LieTogether group groups.now p.places.items
        ⊎ NoWayFinds options.now (members group groups.now sprites.now))) }
    ensures sheets { IfOk result (λ found. IfSome found (λ p.
        AreGroupSheets options.now sprites.now groups.now p.sizes.items (map Some p.places.items))) }
    ensures none { IfOk result (λ found. IfNone found (OneIsTooLarge options.now sprites.now)) }
    ensures unless { IsOkUnless result Memory }
{
    let kept = kept_groups(alloc, sprites, groups, options)?;
    let mut so_far = begun(alloc, sprites, groups, options, kept)?;
    while !so_far.left.is_empty() {
        let Some(more) = step(alloc, sprites, groups, options, so_far)? else {
            return Ok(None);
        };
        so_far = more;
    }
    let all = all_on(alloc, &so_far.places)?;
    Ok(Some(Pages {
        sizes: so_far.sizes,
        places: all,
    }))
}

/// `pack_pages`, with the sprites of a group on one sheet: `groups` has the number of each sprite's group, in the order of
/// the sprites. A sprite is in no group where that is None, or where the list ends before; entries past the last sprite
/// are ignored. All sprites of a group lie on one sheet, unless no way packs them by themselves into the greatest sheet that
/// is allowed. Such a group is given up before the first sheet is begun: each of its sprites counts as one in no group.
///
/// The other groups are taken in the order of their first sprites. The first one opens a sheet; then each other group that
/// the greatest sheet takes as well goes onto it, and then sprites in no group, in their order: all, or so many that it
/// doesn't take the next one as well. A sheet takes sprites if they have no more pixels than it, and the best of the ways
/// that `fill` tries first places them all. Such a sheet is as small as `pack` finds it for what lies there. When no group
/// is left, the other sprites are packed as `pack_pages` does, so with no number in `groups` this is `pack_pages`.
/// `effort` changes of the order are tried for each sheet. None only where a sprite, in each of the ways that
/// it may lie, is too large for an empty sheet; then nothing is packed.
///
/// The errors are those of `pack_pages`.
pub fn pack_groups<A: Allocator + Copy>(
    alloc: A,
    sprites: &[Size],
    groups: &[Option<usize>],
    options: &SheetOptions,
) -> Result<Option<Pages<A>>, SheetError>
    ensures count { IfOk result (λ found. IfSome found (λ p. length p.places.items ≡ length sprites.now)) }
    ensures known { IfOk result (λ found. IfSome found (λ p.
        All (λ q. q.page < length p.sizes.items) p.places.items)) }
    ensures each { IfOk result (λ found. IfSome found (λ p.
        AllZip (IsOnPage options.now p.sizes.items) sprites.now p.places.items)) }
    ensures apart { IfOk result (λ found. IfSome found (λ p. NoPlacesOverlap p.sizes.items p.places.items)) }
    ensures used { IfOk result (λ found. IfSome found (λ p. AreUsed p.sizes.items p.places.items)) }
    ensures allowed { IfOk result (λ found. IfSome found (λ p.
        All (λ size. IsAllowed options.now.allowed (sides_of size)) p.sizes.items)) }
    ensures together { IfOk result (λ found. IfSome found (λ p. (group : ℕ)
        → LieTogether group groups.now p.places.items
        ⊎ NoWayFinds options.now (members group groups.now sprites.now))) }
    ensures pages { IfOk result (λ found. IfSome found (λ p.
        AreGroupPages WAYS options.now sprites.now p.sizes.items (map Some p.places.items))) }
    ensures sheets { IfOk result (λ found. IfSome found (λ p. AreGroupSheets options.now sprites.now
        (padded_to (length sprites.now) groups.now) p.sizes.items (map Some p.places.items))) }
    ensures plain { All IsNone groups.now → IfOk result (λ found. IfSome found (λ p.
        ArePages WAYS options.now sprites.now p.sizes.items (map Some p.places.items))) }
    ensures none { IfOk result (λ found. IfNone found (OneIsTooLarge options.now sprites.now)) }
    ensures fault { IfErr result (λ e. IsSheetFault options.now sprites.now e) }
{
    check_all(sprites, options)?;
    let numbers = padded_to(alloc, sprites.len(), groups)?;
    let found = grouped(alloc, sprites, &numbers, options)?;
    Ok(found)
}
