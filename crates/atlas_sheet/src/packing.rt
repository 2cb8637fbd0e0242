//! Smaller and smaller sheets.
ghost use Rattle.std.specs.Prelude.{◌≡◌, ◌<◌, ◌≤◌, ◌⊎◌, map, All, IfNone, IfOk, IfSome, IsNone, IsOkUnless, IsSome, List};
ghost use Rattle.guillotiere.specs.Pixels.{sides_of};
ghost use Rattle.atlas_sheet.specs.declared.error.SheetError.TheVariants.{Memory};
ghost use Rattle.atlas_sheet.specs.declared.ways.TheConstants.{WAYS};
ghost use Rattle.atlas_sheet.specs.Allowances.{IsAllowed, pixels};
ghost use Rattle.atlas_sheet.specs.Dense.{IsNoLargerThanWays, NoWayFinds};
ghost use Rattle.atlas_sheet.specs.Lying.{IsArranged, HoldsAll};
ghost use Rattle.atlas_sheet.specs.Packings.{IsFirstFound, IsLeastFound, IsSmaller, IsToldLast, NoneIsFound};
ghost use Rattle.atlas_sheet.specs.Settings.{CanPack, spacing_of};
ghost use Rattle.atlas_sheet.specs.Turnings.{AreLaid, InFirst};

use crate::arrangement::Arrangement;
use crate::climbing::{asked_in, improve, is_whole};
use crate::error::SheetError;
use crate::filling::from_zero;
use crate::options::SheetOptions;
use crate::orders::greatest_first;
use crate::random::Random;
use crate::search::{greatest_sheet, smaller_sheet, smallest};
use crate::trials::{Packing, trials_of};
use crate::turnings::{Turning, laid};
use crate::ways::WAYS;
use guillotiere::{Rectangle, Size};
use std::alloc::Allocator;

// Places that are there.
fn somes<A: Allocator + Copy>(
    alloc: A,
    places: &[Rectangle],
) -> Result<Vec<Option<Rectangle>, A>, SheetError>
    ensures places { IfOk result (λ all. all.items ≡ map Some places.now) }
    ensures unless { IsOkUnless result Memory }
{
    let mut all = Vec::with_capacity(alloc, places.len())?;
    all.extend(places.iter().map(|area| Some(*area)))?;
    Ok(all)
}

// What a way packs, as an arrangement.
fn arrangement_of<A: Allocator + Copy>(
    alloc: A,
    options: &SheetOptions,
    lying: Vec<Size, A>,
    packing: Packing<A>,
) -> Result<Arrangement<A>, SheetError>
    requires { IsLeastFound WAYS options.now.allowed (spacing_of options.now) lying.items (sides_of packing.size)
        (record { way = packing.way; order = packing.order.items; places = packing.places.items }) }
    ensures arranged { IfOk result (IsArranged options.now lying.items) }
    ensures lying { IfOk result (λ a. a.lying.items ≡ lying.items) }
    ensures allowed { IfOk result (λ a. IsAllowed options.now.allowed (sides_of a.size)) }
    ensures whole { IfOk result (λ a. All IsSome a.places.items) }
    ensures first { IfOk result (λ a. IsFirstFound WAYS options.now.allowed (spacing_of options.now) lying.items
        (sides_of a.size) (map (λ s. s.0) a.order.items) a.places.items) }
    ensures unless { IsOkUnless result Memory }
{
    let places = somes(alloc, &packing.places)?;
    Ok(Arrangement {
        size: packing.size,
        choice: packing.way.choice,
        lying,
        order: packing.order,
        places,
    })
}

// The sprites as they are laid, in the smallest sheet into which a way packs them.
fn first_so<A: Allocator + Copy>(
    alloc: A,
    sprites: &[Size],
    options: &SheetOptions,
    how: Turning,
) -> Result<Option<Arrangement<A>>, SheetError>
    requires { CanPack options.now sprites.now }
    ensures arranged { IfOk result (λ found. IfSome found (IsArranged options.now sprites.now)) }
    ensures allowed { IfOk result (λ found. IfSome found (λ a. IsAllowed options.now.allowed (sides_of a.size))) }
    ensures whole { IfOk result (λ found. IfSome found (λ a. All IsSome a.places.items)) }
    ensures laid { IfOk result (λ found. IfSome found (λ a. AreLaid options.now how sprites.now a.lying.items)) }
    ensures first { IfOk result (λ found. IfSome found (λ a. IsFirstFound WAYS options.now.allowed
        (spacing_of options.now) a.lying.items (sides_of a.size) (map (λ s. s.0) a.order.items) a.places.items)) }
    ensures none { IfOk result (λ found. IfNone found (
        (lying : List Size) × AreLaid options.now how sprites.now lying
        × NoneIsFound WAYS options.now.allowed (spacing_of options.now) lying)) }
    ensures unless { IsOkUnless result Memory }
{
    let lying = laid(alloc, sprites, options, how)?;
    let trials = trials_of(alloc, &lying, &WAYS)?;
    let found = smallest(alloc, &lying, &trials, options.allowed, options.spacing())?;
    match found {
        None => Ok(None),
        Some(packing) => {
            let first = arrangement_of(alloc, options, lying, packing)?;
            Ok(Some(first))
        }
    }
}

// How many pixels a sheet has.
fn pixels(size: Size) -> u64
    ensures { result ≡ pixels (sides_of size) }
{
    from_zero(size.width) * from_zero(size.height)
}

// The arrangement in the smaller sheet, if there is one; of two with as many pixels the first.
fn smaller_of<A: Allocator>(
    one: Option<Arrangement<A>>,
    other: Option<Arrangement<A>>,
) -> Option<Arrangement<A>>
    ensures kept { (result ≡ one) ⊎ (result ≡ other) }
    ensures earlier { (result ≡ one) ⊎ IfSome one (λ a. IfSome result (λ b. pixels (sides_of b.size) < pixels (sides_of a.size))) }
    ensures one { IfSome one (λ a. IfSome result (λ b. pixels (sides_of b.size) ≤ pixels (sides_of a.size))) }
    ensures other { IfSome other (λ a. IfSome result (λ b. pixels (sides_of b.size) ≤ pixels (sides_of a.size))) }
    ensures none_one { IfNone result (IsNone one) }
    ensures none_other { IfNone result (IsNone other) }
{
    let Some(first) = one else {
        return other;
    };
    let Some(second) = other else {
        return Some(first);
    };
    if pixels(second.size) < pixels(first.size) {
        Some(second)
    } else {
        Some(first)
    }
}

// The smallest sheet into which a way packs all sprites, however they are laid.
fn first_found<A: Allocator + Copy>(
    alloc: A,
    sprites: &[Size],
    options: &SheetOptions,
) -> Result<Option<Arrangement<A>>, SheetError>
    requires { CanPack options.now sprites.now }
    ensures arranged { IfOk result (λ found. IfSome found (IsArranged options.now sprites.now)) }
    ensures allowed { IfOk result (λ found. IfSome found (λ a. IsAllowed options.now.allowed (sides_of a.size))) }
    ensures whole { IfOk result (λ found. IfSome found (λ a. All IsSome a.places.items)) }
    ensures first { IfOk result (λ found. IfSome found (λ a. InFirst options.now sprites.now
        (λ lying. IsFirstFound WAYS options.now.allowed (spacing_of options.now) lying (sides_of a.size)
        (map (λ s. s.0) a.order.items) a.places.items)
        (λ lying. IsSmaller WAYS options.now.allowed (spacing_of options.now) lying (sides_of a.size)))) }
    ensures larger { IfOk result (λ found. IfSome found (λ a. IsNoLargerThanWays options.now sprites.now (sides_of a.size))) }
    ensures none { IfOk result (λ found. IfNone found (NoWayFinds options.now sprites.now)) }
    ensures unless { IsOkUnless result Memory }
{
    let given = first_so(alloc, sprites, options, Turning::AsGiven)?;
    if !options.turn {
        return Ok(given);
    }
    let wide = first_so(alloc, sprites, options, Turning::Wide)?;
    let high = first_so(alloc, sprites, options, Turning::High)?;
    Ok(smaller_of(given, smaller_of(wide, high)))
}

// Sprites in smaller and smaller sheets, as long as there are tries: the last one that took all. `told` is called with
// the size of the first, and of each one that takes all, as soon as it is found.
fn descend<A: Allocator + Copy, F: FnMut(Size)>(
    alloc: A,
    options: &SheetOptions,
    random: &mut Random,
    tries: &mut u32,
    first: Arrangement<A>,
    mut told: F,
) -> Result<Arrangement<A>, SheetError>
    requires callable { F.IsAlwaysCallable told }
    requires good { CanPack options.now first.lying.items }
    requires arranged { IsArranged options.now first.lying.items first }
    requires allowed { IsAllowed options.now.allowed (sides_of first.size) }
    requires whole { All IsSome first.places.items }
    ensures arranged { IfOk result (IsArranged options.now first.lying.items) }
    ensures allowed { IfOk result (λ best. IsAllowed options.now.allowed (sides_of best.size)) }
    ensures whole { IfOk result (λ best. All IsSome best.places.items) }
    ensures smaller { IfOk result (λ best. pixels (sides_of best.size) ≤ pixels (sides_of first.size)) }
    ensures told { IfOk result (λ best. IsToldLast (λ p size q. F.step p size tt q)
        (HoldsAll options.now first.lying.items) told best.size) }
    ensures unless { IsOkUnless result Memory }
{
    told(first.size);
    let mut best = first;
    while *tries > 0 {
        let Some(size) = smaller_sheet(options.allowed, best.size) else {
            break;
        };
        *tries -= 1;
        let moved = asked_in(alloc, options, size, best.choice, &best.lying, &best.order)?;
        let found = improve(alloc, options, random, tries, moved)?;
        if !is_whole(&found) {
            break;
        }
        told(found.size);
        best = found;
    }
    Ok(best)
}

// Sprites that none of the ways packs, in the greatest sheet by the first way, and the changes of its order.
fn squeeze<A: Allocator + Copy>(
    alloc: A,
    sprites: &[Size],
    options: &SheetOptions,
    random: &mut Random,
    tries: &mut u32,
) -> Result<Option<Arrangement<A>>, SheetError>
    requires none { NoWayFinds options.now sprites.now }
    requires good { CanPack options.now sprites.now }
    ensures arranged { IfOk result (λ found. IfSome found (IsArranged options.now sprites.now)) }
    ensures allowed { IfOk result (λ found. IfSome found (λ a. IsAllowed options.now.allowed (sides_of a.size))) }
    ensures whole { IfOk result (λ found. IfSome found (λ a. All IsSome a.places.items)) }
    ensures plain { tries.old ≡ 0 → IfOk result (λ found. IsNone found) }
    ensures larger { IfOk result (λ found. IfSome found (λ a. IsNoLargerThanWays options.now sprites.now (sides_of a.size))) }
    ensures unless { IsOkUnless result Memory }
{
    if *tries == 0 {
        return Ok(None);
    }
    let size = greatest_sheet(options.allowed);
    let way = WAYS[0];
    let lying = laid(alloc, sprites, options, Turning::AsGiven)?;
    let order = greatest_first(alloc, &lying, way.key)?;
    let asked = asked_in(alloc, options, size, way.choice, &lying, &order)?;
    let found = improve(alloc, options, random, tries, asked)?;
    if !is_whole(&found) {
        return Ok(None);
    }
    Ok(Some(found))
}

// The first arrangement of all sprites: in the smallest sheet that a way finds, or else squeezed into the greatest one.
fn first_whole<A: Allocator + Copy>(
    alloc: A,
    sprites: &[Size],
    options: &SheetOptions,
    random: &mut Random,
    tries: &mut u32,
) -> Result<Option<Arrangement<A>>, SheetError>
    requires { CanPack options.now sprites.now }
    ensures arranged { IfOk result (λ found. IfSome found (IsArranged options.now sprites.now)) }
    ensures allowed { IfOk result (λ found. IfSome found (λ a. IsAllowed options.now.allowed (sides_of a.size))) }
    ensures whole { IfOk result (λ found. IfSome found (λ a. All IsSome a.places.items)) }
    ensures first { tries.old ≡ 0 → IfOk result (λ found. IfSome found (λ a. InFirst options.now sprites.now
        (λ lying. IsFirstFound WAYS options.now.allowed (spacing_of options.now) lying (sides_of a.size)
        (map (λ s. s.0) a.order.items) a.places.items)
        (λ lying. IsSmaller WAYS options.now.allowed (spacing_of options.now) lying (sides_of a.size)))) }
    ensures larger { IfOk result (λ found. IfSome found (λ a. IsNoLargerThanWays options.now sprites.now (sides_of a.size))) }
    ensures none { IfOk result (λ found. IfNone found (NoWayFinds options.now sprites.now)) }
    ensures unless { IsOkUnless result Memory }
{
    let found = first_found(alloc, sprites, options)?;
    match found {
        None => {
            let squeezed = squeeze(alloc, sprites, options, random, tries)?;
            Ok(squeezed)
        }
        Some(first) => Ok(Some(first)),
    }
}

/// All sprites in the smallest sheet that the ways and the changes of the order find; `told` is last called with its
/// size. None only where no way packs them into the greatest one.
pub fn packed<A: Allocator + Copy, F: FnMut(Size)>(
    alloc: A,
    sprites: &[Size],
    options: &SheetOptions,
    mut told: F,
) -> Result<Option<Arrangement<A>>, SheetError>
    requires callable { F.IsAlwaysCallable told }
    requires good { CanPack options.now sprites.now }
    ensures arranged { IfOk result (λ found. IfSome found (IsArranged options.now sprites.now)) }
    ensures allowed { IfOk result (λ found. IfSome found (λ a. IsAllowed options.now.allowed (sides_of a.size))) }
    ensures whole { IfOk result (λ found. IfSome found (λ a. All IsSome a.places.items)) }
    ensures first { options.now.effort ≡ 0 → IfOk result (λ found. IfSome found (λ a. InFirst options.now sprites.now
        (λ lying. IsFirstFound WAYS options.now.allowed (spacing_of options.now) lying (sides_of a.size)
        (map (λ s. s.0) a.order.items) a.places.items)
        (λ lying. IsSmaller WAYS options.now.allowed (spacing_of options.now) lying (sides_of a.size)))) }
    ensures larger { IfOk result (λ found. IfSome found (λ a. IsNoLargerThanWays options.now sprites.now (sides_of a.size))) }
    ensures none { IfOk result (λ found. IfNone found (NoWayFinds options.now sprites.now)) }
    ensures told { IfOk result (λ found. IfSome found (λ a. IsToldLast (λ p size q. F.step p size tt q)
        (HoldsAll options.now sprites.now) told a.size)) }
    ensures unless { IsOkUnless result Memory }
{
    let mut random = Random::new(options.seed);
    let mut tries = options.effort;
    let found = first_whole(alloc, sprites, options, &mut random, &mut tries)?;
    let Some(first) = found else {
        return Ok(None);
    };
    if options.effort == 0 {
        told(first.size);
        return Ok(Some(first));
    }
    let best = descend(alloc, options, &mut random, &mut tries, first, told)?;
    Ok(Some(best))
}
