//! The search for the smallest sheet.
ghost use Rattle.std.specs.Prelude.{◌≡◌, ◌+◌, ◌*◌, ◌/◌, ◌^◌, ◌<◌, ◌≤◌, map, All, IfNone, IfOk, IfSome, IsOkUnless};
ghost use Rattle.guillotiere.specs.Boxes.{IsPositive};
ghost use Rattle.guillotiere.specs.Pixels.{natural, sides_of};
ghost use Rattle.atlas_sheet.specs.declared.error.SheetError.TheVariants.{Memory};
ghost use Rattle.atlas_sheet.specs.Allowances.{HasHalfOf, HasNoSmaller, IsAllowed, IsGreatest, IsNextSmaller, IsRow, IsUsable};
ghost use Rattle.atlas_sheet.specs.Allowances.{pixels, power_sides, row_length};
ghost use Rattle.atlas_sheet.specs.Packings.{ArePacked, IsLeastFound, IsOrderBy, NoWayPacks, NoneIsFound};
ghost use Rattle.atlas_sheet.specs.Packings.{IsPowerPacked, NoShapePacks};
ghost use Rattle.atlas_sheet.specs.Sheets.{ArePackable};

use crate::allowed::Allowed;
use crate::error::SheetError;
use crate::options::Spacing;
use crate::trials::{Packing, Trial, try_size};
use guillotiere::{Size, size2};
use std::alloc::Allocator;

// Where the search goes on: at the first guess, then further and further away from it, until a size that packs and one
// that doesn't are known; then half way between them.
fn probe(low: u32, high: u32, count: u32, first: u32, step: u32) -> u32
    requires some { low < high }
    requires inside { high ≤ count }
    requires first { first < count }
    ensures from { low ≤ result }
    ensures to { result < high }
{
    if low == 0 && high == count {
        first
    } else if low == 0 {
        high - step.clamp(1, high)
    } else if high == count {
        low + step.min(high - low - 1)
    } else {
        low + (high - low) / 2
    }
}

// How many pixels the sprites ask for, with the padding at one end of each side, or the greatest number.
fn asked_area(sprites: &[Size], padding: u16) -> u64 {
    let mut area: u64 = 0;
    for sprite in sprites {
        let width = sprite.width.max(0) as u64 + u64::from(padding);
        let height = sprite.height.max(0) as u64 + u64::from(padding);
        area = area.saturating_add(width * height);
    }
    area
}

// Whether a sheet has a little more pixels than these.
fn is_roomy(size: Size, pixels: u64) -> bool {
    let area = size.width.max(0) as u64 * size.height.max(0) as u64;
    area >= pixels.saturating_add(pixels / 12)
}

// The first of the allowed sizes that has a little more pixels than the sprites ask for, or the last.
fn first_guess(allowed: Allowed, pixels: u64) -> u32
    requires { IsUsable allowed }
    ensures { result < row_length allowed }
{
    let mut low = 0;
    let mut high = allowed.count() - 1;
    while low < high {
        let middle = low + (high - low) / 2;
        if is_roomy(allowed.nth(middle), pixels) {
            high = middle;
        } else {
            low = middle + 1;
        }
    }
    low
}

// The smallest sheet of a row, by bisection.
fn bisect<A: Allocator + Copy>(
    alloc: A,
    sprites: &[Size],
    trials: &[Trial<A>],
    allowed: Allowed,
    spacing: Spacing,
) -> Result<Option<Packing<A>>, SheetError>
    requires usable { IsUsable allowed }
    requires row { IsRow allowed }
    requires good { ArePackable spacing sprites.now }
    requires orders { All (λ t. IsOrderBy t.way sprites.now t.order.items) trials.now }
    ensures least { IfOk result (λ found. IfSome found (λ sheet. IsLeastFound (map (λ t. t.way) trials.now) allowed
        spacing sprites.now (sides_of sheet.size)
        (record { way = sheet.way; order = sheet.order.items; places = sheet.places.items }))) }
    ensures none { IfOk result (λ found. IfNone found
        (NoneIsFound (map (λ t. t.way) trials.now) allowed spacing sprites.now)) }
    ensures unless { IsOkUnless result Memory }
{
    let count = allowed.count();
    let first = first_guess(allowed, asked_area(sprites, spacing.padding));
    let mut low = 0;
    let mut high = count;
    let mut step = first / 64 + 1;
    let mut best = None;
    while low < high {
        let middle = probe(low, high, count, first, step);
        let size = allowed.nth(middle);
        let found = try_size(alloc, sprites, trials, size, spacing)?;
        if found.is_some() {
            best = found;
            high = middle;
        } else {
            low = middle + 1;
        }
        step = step.saturating_mul(2);
    }
    Ok(best)
}

// A power of two as a side.
fn power(exponent: u32) -> u32
    requires { exponent < 31 }
    ensures value { result ≡ 2 ^ exponent }
    ensures positive { 0 < result }
    ensures small { result < 2147483648 }
{
    1 << exponent
}

// A sheet whose sides are powers of two.
fn power_size(wide: u32, high: u32) -> Size
    requires wide { wide < 31 }
    requires high { high < 31 }
    ensures sides { sides_of result ≡ power_sides wide high }
    ensures positive { IsPositive (sides_of result) }
{
    let width = power(wide) as i32;
    let height = power(high) as i32;
    size2(width, height)
}

// The exponent of the greatest power of two that isn't greater than a side.
fn exponent_of(side: u32) -> u32
    requires positive { 0 < side }
    requires small { side < 2147483648 }
    ensures power { 2 ^ result ≤ side }
    ensures next { side < 2 * 2 ^ result }
    ensures small { result < 31 }
{
    side.ilog2()
}

// The exponent of the greatest power of two that isn't greater than a side with a sign.
fn exponent_in(side: i32) -> u32
    requires { 0 < natural side }
    ensures power { 2 ^ result ≤ natural side }
    ensures next { natural side < 2 * 2 ^ result }
    ensures small { result < 31 }
{
    exponent_of(side as u32)
}

// The sheets of 2 ^ sum pixels, those that are nearest to a square first.
fn try_shapes<A: Allocator + Copy>(
    alloc: A,
    sprites: &[Size],
    trials: &[Trial<A>],
    sum: u32,
    most: u32,
    spacing: Spacing,
) -> Result<Option<Packing<A>>, SheetError>
    requires most { most < 31 }
    requires sum { sum ≤ 2 * most }
    requires good { ArePackable spacing sprites.now }
    requires orders { All (λ t. IsOrderBy t.way sprites.now t.order.items) trials.now }
    ensures packed { IfOk result (λ found. IfSome found (λ sheet. IsPowerPacked (map (λ t. t.way) trials.now) most sum
        spacing sprites.now (sides_of sheet.size)
        (record { way = sheet.way; order = sheet.order.items; places = sheet.places.items }))) }
    ensures none { IfOk result (λ found. IfNone found
        (NoShapePacks (map (λ t. t.way) trials.now) most sum spacing sprites.now)) }
    ensures unless { IsOkUnless result Memory }
{
    for flat in 0..sum / 2 + 1 {
        let less = sum / 2 - flat;
        let more = sum - less;
        if more > most {
            return Ok(None);
        }
        let wide = try_size(alloc, sprites, trials, power_size(more, less), spacing)?;
        if wide.is_some() {
            return Ok(wide);
        }
        let high = try_size(alloc, sprites, trials, power_size(less, more), spacing)?;
        if high.is_some() {
            return Ok(high);
        }
    }
    Ok(None)
}

// The smallest sheet whose sides are powers of two, by the number of pixels.
fn scan<A: Allocator + Copy>(
    alloc: A,
    sprites: &[Size],
    trials: &[Trial<A>],
    greatest: i32,
    spacing: Spacing,
) -> Result<Option<Packing<A>>, SheetError>
    requires positive { 0 < natural greatest }
    requires good { ArePackable spacing sprites.now }
    requires orders { All (λ t. IsOrderBy t.way sprites.now t.order.items) trials.now }
    ensures least { IfOk result (λ found. IfSome found (λ sheet. IsLeastFound (map (λ t. t.way) trials.now)
        (Allowed.Powers greatest) spacing sprites.now (sides_of sheet.size)
        (record { way = sheet.way; order = sheet.order.items; places = sheet.places.items }))) }
    ensures none { IfOk result (λ found. IfNone found
        (NoneIsFound (map (λ t. t.way) trials.now) (Allowed.Powers greatest) spacing sprites.now)) }
    ensures unless { IsOkUnless result Memory }
{
    let most = exponent_in(greatest);
    for sum in 0..2 * most + 1 {
        let found = try_shapes(alloc, sprites, trials, sum, most, spacing)?;
        if found.is_some() {
            return Ok(found);
        }
    }
    Ok(None)
}

// The smallest sheet of those allowed.
pub fn smallest<A: Allocator + Copy>(
    alloc: A,
    sprites: &[Size],
    trials: &[Trial<A>],
    allowed: Allowed,
    spacing: Spacing,
) -> Result<Option<Packing<A>>, SheetError>
    requires usable { IsUsable allowed }
    requires good { ArePackable spacing sprites.now }
    requires orders { All (λ t. IsOrderBy t.way sprites.now t.order.items) trials.now }
    ensures least { IfOk result (λ found. IfSome found (λ sheet. IsLeastFound (map (λ t. t.way) trials.now) allowed
        spacing sprites.now (sides_of sheet.size)
        (record { way = sheet.way; order = sheet.order.items; places = sheet.places.items }))) }
    ensures none { IfOk result (λ found. IfNone found
        (NoneIsFound (map (λ t. t.way) trials.now) allowed spacing sprites.now)) }
    ensures unless { IsOkUnless result Memory }
{
    match allowed {
        Allowed::Powers { greatest } => scan(alloc, sprites, trials, greatest, spacing),
        _ => bisect(alloc, sprites, trials, allowed, spacing),
    }
}

// The greatest sheet whose sides are powers of two.
fn greatest_power(greatest: i32) -> Size
    requires { 0 < natural greatest }
    ensures { IsGreatest (Allowed.Powers greatest) (sides_of result) }
{
    let most = exponent_in(greatest);
    power_size(most, most)
}

/// The allowed sheet whose sides no other exceeds.
pub fn greatest_sheet(allowed: Allowed) -> Size
    requires { IsUsable allowed }
    ensures { IsGreatest allowed (sides_of result) }
{
    match allowed {
        Allowed::Powers { greatest } => greatest_power(greatest),
        _ => allowed.greatest(),
    }
}

// One pixel less.
fn less_one(side: i32) -> i32
    requires { 0 < natural side }
    ensures { natural result + 1 ≡ natural side }
{
    side - 1
}

// Half of a side.
fn half(side: i32) -> i32
    requires { 0 < natural side }
    ensures { natural result ≡ natural side / 2 }
{
    (side as u32 / 2) as i32
}

// A square that is a pixel smaller.
fn smaller_square(size: Size, least: Size) -> Option<Size>
    requires { IsPositive (sides_of size) }
    ensures some { IfSome result (λ t. ((sides_of least).width < (sides_of size).width)
        × ((sides_of t).width + 1 ≡ (sides_of size).width) × ((sides_of t).height + 1 ≡ (sides_of size).height)) }
    ensures none { IfNone result ((sides_of size).width ≤ (sides_of least).width) }
{
    if size.width <= least.width {
        return None;
    }
    Some(size2(less_one(size.width), less_one(size.height)))
}

// A sheet that is a pixel lower.
fn lower(size: Size) -> Option<Size>
    requires { IsPositive (sides_of size) }
    ensures some { IfSome result (λ t. (1 < (sides_of size).height) × ((sides_of t).width ≡ (sides_of size).width)
        × ((sides_of t).height + 1 ≡ (sides_of size).height)) }
    ensures none { IfNone result ((sides_of size).height ≤ 1) }
{
    if size.height <= 1 {
        return None;
    }
    Some(size2(size.width, less_one(size.height)))
}

// A sheet with half of the longer side.
fn smaller_power(size: Size) -> Option<Size>
    requires { IsPositive (sides_of size) }
    ensures some { IfSome result (λ t. HasHalfOf (sides_of t) (sides_of size)) }
    ensures none { IfNone result (((sides_of size).width ≤ 1) × ((sides_of size).height ≤ 1)) }
{
    if size.width > 1 && size.width >= size.height {
        return Some(size2(half(size.width), size.height));
    }
    if size.height > 1 {
        return Some(size2(size.width, half(size.height)));
    }
    None
}

/// The allowed sheet that is one step smaller: a pixel lower, or with half of the longer side among powers of two.
pub fn smaller_sheet(allowed: Allowed, size: Size) -> Option<Size>
    requires usable { IsUsable allowed }
    requires allowed { IsAllowed allowed (sides_of size) }
    requires positive { IsPositive (sides_of size) }
    ensures smaller { IfSome result (λ s. IsAllowed allowed (sides_of s) × (pixels (sides_of s) < pixels (sides_of size))) }
    ensures next { IfSome result (λ s. IsNextSmaller allowed (sides_of size) (sides_of s)) }
    ensures none { IfNone result (HasNoSmaller allowed (sides_of size)) }
{
    match allowed {
        Allowed::One(_) => None,
        Allowed::Squares { .. } => smaller_square(size, allowed.least()),
        Allowed::Heights { .. } => lower(size),
        Allowed::Powers { .. } => smaller_power(size),
    }
}
