//! A sheet of one size with as many pixels of sprites as it takes.
ghost use Rattle.std.specs.Prelude.{◌≡◌, ◌+◌, ◌<◌, ◌≤◌, ◌↔◌, length, All, IfErr, IfOk, IsOkUnless, IsTrue, OnOk};
ghost use Rattle.guillotiere.specs.Boxes.{IsPositive};
ghost use Rattle.guillotiere.specs.Pixels.{natural, sides_of};
ghost use Rattle.atlas_sheet.specs.declared.error.SheetError.TheVariants.{Memory};
ghost use Rattle.atlas_sheet.specs.Fillings.{AreBest, HasFault, IsSpriteFault};
ghost use Rattle.atlas_sheet.specs.Sheets.{ArePackable, ArePlaces, IsPackable, place_area, used_area};

use crate::error::SheetError;
use crate::options::Spacing;
use crate::places::{Found, try_way};
use crate::ways::Way;
use guillotiere::{Rectangle, Size};
use std::alloc::Allocator;

/// What the best of several ways finds.
#[derive(Drop)]
pub struct Filling<A: Allocator> {
    pub way: Way,
    pub found: Found<A>,
    /// How many pixels the places have together.
    pub used_area: u128,
}

// Whether a side with the padding at both its ends is at most 2147483647.
fn is_short(side: i32, padding: u16) -> bool
    requires { 0 < natural side }
    ensures { IsTrue result ↔ (natural side + padding + padding ≤ 2147483647) }
{
    side <= i32::MAX - 2 * i32::from(padding)
}

// Whether a sprite can be packed.
fn check_sprite(number: usize, sprite: Size, spacing: Spacing) -> Result<(), SheetError>
    ensures ok { OnOk result (IsPackable spacing sprite) }
    ensures fault { IfErr result (λ e. IsSpriteFault spacing number sprite e) }
{
    if !sprite.is_positive() {
        return Err(SheetError::EmptySprite(number));
    }
    if !is_short(sprite.width, spacing.padding) || !is_short(sprite.height, spacing.padding) {
        return Err(SheetError::GreatSprite(number));
    }
    Ok(())
}

// Whether all sprites can be packed.
pub fn check(sprites: &[Size], spacing: Spacing) -> Result<(), SheetError>
    ensures ok { OnOk result (All (IsPackable spacing) sprites.now) }
    ensures fault { IfErr result (λ e. HasFault spacing sprites.now e) }
{
    for (number, sprite) in sprites.iter().enumerate() {
        check_sprite(number, *sprite, spacing)?;
    }
    Ok(())
}

/// A coordinate or a side, or 0 for one below 0.
pub fn from_zero(coordinate: i32) -> u64
    ensures value { result ≡ natural coordinate }
    ensures small { result ≤ 2147483647 }
{
    coordinate.max(0) as u64
}

// How many pixels a place has.
fn place_area(place: Option<Rectangle>) -> u64
    ensures { result ≡ place_area place }
{
    let Some(place) = place else {
        return 0;
    };
    let width = from_zero(place.max.x).saturating_sub(from_zero(place.min.x));
    let height = from_zero(place.max.y).saturating_sub(from_zero(place.min.y));
    width * height
}

// How many pixels the places have together.
pub fn used_area(places: &[Option<Rectangle>]) -> u128
    ensures { result ≡ used_area places.now }
{
    let mut area = 0;
    for place in places {
        area += u128::from(place_area(*place));
    }
    area
}

// What these ways find, from the best one so far on.
pub fn fill_by<A: Allocator + Copy>(
    alloc: A,
    sprites: &[Size],
    size: Size,
    spacing: Spacing,
    ways: &[Way],
) -> Result<Filling<A>, SheetError>
    requires positive { IsPositive (sides_of size) }
    requires good { ArePackable spacing sprites.now }
    requires ways { 0 < length ways.now }
    ensures places { IfOk result (λ filling.
        ArePlaces (sides_of size) spacing sprites.now filling.found.places.items) }
    ensures area { IfOk result (λ filling. filling.used_area ≡ used_area filling.found.places.items) }
    ensures best { IfOk result (λ filling. AreBest ways.now (sides_of size) spacing sprites.now filling.way
        filling.found.order.items filling.found.places.items) }
    ensures unless { IsOkUnless result Memory }
{
    let mut best = Found {
        order: Vec::new(alloc),
        places: Vec::new(alloc),
    };
    let mut best_way = ways[0];
    let mut most = 0;
    for way in ways {
        let found = try_way(alloc, sprites, size, spacing, *way)?;
        let area = used_area(&found.places);
        if most <= area {
            best = found;
            best_way = *way;
            most = area;
        }
    }
    Ok(Filling {
        way: best_way,
        found: best,
        used_area: most,
    })
}
