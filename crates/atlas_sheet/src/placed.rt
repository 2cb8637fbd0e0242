//! Where sprites lie in a sheet.
ghost use Rattle.std.specs.Prelude.{◌≡◌, ◌≢◌, map, true, All, IfOk, IfSome, IsOkUnless, IsSome};
ghost use Rattle.std.specs.List.{AllZip};
ghost use Rattle.guillotiere.specs.Pixels.{sides_of};
ghost use Rattle.atlas_sheet.specs.declared.error.SheetError.TheVariants.{Memory};
ghost use Rattle.atlas_sheet.specs.Lying.{IsArranged, IsPlacedFor, MayLie, areas_of, lie, placed_area};
ghost use Rattle.atlas_sheet.specs.Settings.{spacing_of};

use crate::arrangement::Arrangement;
use crate::error::SheetError;
use crate::options::SheetOptions;
use guillotiere::{Rectangle, Size};
use std::alloc::Allocator;

/// Where a sprite lies in a sheet.
#[derive(Clone, Copy, Debug, PartialEq, Eq)]
pub struct Placed {
    /// Its place, in pixels, without the padding.
    pub area: Rectangle,
    /// Whether it is turned by 90 degrees: the place is as wide as the sprite is high. A square sprite never is.
    pub turned: bool,
}

// Where a sprite lies that has a place.
fn placed_in(turn: bool, sprite: Size, lying: Size, place: Option<Rectangle>) -> Option<Placed>
    ensures area { placed_area result ≡ place }
    ensures turned { MayLie turn sprite lying
        → IfSome result (λ p. (lie p.turned sprite ≡ lying) × (p.turned ≡ true → turn ≡ true)
        × (p.turned ≡ true → lying ≢ sprite)) }
{
    let Some(area) = place else {
        return None;
    };
    Some(Placed {
        area,
        turned: turn && lying != sprite,
    })
}

/// The places of an arrangement, each with how its sprite lies.
pub fn placed_all<A: Allocator + Copy>(
    alloc: A,
    sprites: &[Size],
    options: &SheetOptions,
    arrangement: &Arrangement<A>,
) -> Result<Vec<Option<Placed>, A>, SheetError>
    requires { IsArranged options.now sprites.now arrangement.now }
    ensures areas { IfOk result (λ placed. areas_of placed.items ≡ arrangement.now.places.items) }
    ensures each { IfOk result (λ placed. AllZip (λ sprite p. IfSome p
        (IsPlacedFor (sides_of arrangement.now.size) (spacing_of options.now) options.now.turn sprite))
        sprites.now placed.items) }
    ensures unless { IsOkUnless result Memory }
{
    let mut placed = Vec::new(alloc);
    for (number, place) in arrangement.places.iter().enumerate() {
        placed.push(placed_in(
            options.turn,
            sprites[number],
            arrangement.lying[number],
            *place,
        ))?;
    }
    Ok(placed)
}

/// The places, where each sprite has one.
pub fn whole<A: Allocator + Copy>(
    alloc: A,
    places: &[Option<Placed>],
) -> Result<Vec<Placed, A>, SheetError>
    requires { All IsSome places.now }
    ensures all { IfOk result (λ all. map Some all.items ≡ places.now) }
    ensures unless { IsOkUnless result Memory }
{
    let mut all = Vec::new(alloc);
    for place in places {
        if let Some(placed) = place {
            all.push(*placed)?;
        }
    }
    Ok(all)
}
