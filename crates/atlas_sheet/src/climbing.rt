//! Climbing: an order is changed a little, and what fills a sheet no worse stays.
ghost use Rattle.std.specs.Prelude.{◌≡◌, ◌≤◌, ◌↔◌, All, IfOk, IsOkUnless, IsSome, IsTrue};
ghost use Rattle.guillotiere.specs.Boxes.{IsPositive};
ghost use Rattle.guillotiere.specs.Pixels.{sides_of};
ghost use Rattle.atlas_sheet.specs.declared.error.SheetError.TheVariants.{Memory};
ghost use Rattle.atlas_sheet.specs.Lying.{IsArranged};
ghost use Rattle.atlas_sheet.specs.Orders.{IsOrderOf};
ghost use Rattle.atlas_sheet.specs.Settings.{spacing_of};
ghost use Rattle.atlas_sheet.specs.Sheets.{ArePackable, used_area};

use crate::arrangement::Arrangement;
use crate::changes::change_of;
use crate::error::SheetError;
use crate::filling::used_area;
use crate::options::SheetOptions;
use crate::places::find_places;
use crate::random::Random;
use crate::ways::Choice;
use guillotiere::Size;
use std::alloc::Allocator;

/// Whether each sprite has a place.
pub fn is_whole<A: Allocator>(arrangement: &Arrangement<A>) -> bool
    ensures { IsTrue result ↔ All IsSome arrangement.now.places.items }
{
    arrangement.places.iter().all(|place| place.is_some())
}

/// What sprites that lie this way find in a sheet when they ask in this order.
pub fn asked_in<A: Allocator + Copy>(
    alloc: A,
    options: &SheetOptions,
    size: Size,
    choice: Choice,
    sprites: &[Size],
    order: &[(usize, Size)],
) -> Result<Arrangement<A>, SheetError>
    requires positive { IsPositive (sides_of size) }
    requires good { ArePackable (spacing_of options.now) sprites.now }
    requires permuted { IsOrderOf sprites.now order.now }
    ensures arranged { IfOk result (IsArranged options.now sprites.now) }
    ensures size { IfOk result (λ a. a.size ≡ size) }
    ensures unless { IsOkUnless result Memory }
{
    let places = find_places(alloc, sprites, order, size, options.spacing(), choice)?;
    let lying = Vec::from_slice(alloc, sprites)?;
    let order = Vec::from_slice(alloc, order)?;
    Ok(Arrangement {
        size,
        choice,
        lying,
        order,
        places,
    })
}

// An arrangement's sprites in another order, with one change, and what they find in it.
fn changed<A: Allocator + Copy>(
    alloc: A,
    options: &SheetOptions,
    random: &mut Random,
    from: &Arrangement<A>,
) -> Result<Arrangement<A>, SheetError>
    requires positive { IsPositive (sides_of from.now.size) }
    requires good { ArePackable (spacing_of options.now) from.now.lying.items }
    requires permuted { IsOrderOf from.now.lying.items from.now.order.items }
    ensures arranged { IfOk result (IsArranged options.now from.now.lying.items) }
    ensures size { IfOk result (λ to. to.size ≡ from.now.size) }
    ensures unless { IsOkUnless result Memory }
{
    let asking = change_of(alloc, random, options.turn, &from.lying, &from.order)?;
    let to = asked_in(
        alloc,
        options,
        from.size,
        from.choice,
        &asking.lying,
        &asking.order,
    )?;
    Ok(to)
}

/// Changes the order of an arrangement as long as there are tries and a sprite has no place. A change stays if the
/// places have no fewer pixels with it.
pub fn improve<A: Allocator + Copy>(
    alloc: A,
    options: &SheetOptions,
    random: &mut Random,
    tries: &mut u32,
    first: Arrangement<A>,
) -> Result<Arrangement<A>, SheetError>
    requires positive { IsPositive (sides_of first.size) }
    requires good { ArePackable (spacing_of options.now) first.lying.items }
    requires arranged { IsArranged options.now first.lying.items first }
    ensures arranged { IfOk result (IsArranged options.now first.lying.items) }
    ensures size { IfOk result (λ best. best.size ≡ first.size) }
    ensures more { IfOk result (λ best. used_area first.places.items ≤ used_area best.places.items) }
    ensures tries { tries.new ≤ tries.old }
    ensures unless { IsOkUnless result Memory }
{
    let mut best = first;
    let mut most = used_area(&best.places);
    while *tries > 0 && !is_whole(&best) {
        *tries -= 1;
        let next = changed(alloc, options, random, &best)?;
        let area = used_area(&next.places);
        if most <= area {
            best = next;
            most = area;
        }
    }
    Ok(best)
}
