//! All ways to place sprites, each with its order.
ghost use Rattle.std.specs.Prelude.{◌≡◌, map, All, IfNone, IfOk, IfSome, IsOkUnless, List};
ghost use Rattle.guillotiere.specs.Boxes.{IsPositive};
ghost use Rattle.guillotiere.specs.Pixels.{sides_of};
ghost use Rattle.atlas_sheet.specs.declared.error.SheetError.TheVariants.{Memory};
ghost use Rattle.atlas_sheet.specs.Firsts.{StandsAfter};
ghost use Rattle.atlas_sheet.specs.Packings.{ArePacked, IsOrderBy, LeavesSprite, NoWayPacks};
ghost use Rattle.atlas_sheet.specs.Sheets.{ArePackable};
ghost use Rattle.atlas_sheet.specs.declared.ways.Way.{Way};

use crate::error::SheetError;
use crate::options::Spacing;
use crate::orders::greatest_first;
use crate::places::find_all;
use crate::ways::Way;
use guillotiere::{Rectangle, Size};
use std::alloc::Allocator;

/// A way with its order of the sprites.
#[derive(Drop)]
pub struct Trial<A: Allocator> {
    pub way: Way,
    pub order: Vec<(usize, Size), A>,
}

// Each of these ways with its order.
pub fn trials_of<A: Allocator + Copy>(
    alloc: A,
    sprites: &[Size],
    ways: &[Way],
) -> Result<Vec<Trial<A>, A>, SheetError>
    ensures ways { IfOk result (λ trials. map (λ t. t.way) trials.items ≡ ways.now) }
    ensures orders { IfOk result (λ trials. All (λ t. IsOrderBy t.way sprites.now t.order.items) trials.items) }
    ensures unless { IsOkUnless result Memory }
{
    let mut trials = Vec::new(alloc);
    for way in ways {
        let order = greatest_first(alloc, sprites, way.key)?;
        trials.push(Trial { way: *way, order })?;
    }
    Ok(trials)
}

/// A sheet that takes all sprites, and the way that packs them.
#[derive(Drop)]
pub struct Packing<A: Allocator> {
    pub size: Size,
    pub way: Way,
    pub order: Vec<(usize, Size), A>,
    pub places: Vec<Rectangle, A>,
}

// All sprites in a sheet of this size by one way, if it packs them.
fn try_trial<A: Allocator + Copy>(
    alloc: A,
    sprites: &[Size],
    trial: &Trial<A>,
    size: Size,
    spacing: Spacing,
) -> Result<Option<Packing<A>>, SheetError>
    requires positive { IsPositive (sides_of size) }
    requires good { ArePackable spacing sprites.now }
    requires order { IsOrderBy trial.now.way sprites.now trial.now.order.items }
    ensures size { IfOk result (λ found. IfSome found (λ p. p.size ≡ size)) }
    ensures packed { IfOk result (λ found. IfSome found (λ p. (ways : List Way)
        → StandsAfter (LeavesSprite (sides_of size) spacing sprites.now) ways trial.now.way
        → ArePacked ways (sides_of size) spacing sprites.now
        (record { way = p.way; order = p.order.items; places = p.places.items }))) }
    ensures left { IfOk result (λ found. IfNone found
        (LeavesSprite (sides_of size) spacing sprites.now trial.now.way)) }
    ensures unless { IsOkUnless result Memory }
{
    let way = trial.way;
    let found = find_all(alloc, sprites, &trial.order, size, spacing, way.choice)?;
    let Some(places) = found else {
        return Ok(None);
    };
    let order = Vec::from_slice(alloc, &trial.order)?;
    Ok(Some(Packing {
        size,
        way,
        order,
        places,
    }))
}

// All sprites in a sheet of this size by the first way that packs them, if one does.
pub fn try_size<A: Allocator + Copy>(
    alloc: A,
    sprites: &[Size],
    trials: &[Trial<A>],
    size: Size,
    spacing: Spacing,
) -> Result<Option<Packing<A>>, SheetError>
    requires positive { IsPositive (sides_of size) }
    requires good { ArePackable spacing sprites.now }
    requires orders { All (λ t. IsOrderBy t.way sprites.now t.order.items) trials.now }
    ensures size { IfOk result (λ found. IfSome found (λ p. p.size ≡ size)) }
    ensures packed { IfOk result (λ found. IfSome found (λ p.
        ArePacked (map (λ t. t.way) trials.now) (sides_of size) spacing sprites.now
        (record { way = p.way; order = p.order.items; places = p.places.items }))) }
    ensures none { IfOk result (λ found. IfNone found
        (NoWayPacks (map (λ t. t.way) trials.now) (sides_of size) spacing sprites.now)) }
    ensures unless { IsOkUnless result Memory }
{
    for trial in trials {
        let found = try_trial(alloc, sprites, trial, size, spacing)?;
        if found.is_some() {
            return Ok(found);
        }
    }
    Ok(None)
}
