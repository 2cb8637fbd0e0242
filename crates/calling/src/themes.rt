//! Icons of several themes, those of a theme on one texture.
ghost use Rattle.std.specs.Prelude.{◌≡◌, ◌⊎◌, ℕ, length, IfOk, IfSome};
ghost use Rattle.atlas_sheet.specs.Dense.{NoWayFinds};
ghost use Rattle.atlas_sheet.specs.Grouping.{LieTogether, members};
ghost use Rattle.atlas_sheet.specs.Paging.{NoPlacesOverlap};

use atlas_sheet::{Pages, SheetError, SheetOptions, pack_groups};
use guillotiere::Size;
use std::alloc::Allocator;

/// Packs icons on textures. All icons of a theme lie on one of them, unless no way packs the theme alone into one.
pub fn textures_of<A: Allocator + Copy>(
    alloc: A,
    icons: &[Size],
    themes: &[Option<usize>],
    options: &SheetOptions,
) -> Result<Option<Pages<A>>, SheetError>
    ensures count { IfOk result (λ found. IfSome found (λ p. length p.places.items ≡ length icons.now)) }
    ensures apart { IfOk result (λ found. IfSome found (λ p. NoPlacesOverlap p.sizes.items p.places.items)) }
    ensures together { IfOk result (λ found. IfSome found (λ p. (theme : ℕ) → LieTogether theme themes.now p.places.items
        ⊎ NoWayFinds options.now (members theme themes.now icons.now))) }
{
    pack_groups(alloc, icons, themes, options)
}
