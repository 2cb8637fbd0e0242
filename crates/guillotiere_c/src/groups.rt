//! The export that packs sprites known beforehand into several sheets, those of a group on one.
ghost use Rattle.std.specs.Prelude.{◌≡◌, ◌≢◌, ◌<◌, ◌≤◌, length, map, IfErr, IfNone, IfOk, IfSome, IsOkUnless, IsSomeAnd, None};
ghost use Rattle.atlas_sheet.specs.declared.error.SheetError.TheVariants.{Memory};
ghost use Rattle.atlas_sheet.specs.Paging.{OneIsTooLarge};
ghost use Rattle.atlas_sheet.specs.Settings.{IsSheetFault};
ghost use Rattle.guillotiere_c.specs.Numbers.{size_in};
ghost use Rattle.guillotiere_c.specs.SheetGroups.{AreGroupedPages, AreGroupsWritten, AreMoreGroups, group_in};
ghost use Rattle.guillotiere_c.specs.SheetNumbers.{sheet_error, sheet_options_in};

use crate::plain::{
    BAD_CALL, DONE, EMPTY_SPRITE, GREAT_SPRITE, NO_GROUP, NO_ROOM, PlainSize, SHORT,
};
use crate::plain_sheet::{
    PlainOnPage, PlainSheetOptions, sheet_options_for, status_of_sheet_error,
};
use crate::sheet::sizes_of;
use crate::writing::{write_on_pages, write_sizes};
use atlas_sheet::{Pages, SheetError, SheetOptions, pack_groups};
use std::alloc::Global;

// The group with this number.
fn group_of(number: u32) -> Option<usize>
    ensures { result ≡ group_in number }
{
    if number == NO_GROUP {
        None
    } else {
        Some(number as usize)
    }
}

// The groups with these numbers.
fn groups_of(alloc: Global, numbers: &[u32]) -> Result<Vec<Option<usize>>, SheetError>
    ensures groups { IfOk result (λ groups. groups.items ≡ map group_in numbers.now) }
    ensures unless { IsOkUnless result Memory }
{
    let groups = numbers.iter().map(|number| group_of(*number));
    Ok(groups.collect(alloc)?)
}

// The sheets that the library finds.
fn found(
    alloc: Global,
    sprites: &[PlainSize],
    groups: &[u32],
    options: &SheetOptions,
) -> Result<Option<Pages>, SheetError>
    ensures packed { IfOk result (λ found. IfSome found (λ pages. AreGroupedPages options.now
        (map size_in sprites.now) (map group_in groups.now) pages.sizes.items pages.places.items)) }
    ensures none { IfOk result (λ found. IfNone found (OneIsTooLarge options.now (map size_in sprites.now))) }
    ensures fault { IfErr result (λ e. IsSheetFault options.now (map size_in sprites.now) e) }
{
    let sizes = sizes_of(alloc, sprites)?;
    let numbers = groups_of(alloc, groups)?;
    let pages = pack_groups(alloc, &sizes, &numbers, options)?;
    Ok(pages)
}

/// Packs as `guillotiere_pack_pages`, with all sprites of a group on one sheet. `groups` has the number of each sprite's
/// group, in the order of the sprites; `GUILLOTIERE_NO_GROUP`, or no number where groups_len is below sprites_len, says that
/// a sprite is in none, and numbers past the last sprite are ignored. A group that none of the ten ways packs by itself into
/// the greatest of the sheets allowed is given up before the first sheet is begun: each of its sprites counts as one in no
/// group. The other groups come in the order of their first sprites. The first opens a sheet; then each other group that the
/// greatest sheet takes as well goes onto it, and then sprites in no group, in their order: all, or so many that it doesn't
/// take the next one as well. Then the sheet is made as small as `guillotiere_pack` finds it. Once no group is left, the
/// sprites without a place are packed as by `guillotiere_pack_pages`. All else as `guillotiere_pack_pages`.
#[unsafe(no_mangle)]
pub extern "C" fn guillotiere_pack_groups(
    alloc: Global,
    sprites: &[PlainSize],
    groups: &[u32],
    options: &PlainSheetOptions,
    places: &mut [PlainOnPage],
    sizes: &mut [PlainSize],
    count: &mut usize,
    sprite: &mut usize,
) -> u32
    ensures done { result ≡ DONE → IsSomeAnd (sheet_options_in options.now) (λ o. AreGroupsWritten o
        (map size_in sprites.now) (map group_in groups.now) count.new
        (record { places = places.old; sizes = sizes.old }) (record { places = places.new; sizes = sizes.new })) }
    ensures none { result ≡ NO_ROOM → IsSomeAnd (sheet_options_in options.now)
        (λ o. OneIsTooLarge o (map size_in sprites.now)) }
    ensures bad { result ≡ BAD_CALL → sheet_options_in options.now ≡ None }
    ensures short { result ≡ SHORT → length sprites.now ≤ length places.old
        → IsSomeAnd (sheet_options_in options.now)
        (λ o. AreMoreGroups o (map size_in sprites.now) (map group_in groups.now) (length sizes.old)) }
    ensures bad_first { sheet_options_in options.now ≡ None → result ≡ BAD_CALL }
    ensures short_next { result ≢ BAD_CALL → length places.old < length sprites.now → result ≡ SHORT }
    ensures fault { result ≢ DONE → result ≢ NO_ROOM → result ≢ BAD_CALL → result ≢ SHORT
        → IsSomeAnd (sheet_options_in options.now) (λ o. IsSomeAnd (sheet_error result sprite.new)
        (λ e. IsSheetFault o (map size_in sprites.now) e)) }
    ensures unwritten { result ≢ DONE
        → (places.new ≡ places.old) × (sizes.new ≡ sizes.old) × (count.new ≡ count.old) }
    ensures number { result ≢ EMPTY_SPRITE → result ≢ GREAT_SPRITE → sprite.new ≡ sprite.old }
{
    let Some(options) = sheet_options_for(options) else {
        return BAD_CALL;
    };
    if places.len() < sprites.len() {
        return SHORT;
    }
    match found(alloc, sprites, groups, &options) {
        Ok(Some(pages)) => {
            if sizes.len() < pages.sizes.len() {
                return SHORT;
            }
            write_on_pages(&pages.places, places);
            write_sizes(&pages.sizes, sizes);
            *count = pages.sizes.len();
            DONE
        }
        Ok(None) => NO_ROOM,
        Err(error) => status_of_sheet_error(error, sprite),
    }
}
