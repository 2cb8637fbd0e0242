//! The export that packs sprites known beforehand into several sheets.
ghost use Rattle.std.specs.Prelude.{◌≡◌, ◌≢◌, ◌<◌, ◌≤◌, length, map, IfErr, IfNone, IfOk, IfSome, IsSomeAnd, None};
ghost use Rattle.atlas_sheet.specs.Paging.{OneIsTooLarge};
ghost use Rattle.atlas_sheet.specs.Settings.{IsSheetFault};
ghost use Rattle.guillotiere_c.specs.Numbers.{size_in};
ghost use Rattle.guillotiere_c.specs.SheetNumbers.{sheet_error, sheet_options_in};
ghost use Rattle.guillotiere_c.specs.SheetPages.{AreMorePages, ArePackedPages, ArePagesWritten};

use crate::plain::{BAD_CALL, DONE, EMPTY_SPRITE, GREAT_SPRITE, NO_ROOM, PlainSize, SHORT};
use crate::plain_sheet::{
    PlainOnPage, PlainSheetOptions, sheet_options_for, status_of_sheet_error,
};
use crate::sheet::sizes_of;
use crate::writing::{write_on_pages, write_sizes};
use atlas_sheet::{Pages, SheetError, SheetOptions, pack_pages};
use std::alloc::Global;

// The sheets that the library finds.
fn found(
    alloc: Global,
    sprites: &[PlainSize],
    options: &SheetOptions,
) -> Result<Option<Pages>, SheetError>
    ensures packed { IfOk result (λ found. IfSome found (λ pages.
        ArePackedPages options.now (map size_in sprites.now) pages.sizes.items pages.places.items)) }
    ensures none { IfOk result (λ found. IfNone found (OneIsTooLarge options.now (map size_in sprites.now))) }
    ensures fault { IfErr result (λ e. IsSheetFault options.now (map size_in sprites.now) e) }
{
    let sizes = sizes_of(alloc, sprites)?;
    let pages = pack_pages(alloc, &sizes, options)?;
    Ok(pages)
}

/// Packs all sprites into as few sheets as are found: the greatest of those allowed gets what `guillotiere_fill` places
/// there, the same is done with the sprites that are left, and the last of them get as small a sheet as `guillotiere_pack`
/// finds. For each sheet `effort` changes of the order are tried. `DONE`: `places` has where each sprite lies, in the order
/// of the sprites, `count` how many sheets there are, at most as many as sprites, and `sizes` their sizes; what the arrays
/// have after that stays. No two places on one sheet overlap, and no sheet is empty. There may be no sprites: then there are
/// no sheets.
/// `NO_ROOM` if a sprite is too large for an empty sheet; `SHORT` also if there are more sheets than sizes_len; else as
/// `guillotiere_pack`.
#[unsafe(no_mangle)]
pub extern "C" fn guillotiere_pack_pages(
    alloc: Global,
    sprites: &[PlainSize],
    options: &PlainSheetOptions,
    places: &mut [PlainOnPage],
    sizes: &mut [PlainSize],
    count: &mut usize,
    sprite: &mut usize,
) -> u32
    ensures done { result ≡ DONE → IsSomeAnd (sheet_options_in options.now) (λ o. ArePagesWritten o
        (map size_in sprites.now) count.new (record { places = places.old; sizes = sizes.old })
        (record { places = places.new; sizes = sizes.new })) }
    ensures none { result ≡ NO_ROOM → IsSomeAnd (sheet_options_in options.now)
        (λ o. OneIsTooLarge o (map size_in sprites.now)) }
    ensures bad { result ≡ BAD_CALL → sheet_options_in options.now ≡ None }
    ensures short { result ≡ SHORT → length sprites.now ≤ length places.old
        → IsSomeAnd (sheet_options_in options.now)
        (λ o. AreMorePages o (map size_in sprites.now) (length sizes.old)) }
    ensures bad_first { sheet_options_in options.now ≡ None → result ≡ BAD_CALL }
    ensures short_next { result ≢ BAD_CALL → length places.old < length sprites.now → result ≡ SHORT }
    ensures fault { result ≢ DONE → result ≢ NO_ROOM → result ≢ BAD_CALL → result ≢ SHORT
        → IsSomeAnd (sheet_options_in options.now) (λ o. IsSomeAnd (sheet_error result sprite.new)
        (λ e. IsSheetFault o (map size_in sprites.now) e)) }
    ensures unwritten { result ≢ DONE
        → (places.new ≡ places.old) × (sizes.new ≡ sizes.old) × (count.new ≡ count.old) }
    ensures number { result ≢ EMPTY_SPRITE → result ≢ GREAT_SPRITE → sprite.new ≡ sprite.old }
{
    let Some(options) = sheet_options_for(options) else {
        return BAD_CALL;
    };
    if places.len() < sprites.len() {
        return SHORT;
    }
    match found(alloc, sprites, &options) {
        Ok(Some(pages)) => {
            if sizes.len() < pages.sizes.len() {
                return SHORT;
            }
            write_on_pages(&pages.places, places);
            write_sizes(&pages.sizes, sizes);
            *count = pages.sizes.len();
            DONE
        }
        Ok(None) => NO_ROOM,
        Err(error) => status_of_sheet_error(error, sprite),
    }
}
