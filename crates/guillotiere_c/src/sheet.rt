//! The export that packs sprites known beforehand into a sheet.
ghost use Rattle.std.specs.Prelude.{◌≡◌, ◌≢◌, ◌<◌, ◌≤◌, length, map, IfErr, IfNone, IfOk, IfSome, IsOkUnless, IsSomeAnd};
ghost use Rattle.std.specs.Prelude.{None};
ghost use Rattle.atlas_sheet.specs.declared.error.SheetError.TheVariants.{Memory};
ghost use Rattle.atlas_sheet.specs.Settings.{IsSheetFault};
ghost use Rattle.guillotiere_c.specs.Numbers.{size_in};
ghost use Rattle.guillotiere_c.specs.Packing.{HasNoSheet, IsPackedSheet, IsSheetWritten};
ghost use Rattle.guillotiere_c.specs.SheetNumbers.{sheet_error, sheet_options_in};

use crate::plain::{
    BAD_CALL, DONE, EMPTY_SPRITE, GREAT_SPRITE, NO_ROOM, PlainSize, SHORT, plain_size,
};
use crate::plain_sheet::{
    PlainPlaced, PlainSheetOptions, sheet_options_for, status_of_sheet_error,
};
use crate::writing::write_placed;
use atlas_sheet::{Sheet, SheetError, SheetOptions, pack};
use guillotiere::{Size, size2};
use std::alloc::Global;

/// The sizes of these numbers.
pub fn sizes_of(alloc: Global, numbers: &[PlainSize]) -> Result<Vec<Size>, SheetError>
    ensures sizes { IfOk result (λ sizes. sizes.items ≡ map size_in numbers.now) }
    ensures unless { IsOkUnless result Memory }
{
    let sizes = numbers.iter().map(|size| size2(size.width, size.height));
    Ok(sizes.collect(alloc)?)
}

// The sheet that the library finds.
fn found(
    alloc: Global,
    sprites: &[PlainSize],
    options: &SheetOptions,
) -> Result<Option<Sheet>, SheetError>
    ensures packed { IfOk result (λ found. IfSome found (λ sheet.
        IsPackedSheet options.now (map size_in sprites.now) sheet.size sheet.places.items)) }
    ensures none { IfOk result (λ found. IfNone found (HasNoSheet options.now (map size_in sprites.now))) }
    ensures fault { IfErr result (λ e. IsSheetFault options.now (map size_in sprites.now) e) }
{
    let sizes = sizes_of(alloc, sprites)?;
    let sheet = pack(alloc, &sizes, options)?;
    Ok(sheet)
}

/// Packs all sprites into the smallest sheet of those allowed that is found, by ten ways to order them and then by `effort`
/// small changes of the order. `DONE`: `size` has the sheet's size, and `places` where each sprite lies, in the order of the
/// sprites; no two places overlap, and what `places` has after them stays. Nothing is kept by the library, and nothing is to
/// be freed. There may be no sprites: then the sheet is the least.
/// `NO_ROOM` if not even the greatest sheet took all sprites; `BAD_CALL` if `allowed` is no kind of sheets or the padding is
/// above 65535; `SHORT` if places_len is below sprites_len; `EMPTY_SHEET`; `EMPTY_RANGE`; `EMPTY_ALIGNMENT`; `EMPTY_SPRITE`
/// and `GREAT_SPRITE`, and then `sprite` has the number of the first such sprite, counted from 0, and otherwise it stays as
/// before; `MEMORY`. Faults are looked for in this order; of powers of two and of one width the least side is 1, so a
/// greatest side of 0 is `EMPTY_RANGE`. Sprites that rank equal keep their order: in another order there may be another
/// sheet, or none.
#[unsafe(no_mangle)]
pub extern "C" fn guillotiere_pack(
    alloc: Global,
    sprites: &[PlainSize],
    options: &PlainSheetOptions,
    places: &mut [PlainPlaced],
    size: &mut PlainSize,
    sprite: &mut usize,
) -> u32
    ensures done { result ≡ DONE → IsSomeAnd (sheet_options_in options.now)
        (λ o. IsSheetWritten o (map size_in sprites.now) (size_in size.new) places.old places.new) }
    ensures none { result ≡ NO_ROOM → IsSomeAnd (sheet_options_in options.now)
        (λ o. HasNoSheet o (map size_in sprites.now)) }
    ensures bad { result ≡ BAD_CALL → sheet_options_in options.now ≡ None }
    ensures short { result ≡ SHORT → length sprites.now ≤ length places.old → ⊥ }
    ensures bad_first { sheet_options_in options.now ≡ None → result ≡ BAD_CALL }
    ensures short_next { result ≢ BAD_CALL → length places.old < length sprites.now → result ≡ SHORT }
    ensures fault { result ≢ DONE → result ≢ NO_ROOM → result ≢ BAD_CALL → result ≢ SHORT
        → IsSomeAnd (sheet_options_in options.now) (λ o. IsSomeAnd (sheet_error result sprite.new)
        (λ e. IsSheetFault o (map size_in sprites.now) e)) }
    ensures unwritten { result ≢ DONE → (places.new ≡ places.old) × (size.new ≡ size.old) }
    ensures number { result ≢ EMPTY_SPRITE → result ≢ GREAT_SPRITE → sprite.new ≡ sprite.old }
{
    let Some(options) = sheet_options_for(options) else {
        return BAD_CALL;
    };
    if places.len() < sprites.len() {
        return SHORT;
    }
    match found(alloc, sprites, &options) {
        Ok(Some(sheet)) => {
            write_placed(&sheet.places, places);
            *size = plain_size(sheet.size);
            DONE
        }
        Ok(None) => NO_ROOM,
        Err(error) => status_of_sheet_error(error, sprite),
    }
}
