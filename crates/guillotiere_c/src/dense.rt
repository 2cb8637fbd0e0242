//! The export that packs sprites known beforehand into a sheet with no guillotine cuts.
ghost use Rattle.std.specs.Prelude.{◌≡◌, ◌≢◌, ◌<◌, ◌≤◌, length, map, IfErr, IfNone, IfOk, IfSome, IsSomeAnd, None};
ghost use Rattle.atlas_sheet.specs.Settings.{IsSheetFault};
ghost use Rattle.guillotiere_c.specs.DensePacking.{HasNoDenseSheet, IsDenseSheet, IsDenseSheetWritten};
ghost use Rattle.guillotiere_c.specs.Numbers.{size_in};
ghost use Rattle.guillotiere_c.specs.SheetNumbers.{sheet_error, sheet_options_in};

use crate::plain::{
    BAD_CALL, DONE, EMPTY_SPRITE, GREAT_SPRITE, NO_ROOM, PlainSize, SHORT, plain_size,
};
use crate::plain_sheet::{
    PlainPlaced, PlainSheetOptions, sheet_options_for, status_of_sheet_error,
};
use crate::sheet::sizes_of;
use crate::writing::write_placed;
use atlas_sheet::{Sheet, SheetError, SheetOptions, pack_dense};
use std::alloc::Global;

// The sheet that the library finds.
fn found(
    alloc: Global,
    sprites: &[PlainSize],
    options: &SheetOptions,
) -> Result<Option<Sheet>, SheetError>
    ensures packed { IfOk result (λ found. IfSome found (λ sheet.
        IsDenseSheet options.now (map size_in sprites.now) sheet.size sheet.places.items)) }
    ensures none { IfOk result (λ found. IfNone found (HasNoDenseSheet options.now (map size_in sprites.now))) }
    ensures fault { IfErr result (λ e. IsSheetFault options.now (map size_in sprites.now) e) }
{
    let sizes = sizes_of(alloc, sprites)?;
    let sheet = pack_dense(alloc, &sizes, options)?;
    Ok(sheet)
}

/// Packs as `guillotiere_pack`, and then tries smaller sheets of those allowed, laid out without guillotine cuts: each
/// sprite, the highest first, as high up as it can lie, and there as far left. The sheet never has more pixels than that of
/// `guillotiere_pack`; in one that has fewer no sprite is turned. It may find a sheet where `guillotiere_pack` finds none. It
/// takes longer. All else as `guillotiere_pack`.
#[unsafe(no_mangle)]
pub extern "C" fn guillotiere_pack_dense(
    alloc: Global,
    sprites: &[PlainSize],
    options: &PlainSheetOptions,
    places: &mut [PlainPlaced],
    size: &mut PlainSize,
    sprite: &mut usize,
) -> u32
    ensures done { result ≡ DONE → IsSomeAnd (sheet_options_in options.now)
        (λ o. IsDenseSheetWritten o (map size_in sprites.now) (size_in size.new) places.old places.new) }
    ensures none { result ≡ NO_ROOM → IsSomeAnd (sheet_options_in options.now)
        (λ o. HasNoDenseSheet o (map size_in sprites.now)) }
    ensures bad { result ≡ BAD_CALL → sheet_options_in options.now ≡ None }
    ensures short { result ≡ SHORT → length sprites.now ≤ length places.old → ⊥ }
    ensures bad_first { sheet_options_in options.now ≡ None → result ≡ BAD_CALL }
    ensures short_next { result ≢ BAD_CALL → length places.old < length sprites.now → result ≡ SHORT }
    ensures fault { result ≢ DONE → result ≢ NO_ROOM → result ≢ BAD_CALL → result ≢ SHORT
        → IsSomeAnd (sheet_options_in options.now) (λ o. IsSomeAnd (sheet_error result sprite.new)
        (λ e. IsSheetFault o (map size_in sprites.now) e)) }
    ensures unwritten { result ≢ DONE → (places.new ≡ places.old) × (size.new ≡ size.old) }
    ensures number { result ≢ EMPTY_SPRITE → result ≢ GREAT_SPRITE → sprite.new ≡ sprite.old }
{
    let Some(options) = sheet_options_for(options) else {
        return BAD_CALL;
    };
    if places.len() < sprites.len() {
        return SHORT;
    }
    match found(alloc, sprites, &options) {
        Ok(Some(sheet)) => {
            write_placed(&sheet.places, places);
            *size = plain_size(sheet.size);
            DONE
        }
        Ok(None) => NO_ROOM,
        Err(error) => status_of_sheet_error(error, sprite),
    }
}
