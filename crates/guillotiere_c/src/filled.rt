//! The export that fills one sheet with sprites known beforehand.
ghost use Rattle.std.specs.Prelude.{◌≡◌, ◌≢◌, ◌<◌, ◌≤◌, length, map, IfErr, IfOk, IsSomeAnd, None};
ghost use Rattle.atlas_sheet.specs.Settings.{IsSheetFault};
ghost use Rattle.guillotiere_c.specs.Filling.{IsFilledSheet, IsFillingWritten, unplaced};
ghost use Rattle.guillotiere_c.specs.Numbers.{size_in};
ghost use Rattle.guillotiere_c.specs.SheetNumbers.{sheet_error, sheet_options_in};

use crate::plain::{BAD_CALL, DONE, EMPTY_SPRITE, GREAT_SPRITE, PlainSize, SHORT, plain_size};
use crate::plain_sheet::{
    PlainMaybePlaced, PlainSheetOptions, sheet_options_for, status_of_sheet_error,
};
use crate::sheet::sizes_of;
use crate::writing::write_maybe_placed;
use atlas_sheet::{Filled, Placed, SheetError, SheetOptions, fill};
use std::alloc::Global;

// The sheet that the library fills.
fn filled(
    alloc: Global,
    sprites: &[PlainSize],
    options: &SheetOptions,
) -> Result<Filled, SheetError>
    ensures filled { IfOk result (λ filled.
        IsFilledSheet options.now (map size_in sprites.now) filled.size filled.places.items) }
    ensures fault { IfErr result (λ e. IsSheetFault options.now (map size_in sprites.now) e) }
{
    let sizes = sizes_of(alloc, sprites)?;
    let filled = fill(alloc, &sizes, options)?;
    Ok(filled)
}

// How many sprites have no place.
fn unplaced(places: &[Option<Placed>]) -> usize
    ensures { result ≡ unplaced places.now }
{
    let mut left = 0;
    for place in places {
        if place.is_none() {
            left += 1;
        }
    }
    left
}

/// Places sprites in the greatest sheet that is allowed, as many pixels of them as it finds room for. `DONE`, even if not all
/// of them have a place: `places` has a place or none for each, in the order of the sprites, `left` how many have none, and
/// `size` the sheet's size. Never `NO_ROOM`; else as `guillotiere_pack`.
#[unsafe(no_mangle)]
pub extern "C" fn guillotiere_fill(
    alloc: Global,
    sprites: &[PlainSize],
    options: &PlainSheetOptions,
    places: &mut [PlainMaybePlaced],
    left: &mut usize,
    size: &mut PlainSize,
    sprite: &mut usize,
) -> u32
    ensures done { result ≡ DONE → IsSomeAnd (sheet_options_in options.now) (λ o. IsFillingWritten o
        (map size_in sprites.now) (size_in size.new) left.new places.old places.new) }
    ensures bad { result ≡ BAD_CALL → sheet_options_in options.now ≡ None }
    ensures short { result ≡ SHORT → length sprites.now ≤ length places.old → ⊥ }
    ensures bad_first { sheet_options_in options.now ≡ None → result ≡ BAD_CALL }
    ensures short_next { result ≢ BAD_CALL → length places.old < length sprites.now → result ≡ SHORT }
    ensures fault { result ≢ DONE → result ≢ BAD_CALL → result ≢ SHORT
        → IsSomeAnd (sheet_options_in options.now) (λ o. IsSomeAnd (sheet_error result sprite.new)
        (λ e. IsSheetFault o (map size_in sprites.now) e)) }
    ensures unwritten { result ≢ DONE
        → (places.new ≡ places.old) × (left.new ≡ left.old) × (size.new ≡ size.old) }
    ensures number { result ≢ EMPTY_SPRITE → result ≢ GREAT_SPRITE → sprite.new ≡ sprite.old }
{
    let Some(options) = sheet_options_for(options) else {
        return BAD_CALL;
    };
    if places.len() < sprites.len() {
        return SHORT;
    }
    match filled(alloc, sprites, &options) {
        Ok(sheet) => {
            write_maybe_placed(&sheet.places, places);
            *left = unplaced(&sheet.places);
            *size = plain_size(sheet.size);
            DONE
        }
        Err(error) => status_of_sheet_error(error, sprite),
    }
}
