//! What crosses to C of sheets: options and places. All lengths are in pixels.
ghost use Rattle.std.specs.Prelude.{◌≡◌, ◌≢◌, Some};
ghost use Rattle.guillotiere_c.specs.SheetNumbers.{allowed_in, maybe_placed_in, on_page_in, options_over, placed_in};
ghost use Rattle.guillotiere_c.specs.SheetNumbers.{sheet_error, sheet_options_in, IsMaybeToldByBit, IsPageToldByBit, IsToldByBit};

use crate::plain::{
    BAD_CALL, DONE, EMPTY_ALIGNMENT, EMPTY_RANGE, EMPTY_SHEET, EMPTY_SPRITE, GREAT_SPRITE, HEIGHTS,
    MEMORY, NO_ROOM, ONE_SIZE, POWERS, PlainRectangle, SHORT, SQUARES, plain_rectangle,
};
use atlas_sheet::{Allowed, OnPage, Placed, SheetError, SheetOptions};
use guillotiere::size2;

/// Which sheets are allowed, and how sprites lie in them. Of `width`, `height`, `least` and `greatest`, in pixels, only those
/// that the kind names are read.
#[repr(C)]
#[derive(Clone, Copy)]
pub struct PlainSheetOptions {
    /// A kind of sheets.
    pub allowed: u32,
    pub width: i32,
    pub height: i32,
    pub least: i32,
    pub greatest: i32,
    /// The least number of pixels between two sprites, and between a sprite and the border: at most 65535.
    pub padding: u32,
    /// Each place, with the padding at its left and above, begins on multiples of these two sides, which are at least 1,
    /// and takes multiples of them, also at the right and lower border. The padding at its right and below comes after that:
    /// with 4 by 4 and a padding of 1 a sprite of 1 by 1 needs a sheet of 5 by 5.
    pub alignment_width: i32,
    pub alignment_height: i32,
    /// 0 for no turning; otherwise a sprite may lie turned by 90 degrees.
    pub turn: u32,
    /// How many more orders of the sprites are tried: 0 for none, 20000 for a second or so.
    pub effort: u32,
    /// For these orders; the same input gives the same sheet on every machine.
    pub seed: u64,
}

/// Where a sprite lies: its place without the padding, and whether it is turned by 90 degrees (1 or 0): then the place is as
/// wide as the sprite is high.
#[repr(C)]
#[derive(Clone, Copy)]
pub struct PlainPlaced {
    pub area: PlainRectangle,
    pub turned: u32,
}

/// Where a sprite lies in a sheet that was filled: `is_placed` is 1, and it lies in `placed`; or 0, where it found no room,
/// and `placed` is 0.
#[repr(C)]
#[derive(Clone, Copy)]
pub struct PlainMaybePlaced {
    pub is_placed: u32,
    pub placed: PlainPlaced,
}

/// Where a sprite lies on one of several sheets: the number of the sheet, counted from 0, and its place there.
#[repr(C)]
#[derive(Clone, Copy)]
pub struct PlainOnPage {
    pub page: usize,
    pub placed: PlainPlaced,
}

// No place.
const NO_PLACE: PlainMaybePlaced = PlainMaybePlaced {
    is_placed: 0,
    placed: PlainPlaced {
        area: PlainRectangle {
            min_x: 0,
            min_y: 0,
            max_x: 0,
            max_y: 0,
        },
        turned: 0,
    },
};

/// A sprite's place as C has it.
pub fn plain_placed(placed: Placed) -> PlainPlaced
    ensures value { placed_in result ≡ placed }
    ensures bit { IsToldByBit result }
{
    PlainPlaced {
        area: plain_rectangle(placed.area),
        turned: if placed.turned { 1 } else { 0 },
    }
}

/// The place of a sprite that may have none, as C has it.
pub fn plain_maybe_placed(place: Option<Placed>) -> PlainMaybePlaced
    ensures value { maybe_placed_in result ≡ place }
    ensures bits { IsMaybeToldByBit result }
{
    match place {
        Some(placed) => PlainMaybePlaced {
            is_placed: 1,
            placed: plain_placed(placed),
        },
        None => NO_PLACE,
    }
}

/// A sprite's place on one of several sheets, as C has it.
pub fn plain_on_page(place: OnPage) -> PlainOnPage
    ensures value { on_page_in result ≡ place }
    ensures bit { IsPageToldByBit result }
{
    PlainOnPage {
        page: place.page,
        placed: plain_placed(place.placed),
    }
}

// The sheets that are allowed; None if they are of no kind.
fn allowed_for(options: &PlainSheetOptions) -> Option<Allowed>
    ensures { result ≡ allowed_in options.now }
{
    match options.allowed {
        ONE_SIZE => Some(Allowed::One(size2(options.width, options.height))),
        SQUARES => Some(Allowed::Squares {
            least: options.least,
            greatest: options.greatest,
        }),
        POWERS => Some(Allowed::Powers {
            greatest: options.greatest,
        }),
        HEIGHTS => Some(Allowed::Heights {
            width: options.width,
            greatest: options.greatest,
        }),
        _ => None,
    }
}

// A sheet's options of C's as the library has them, over these sheets.
fn options_with(options: &PlainSheetOptions, allowed: Allowed, padding: u16) -> SheetOptions
    requires { padding ≡ options.now.padding }
    ensures { result ≡ options_over options.now allowed }
{
    SheetOptions {
        allowed,
        padding,
        alignment: size2(options.alignment_width, options.alignment_height),
        turn: options.turn != 0,
        effort: options.effort,
        seed: options.seed,
    }
}

/// A sheet's options of C's as the library has them; None if the sheets are of no kind, or the padding is above 65535.
pub fn sheet_options_for(options: &PlainSheetOptions) -> Option<SheetOptions>
    ensures { result ≡ sheet_options_in options.now }
{
    if options.padding > 65_535 {
        return None;
    }
    let allowed = allowed_for(options)?;
    Some(options_with(options, allowed, options.padding as u16))
}

/// The status of an error. The number of a sprite that it names is written.
pub fn status_of_sheet_error(error: SheetError, sprite: &mut usize) -> u32
    ensures told { sheet_error result sprite.new ≡ Some error }
    ensures kept { result ≢ EMPTY_SPRITE → result ≢ GREAT_SPRITE → sprite.new ≡ sprite.old }
    ensures done { result ≢ DONE }
    ensures no_room { result ≢ NO_ROOM }
    ensures bad { result ≢ BAD_CALL }
    ensures short { result ≢ SHORT }
{
    match error {
        SheetError::Memory => MEMORY,
        SheetError::EmptySheet => EMPTY_SHEET,
        SheetError::EmptyRange => EMPTY_RANGE,
        SheetError::EmptyAlignment => EMPTY_ALIGNMENT,
        SheetError::EmptySprite(number) => {
            *sprite = number;
            EMPTY_SPRITE
        }
        SheetError::GreatSprite(number) => {
            *sprite = number;
            GREAT_SPRITE
        }
    }
}
