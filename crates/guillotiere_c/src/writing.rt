//! Lists, written into arrays of the caller's: as much as there is room for.
ghost use Rattle.std.specs.Prelude.{length, min};
ghost use Rattle.guillotiere_c.specs.Numbers.{allocation_in, change_in, corners_in, size_in};
ghost use Rattle.guillotiere_c.specs.SheetNumbers.{maybe_placed_in, on_page_in, placed_in, IsMaybeToldByBit, IsPageToldByBit, IsToldByBit};
ghost use Rattle.guillotiere_c.specs.Writing.{AreFirst, IsWritten};

use crate::plain::{
    PlainAllocation, PlainChange, PlainRectangle, PlainSize, plain_allocation, plain_change,
    plain_rectangle, plain_size,
};
use crate::plain_sheet::{
    PlainMaybePlaced, PlainOnPage, PlainPlaced, plain_maybe_placed, plain_on_page, plain_placed,
};
use atlas_sheet::{OnPage, Placed};
use guillotiere::{Allocation, Change, Rectangle, Size};

/// Writes ids with their rectangles.
pub fn write_allocations(list: &[Allocation], array: &mut [PlainAllocation])
    ensures { IsWritten allocation_in list.now array.old array.new }
{
    for i in 0..list.len().min(array.len()) {
        array[i] = plain_allocation(list[i]);
    }
}

/// Writes rectangles.
pub fn write_rectangles(list: &[Rectangle], array: &mut [PlainRectangle])
    ensures { IsWritten corners_in list.now array.old array.new }
{
    for i in 0..list.len().min(array.len()) {
        array[i] = plain_rectangle(list[i]);
    }
}

/// Writes changes.
pub fn write_changes(list: &[Change], array: &mut [PlainChange])
    ensures { IsWritten change_in list.now array.old array.new }
{
    for i in 0..list.len().min(array.len()) {
        array[i] = plain_change(list[i]);
    }
}

/// Writes the places of sprites.
pub fn write_placed(list: &[Placed], array: &mut [PlainPlaced])
    ensures written { IsWritten placed_in list.now array.old array.new }
    ensures bits { AreFirst IsToldByBit (min (length list.now) (length array.old)) array.new }
{
    for i in 0..list.len().min(array.len()) {
        array[i] = plain_placed(list[i]);
    }
}

/// Writes the places of sprites that have one.
pub fn write_maybe_placed(list: &[Option<Placed>], array: &mut [PlainMaybePlaced])
    ensures written { IsWritten maybe_placed_in list.now array.old array.new }
    ensures bits { AreFirst IsMaybeToldByBit (min (length list.now) (length array.old)) array.new }
{
    for i in 0..list.len().min(array.len()) {
        array[i] = plain_maybe_placed(list[i]);
    }
}

/// Writes the places of sprites on several sheets.
pub fn write_on_pages(list: &[OnPage], array: &mut [PlainOnPage])
    ensures written { IsWritten on_page_in list.now array.old array.new }
    ensures bits { AreFirst IsPageToldByBit (min (length list.now) (length array.old)) array.new }
{
    for i in 0..list.len().min(array.len()) {
        array[i] = plain_on_page(list[i]);
    }
}

/// Writes sizes.
pub fn write_sizes(list: &[Size], array: &mut [PlainSize])
    ensures { IsWritten size_in list.now array.old array.new }
{
    for i in 0..list.len().min(array.len()) {
        array[i] = plain_size(list[i]);
    }
}
