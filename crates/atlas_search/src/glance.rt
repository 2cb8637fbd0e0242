//! Whether a request has room, as far as that is seen without a search.
ghost use Rattle.std.specs.Prelude.{◌≡◌, ◌+◌, ◌*◌, ◌<◌, List, map, true};
ghost use Rattle.atlas_model.specs.Boxes.{Box, IsPositive};
ghost use Rattle.atlas_model.specs.Choice.{IsFitting};
ghost use Rattle.atlas_model.specs.Pixels.{options_of, sides_of};
ghost use Rattle.atlas_search.specs.Lookups.{AreFreeItems, AreListed, IsUsedBeyond};
ghost use Rattle.atlas_search.specs.Tables.{is_used_at};

use crate::bands::{BANDS, Place, Scale};
use crate::choice::margin_in;
use crate::link::NO_SLOT;
use crate::search::Entry;
use crate::table::Table;
use atlas_model::Size;
use std::alloc::Allocator;

// Whether a list to the right and below a place has a slot; of each row the first list that may have one is looked at.
fn has_beyond<A: Allocator>(table: &Table<A>, own: Place) -> bool
    requires grown { table.now.is_grown ≡ true }
    requires row { own.row < BANDS }
    requires column { own.column < BANDS }
    ensures { result ≡ true → IsUsedBeyond table.now.heads own }
{
    let mut left = table.used().from(own.row + 1);
    while let Some(row) = left.take_first() {
        let column = table.row(row).from(own.column + 1).first();
        if column < BANDS && table.stored_head(Place { row, column }).number != NO_SLOT {
            return true;
        }
    }
    false
}

/// Whether a request of this rounded size fits the first box of its own list, or one of a list to the right and below. Where it
/// doesn't, it may fit another free box.
pub fn fits_at_once<A: Allocator, E: Entry>(
    entries: &[E],
    table: &Table<A>,
    options: &Scale,
    size: Size,
) -> bool
    requires positive { IsPositive (sides_of size) }
    requires listed { AreListed (options_of options.now) table.now.heads (map E.item entries.now) }
    ensures { result ≡ true → (free : List Box) → AreFreeItems (map E.item entries.now) free
        → (b : Box) × IsFitting free (sides_of size) b }
{
    if !table.is_grown() {
        return false;
    }
    let own = options.place_for(size);
    if has_beyond(table, own) {
        return true;
    }
    let top = table.stored_head(own).number as usize;
    top < entries.len() && margin_in(entries[top].rectangle(), size) >= 0
}
