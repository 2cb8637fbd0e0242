//! The search for the free box that a request takes, through the lists of a table.
ghost use Rattle.std.specs.Prelude.{◌≡◌, ◌+◌, ◌*◌, ◌<◌, ◌≤◌, ◌==◌, ◌⊎◌, ℕ, max, true, false, [], map, List, None};
ghost use Rattle.std.specs.Prelude.{IfSome};
ghost use Rattle.atlas_model.specs.Boxes.{Box, IsPositive, Sides};
ghost use Rattle.atlas_model.specs.Choice.{IsFitting, IsPick, Options, class_of};
ghost use Rattle.atlas_search.specs.Bests.{HasSeen};
ghost use Rattle.atlas_search.specs.Items.{Item};
ghost use Rattle.atlas_search.specs.Lookups.{AreAfter, AreBelow, AreFreeItems, AreListed, AreNear, AreNoneApart};
ghost use Rattle.atlas_search.specs.Lookups.{HasAdded, HasFound, HasSearched, IsBeyond, IsInColumn, IsInRow};
ghost use Rattle.atlas_search.specs.Lookups.{IsSearch, IsSearchBefore, IsStanding};
ghost use Rattle.atlas_search.specs.Masks.{IsMarked, has};
ghost use Rattle.atlas_model.specs.Pixels.{box_of, options_of, sides_of};
ghost use Rattle.atlas_search.specs.Tables.{head_of, is_used_at};

use crate::bands::{BANDS, Place, Scale};
use crate::best::{Best, Found};
use crate::link::Link;
use crate::masks::Mask;
use crate::table::{FEW, Table};
use atlas_model::{Rectangle, Size};
use showing::{show_entry, show_larger, show_list};
use std::alloc::Allocator;

mod showing;

/// What a search reads of an entry of a list of free boxes.
pub trait Entry {
    ghost use Rattle.atlas_search.specs.Items.{Item};

    ghost item: { Self → Item };

    /// The entry's rectangle.
    fn rectangle(&self) -> Rectangle
        ensures { result ≡ (item self.now).area };

    /// The entry that it hangs below, or the tag of its list.
    fn up(&self) -> Link
        ensures { result.number ≡ (item self.now).up };

    /// The entry that hangs below it to the left, or none.
    fn left(&self) -> Link
        ensures { result.number ≡ (item self.now).left };

    /// The entry that hangs below it to the right, or none.
    fn right(&self) -> Link
        ensures { result.number ≡ (item self.now).right };

    /// Whether what hangs below it is divided by size.
    fn is_fork(&self) -> bool
        ensures { result ≡ (item self.now).is_fork };
}

// Shows the list at a place to a search.
#[inline(always)]
fn search_list<A: Allocator, E: Entry>(
    entries: &[E],
    table: &Table<A>,
    place: Place,
    best: &mut Best,
)
    requires grown { table.now.is_grown ≡ true }
    requires row { place.row < BANDS }
    requires column { place.column < BANDS }
    requires listed { (o : Options) × AreListed o table.now.heads (map E.item entries.now) }
    ensures { (o : Options) (end : ℕ) (r : Sides) → AreListed o table.now.heads (map E.item entries.now)
        → AreBelow end place.row place.column
        → HasAdded o (map E.item entries.now) end r (λ i j. (i ≡ place.row) × (j ≡ place.column)) best.old best.new }
{
    show_list(entries, table.stored_head(place), best);
}

// Shows lists of a row to a search.
#[inline(always)]
fn search_row<A: Allocator, E: Entry>(
    entries: &[E],
    table: &Table<A>,
    row: usize,
    columns: Mask,
    best: &mut Best,
)
    requires grown { table.now.is_grown ≡ true }
    requires row { row < BANDS }
    requires columns { (j : ℕ) → IsMarked columns j → j < BANDS }
    requires listed { (o : Options) × AreListed o table.now.heads (map E.item entries.now) }
    ensures { (o : Options) (end : ℕ) (r : Sides) → AreListed o table.now.heads (map E.item entries.now)
        → ((j : ℕ) → IsMarked columns j → AreBelow end row j)
        → HasAdded o (map E.item entries.now) end r (IsInRow row columns) best.old best.new }
{
    let mut left = columns;
    while let Some(column) = left.take_first() {
        search_list(entries, table, Place { row, column }, best);
    }
}

// Shows lists of a row that lie to the right of a request's own and below it to a search.
#[inline(always)]
fn search_larger<A: Allocator, E: Entry>(
    entries: &[E],
    table: &Table<A>,
    row: usize,
    columns: Mask,
    best: &mut Best,
)
    requires grown { table.now.is_grown ≡ true }
    requires row { row < BANDS }
    requires columns { (j : ℕ) → IsMarked columns j → j < BANDS }
    requires listed { (o : Options) × AreListed o table.now.heads (map E.item entries.now) }
    ensures { (o : Options) (end : ℕ) (r : Sides) → AreListed o table.now.heads (map E.item entries.now)
        → ((j : ℕ) → IsMarked columns j → AreBelow end row j)
        → ((j : ℕ) → IsMarked columns j → AreAfter o r row j)
        → HasAdded o (map E.item entries.now) end r (IsInRow row columns) best.old best.new }
{
    let mut left = columns;
    while let Some(column) = left.take_first() {
        show_larger(entries, table.stored_head(Place { row, column }), best);
    }
}

// Shows lists of a column to a search.
#[inline(always)]
fn search_column<A: Allocator, E: Entry>(
    entries: &[E],
    table: &Table<A>,
    column: usize,
    rows: Mask,
    best: &mut Best,
)
    requires grown { table.now.is_grown ≡ true }
    requires column { column < BANDS }
    requires rows { (i : ℕ) → IsMarked rows i → i < BANDS }
    requires listed { (o : Options) × AreListed o table.now.heads (map E.item entries.now) }
    ensures { (o : Options) (end : ℕ) (r : Sides) → AreListed o table.now.heads (map E.item entries.now)
        → ((i : ℕ) → IsMarked rows i → AreBelow end i column)
        → HasAdded o (map E.item entries.now) end r (IsInColumn column rows) best.old best.new }
{
    let mut left = rows;
    while let Some(row) = left.take_first() {
        search_list(entries, table, Place { row, column }, best);
    }
}

// The rows with a list that isn't empty in these columns.
#[inline(never)]
fn rows_with<A: Allocator>(table: &Table<A>, first: usize, end: usize) -> Mask
    requires grown { table.now.is_grown ≡ true }
    requires end { end ≤ BANDS }
    ensures { (i j : ℕ) → i < BANDS → first ≤ j → j < end → is_used_at table.now.heads (52 * i + j) ≡ true
        → IsMarked result i }
{
    let mut rows = Mask::none();
    for column in first..end {
        rows = rows.or(table.column(column));
    }
    rows
}

// Of the columns of a row those with a list that may hold a better box than the best.
#[inline(always)]
fn columns_near(options: &Scale, row: usize, columns: Mask, best: &Best) -> Mask
    ensures { AreNear (options_of options.now) row columns result best.now }
{
    let Some(size) = best.farthest() else {
        return columns;
    };
    let place = options.place_for(size);
    if row <= place.row {
        return columns;
    }
    columns.below(place.column + 1)
}

// Shows lists of these rows to a search, from a column on and before another.
#[inline(always)]
fn search_rows<A: Allocator, E: Entry>(
    entries: &[E],
    table: &Table<A>,
    options: &Scale,
    rows: Mask,
    first: usize,
    end: usize,
    best: &mut Best,
)
    requires grown { table.now.is_grown ≡ true }
    requires rows { (i : ℕ) → IsMarked rows i → i < end }
    requires first { first ≤ BANDS }
    requires end { end ≤ BANDS }
    requires listed { AreListed (options_of options.now) table.now.heads (map E.item entries.now) }
    ensures { (r : Sides) → ((i : ℕ) → IsMarked rows i → AreAfter (options_of options.now) r i first)
        → HasAdded (options_of options.now) (map E.item entries.now) end r (IsBeyond rows first end) best.old best.new }
{
    let mut left = rows;
    while let Some(row) = left.take_first() {
        let columns = table.row(row).from(first).below(end);
        let near = columns_near(options, row, columns, best);
        search_larger(entries, table, row, near, best);
    }
}

// A row or column that each list with a slot reaches, of those from a place on, where these are the columns of its row;
// not less than the place's own, the greater of which is given.
#[inline(always)]
fn least_from<A: Allocator>(table: &Table<A>, own: Place, greater: usize, columns: Mask) -> usize
    requires columns { table.now.is_grown ≡ true → (j : ℕ) → own.column ≤ j → j < BANDS
        → is_used_at table.now.heads (52 * own.row + j) ≡ true → IsMarked columns j }
    requires row { own.row < BANDS }
    requires greater { greater ≡ max own.row own.column }
    ensures reached { table.now.is_grown ≡ true → (i j : ℕ) → i < BANDS → j < BANDS → own.row ≤ i → own.column ≤ j
        → is_used_at table.now.heads (52 * i + j) ≡ true → (result ≤ i) ⊎ (result ≤ j) }
    ensures row { own.row ≤ result }
    ensures column { own.column ≤ result }
    ensures few { table.now.is_grown ≡ false → ((j : ℕ) → has columns j ≡ false) → BANDS ≤ result }
{
    let rows = table.used().from(own.row + 1);
    columns.or(rows).first().max(greater)
}

// Shows the free entries before a row and a column to a search that knows of none: those with an equal side first, which
// stand in these columns of the request's own row and these rows of its column, and the others only if none of those is
// free. Answers whether it saw that no list to the right and below has a slot.
#[inline(always)]
fn search_before<A: Allocator, E: Entry>(
    entries: &[E],
    table: &Table<A>,
    options: &Scale,
    own: Place,
    in_row: Mask,
    in_column: Mask,
    end: usize,
    best: &mut Best,
) -> bool
    requires row { own.row < end }
    requires column { own.column < end }
    requires end { end ≤ BANDS }
    requires grown { table.now.is_grown ≡ true }
    requires search { (r : Sides)
        × IsSearchBefore (options_of options.now) table.now.heads (map E.item entries.now) own r end in_row in_column }
    ensures best { (r : Sides)
        → IsSearchBefore (options_of options.now) table.now.heads (map E.item entries.now) own r end in_row in_column
        → HasSeen best.old (class_of (options_of options.now) r == 2) r []
        → HasSearched (options_of options.now) (map E.item entries.now) end r best.new }
    ensures last { result ≡ true → AreNoneApart table.now.heads own }
{
    search_row(entries, table, own.row, in_row, best);
    search_column(entries, table, own.column, in_column, best);
    if best.has_equal_side() {
        return false;
    }
    let first = own.column + 1;
    let others = rows_with(table, first, BANDS).from(own.row + 1);
    search_rows(entries, table, options, others.below(end), first, end, best);
    others.is_empty()
}

// The entry that a request takes at once: of the lists before a row and a column that are left in its own row and column one
// alone may have a slot, that is in its row, and what is first there has an equal side.
#[inline(always)]
fn pick_alone<A: Allocator, E: Entry>(
    entries: &[E],
    table: &Table<A>,
    own: Place,
    in_row: Mask,
    in_column: Mask,
    begun: Best,
) -> Option<Link>
    requires row { own.row < BANDS }
    requires columns { (j : ℕ) → IsMarked in_row j → j < BANDS }
    requires grown { table.now.is_grown ≡ true }
    requires listed { (o : Options) × AreListed o table.now.heads (map E.item entries.now) }
    ensures { IfSome result (λ at. (o : Options) (end : ℕ) (r : Sides) → own.row < end → own.column < end
        → IsSearchBefore o table.now.heads (map E.item entries.now) own r end in_row in_column
        → HasSeen begun (class_of o r == 2) r [] → HasFound o (map E.item entries.now) end r at) }
{
    let mut left = in_row;
    let Some(column) = left.take_first() else {
        return None;
    };
    if !left.or(in_column).is_empty() {
        return None;
    }
    let top = table.stored_head(Place {
        row: own.row,
        column,
    });
    if top.number as usize >= entries.len() {
        return None;
    }
    let mut best = begun;
    if show_entry(&entries[top.number as usize], top, &mut best) {
        return None;
    }
    if best.has_equal_side() {
        return best.found();
    }
    None
}

// Shows the lists before a row and a column to a search, where only the first few slots come first in lists.
fn search_few<A: Allocator, E: Entry>(entries: &[E], table: &Table<A>, end: usize, best: &mut Best)
    requires end { end ≤ BANDS }
    requires listed { (o : Options) × AreListed o table.now.heads (map E.item entries.now) }
    requires grown { table.now.is_grown ≡ false }
    requires few { (k : ℕ) → is_used_at table.now.heads k ≡ true → (head_of table.now.heads k).number < FEW }
    ensures { (o : Options) (r : Sides) → AreListed o table.now.heads (map E.item entries.now)
        → HasAdded o (map E.item entries.now) end r (AreBelow end) best.old best.new }
{
    for i in 0..FEW.min(entries.len()) {
        let list = table.list_of_few(i);
        let row = list / BANDS;
        let column = list % BANDS;
        if row.max(column) < end {
            show_list(entries, table.head(Place { row, column }), best);
        }
    }
}

// The free entry that a request of this rounded size takes, where only the first few slots come first in lists.
#[cold]
#[inline(never)]
fn pick_few<A: Allocator, E: Entry>(
    entries: &[E],
    table: &Table<A>,
    options: &Scale,
    size: Size,
) -> Option<Found>
    requires positive { IsPositive (sides_of size) }
    requires listed { AreListed (options_of options.now) table.now.heads (map E.item entries.now) }
    requires grown { table.now.is_grown ≡ false }
    requires few { (k : ℕ) → is_used_at table.now.heads k ≡ true → (head_of table.now.heads k).number < FEW }
    ensures none { result ≡ None → (free : List Box) → AreFreeItems (map E.item entries.now) free → (b : Box)
        → IsFitting free (sides_of size) b → ⊥ }
    ensures picked { IfSome result
        (λ found. (free : List Box) → AreFreeItems (map E.item entries.now) free
        → IsPick free (options_of options.now) (sides_of size) (box_of found.rectangle)) }
    ensures standing { IfSome result (IsStanding (map E.item entries.now)) }
{
    let own = options.place_for(size);
    let greater = own.row.max(own.column);
    let is_large = greater >= options.large();
    let mut least = greater;
    while least < BANDS {
        let end = options.end_after(least);
        let mut best = Best::new(size, is_large);
        search_few(entries, table, end, &mut best);
        if let Some(at) = best.found() {
            let rectangle = entries[at.number as usize].rectangle();
            return Some(Found { rectangle, at });
        }
        least = end;
    }
    None
}

// The free entry that a request takes, where each list with a slot reaches a row or column, and these columns of its own row and
// these rows of its own column may have one.
#[inline(always)]
fn pick_from<A: Allocator, E: Entry>(
    entries: &[E],
    table: &Table<A>,
    options: &Scale,
    own: Place,
    least: usize,
    mut columns: Mask,
    mut rows: Mask,
    begun: Best,
) -> Option<Found>
    requires grown { table.now.is_grown ≡ true }
    requires row { own.row ≤ least }
    requires column { own.column ≤ least }
    requires least { least < BANDS }
    requires search { IsSearch (options_of options.now) table.now.heads (map E.item entries.now) own (sides_of begun.size) least columns
        rows }
    requires seen { HasSeen begun (class_of (options_of options.now) (sides_of begun.size) == 2) (sides_of begun.size) [] }
    ensures none { result ≡ None → (free : List Box) → AreFreeItems (map E.item entries.now) free → (b : Box)
        → IsFitting free (sides_of begun.size) b → ⊥ }
    ensures picked { IfSome result
        (λ found. (free : List Box) → AreFreeItems (map E.item entries.now) free
        → IsPick free (options_of options.now) (sides_of begun.size) (box_of found.rectangle)) }
    ensures standing { IfSome result (IsStanding (map E.item entries.now)) }
{
    let mut end = options.end_after(least);
    let mut in_row = columns.below(end);
    let mut in_column = rows.below(end);
    if let Some(at) = pick_alone(entries, table, own, in_row, in_column, begun) {
        let rectangle = entries[at.number as usize].rectangle();
        return Some(Found { rectangle, at });
    }
    let mut best = begun;
    loop {
        let is_last = search_before(
            entries, table, options, own, in_row, in_column, end, &mut best,
        );
        if let Some(at) = best.found() {
            let rectangle = entries[at.number as usize].rectangle();
            return Some(Found { rectangle, at });
        }
        if end >= BANDS {
            return None;
        }
        columns = columns.from(end);
        rows = rows.from(end);
        if is_last && columns.or(rows).is_empty() {
            return None;
        }
        end = options.end_after(end);
        in_row = columns.below(end);
        in_column = rows.below(end);
    }
}

/// The free entry that a request of this rounded size takes.
pub fn pick<A: Allocator, E: Entry>(
    entries: &[E],
    table: &Table<A>,
    options: &Scale,
    size: Size,
) -> Option<Found>
    requires positive { IsPositive (sides_of size) }
    requires listed { AreListed (options_of options.now) table.now.heads (map E.item entries.now) }
    ensures none { result ≡ None → (free : List Box) → AreFreeItems (map E.item entries.now) free → (b : Box)
        → IsFitting free (sides_of size) b → ⊥ }
    ensures picked { IfSome result
        (λ found. (free : List Box) → AreFreeItems (map E.item entries.now) free
        → IsPick free (options_of options.now) (sides_of size) (box_of found.rectangle)) }
    ensures standing { IfSome result (IsStanding (map E.item entries.now)) }
{
    let own = options.place_for(size);
    let greater = own.row.max(own.column);
    let is_large = greater >= options.large();
    let columns = table.row(own.row).from(own.column);
    let rows = table.column(own.column).from(own.row + 1);
    let least = least_from(table, own, greater, columns);
    if least < BANDS {
        let begun = Best::new(size, is_large);
        return pick_from(entries, table, options, own, least, columns, rows, begun);
    }
    if table.is_grown() {
        return None;
    }
    pick_few(entries, table, options, size)
}
