//! A list of entries shown to a search: its heap from the top on, but for what can't be the best.
ghost use Rattle.std.specs.Prelude.{◌≡◌, ◌+◌, ◌<◌, ◌++◌, ◌∷◌, ℕ, true, false, [], map, List};
ghost use Rattle.atlas_model.specs.Boxes.{Sides};
ghost use Rattle.atlas_search.specs.Bests.{IsOut};
ghost use Rattle.atlas_search.specs.Forks.{HasHalves, IsRouted};
ghost use Rattle.atlas_search.specs.Heaps.{Heap, IsHeap, members};
ghost use Rattle.atlas_search.specs.Heaps.Heap.{Top};
ghost use Rattle.atlas_search.specs.Items.{Item, item_at};
ghost use Rattle.atlas_search.specs.Lookups.{AreLarger, HasShown, HasShownTo};
ghost use Rattle.atlas_search.specs.Rectangles.{IsSolid};
ghost use Rattle.atlas_search.specs.Showing.{IsForkShowable, IsListShowable, IsShowable, cell_with};
ghost use Rattle.atlas_search.specs.declared.cells.Cell.{Cell};

use crate::best::{Best, corner};
use crate::cells::{Cell, Halves};
use crate::cut::exact_size;
use crate::link::Link;
use crate::search::Entry;

// Shows an entry to a search. Answers whether one that hangs below it may be better: where it is a fork, since else those have
// its size and come no earlier, and where neither it nor a best that comes no later has an equal side.
#[inline(always)]
pub(crate) fn show_entry<E: Entry>(entry: &E, at: Link, best: &mut Best) -> bool
    requires { IsSolid (E.item entry.now).area }
    ensures fork { result ≡ true → ((E.item entry.now).is_fork ≡ true)
        × ((es : List Item) → E.item entry.now ≡ item_at es at.number → HasShown es (at.number ∷ []) best.old best.new) }
    ensures all { result ≡ false → (es : List Item) → E.item entry.now ≡ item_at es at.number
        → (up : ℕ) (c : Cell) (l r : Heap) → IsHeap es up at.number (Top at.number l r) → IsRouted es c (Top at.number l r)
        → HasShown es (members (Top at.number l r)) best.old best.new }
{
    let area = entry.rectangle();
    let corner = corner(area);
    if best.passes(corner) {
        return false;
    }
    if best.look(area, corner, at) {
        return false;
    }
    entry.is_fork()
}

// Shows what hangs below a fork, by the halves of its cell, to a search, but for what can't be the best: of the halves only those are
// entered that may have a better one; of the low one it is given whether the request may fit a box.
#[cycle(show)]
#[inline(always)]
fn show_halves<E: Entry>(entries: &[E], fork: &E, halves: Halves, may_fit: bool, best: &mut Best)
    requires fork { (cell : Cell) × (at : ℕ) × (l : Heap) × (r : Heap) × HasHalves cell halves.low halves.high
        × IsForkShowable (map E.item entries.now) cell (E.item fork.now) at l r }
    requires out { may_fit ≡ false → IsOut best.old halves.low }
    ensures { (cell : Cell) (at : ℕ) (l r : Heap) → HasHalves cell halves.low halves.high
        → IsForkShowable (map E.item entries.now) cell (E.item fork.now) at l r
        → HasShown (map E.item entries.now) (members l ++ members r) best.old best.new }
{
    if may_fit {
        show_within(entries, fork.left(), halves.low, best);
    }
    if best.may_gain_in(halves.high) {
        show_within(entries, fork.right(), halves.high, best);
    }
}

// A call of its own for each fork that is entered. The cell comes by its four sides, since a whole one would go through memory.
#[cycle(show)]
#[inline(never)]
fn show_below<E: Entry>(
    entries: &[E],
    fork: &E,
    best: &mut Best,
    left: u32,
    right: u32,
    top: u32,
    bottom: u32,
)
    requires { (at : ℕ) × (l : Heap) × (r : Heap)
        × IsForkShowable (map E.item entries.now) (cell_with left right top bottom) (E.item fork.now) at l r }
    ensures { (at : ℕ) (l r : Heap)
        → IsForkShowable (map E.item entries.now) (cell_with left right top bottom) (E.item fork.now) at l r
        → HasShown (map E.item entries.now) (members l ++ members r) best.old best.new }
{
    let cell = Cell {
        left,
        right,
        top,
        bottom,
    };
    if cell.is_cut_wide() {
        let halves = cell.halves(true);
        let may_fit = best.may_fit_by(halves.low, true);
        show_halves(entries, fork, halves, may_fit, best);
    } else {
        let halves = cell.halves(false);
        let may_fit = best.may_fit_by(halves.low, false);
        show_halves(entries, fork, halves, may_fit, best);
    }
}

// Shows the entries of a heap with this top and of sizes of a cell to a search, but for those that can't be the best.
#[cycle(show)]
#[inline(always)]
fn show_within<E: Entry>(entries: &[E], at: Link, cell: Cell, best: &mut Best)
    requires { (h : Heap) × IsShowable (map E.item entries.now) cell at.number h }
    ensures { (h : Heap) → IsShowable (map E.item entries.now) cell at.number h
        → HasShown (map E.item entries.now) (members h) best.old best.new }
{
    if at.number as usize >= entries.len() {
        return;
    }
    let entry = &entries[at.number as usize];
    if show_entry(entry, at, best) {
        show_below(
            entries,
            entry,
            best,
            cell.left,
            cell.right,
            cell.top,
            cell.bottom,
        );
    }
}

// Shows a list that begins with this to a search.
#[inline(always)]
pub(crate) fn show_list<E: Entry>(entries: &[E], top: Link, best: &mut Best)
    requires { (h : Heap) × IsListShowable (map E.item entries.now) top.number h }
    ensures { (h : Heap) → IsListShowable (map E.item entries.now) top.number h
        → HasShown (map E.item entries.now) (members h) best.old best.new }
{
    if top.number as usize >= entries.len() {
        return;
    }
    let entry = &entries[top.number as usize];
    if show_entry(entry, top, best) {
        let cell = Cell::around(exact_size(entry.rectangle()));
        let halves = cell.halves(cell.is_cut_wide());
        let may_fit = best.may_fit_in(halves.low);
        show_halves(entries, entry, halves, may_fit, best);
    }
}

// Shows a list of sizes that are larger than the request's, both sides, to a search. It may be enough to look at its first entry.
#[inline(always)]
pub(crate) fn show_larger<E: Entry>(entries: &[E], top: Link, best: &mut Best)
    requires { (h : Heap) × IsListShowable (map E.item entries.now) top.number h }
    ensures { (h : Heap) (r : Sides) → IsListShowable (map E.item entries.now) top.number h
        → AreLarger (map E.item entries.now) r (members h)
        → HasShownTo (map E.item entries.now) r (members h) best.old best.new }
{
    if top.number as usize >= entries.len() {
        return;
    }
    let entry = &entries[top.number as usize];
    let area = entry.rectangle();
    let corner = corner(area);
    if best.passes_larger(corner) {
        return;
    }
    best.look_larger(area, corner, top);
    if entry.is_fork() {
        let cell = Cell::around(exact_size(area));
        if best.ends_in(cell, corner) {
            return;
        }
        let halves = cell.halves(cell.is_cut_wide());
        let may_fit = best.may_fit_in(halves.low);
        show_halves(entries, entry, halves, may_fit, best);
    }
}
